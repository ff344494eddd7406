//! Which tests say something of a variable, and what each side then knows.

ghost use Rattle.std.specs.Prelude.{◌≡◌, Some, IfOk};
ghost use Rattle.std.specs.Option.{option_copied};
ghost use Rattle.srb_judgement.specs.Environments as environments;
ghost use Rattle.srb_judgement.specs.Forms as forms;
ghost use Rattle.srb_judgement.specs.Kept.{AtEach};
ghost use Rattle.srb_judgement.specs.Narrowing as spec;
ghost use Rattle.srb_judgement.specs.States.{judged};
ghost use Rattle.srb_judgement.specs.Types.{nil_type};
ghost use Rattle.srb_judgement.specs.Views.{seen_environment, seen_meaning, seen_rows, seen_says, seen_sole, seen_spelling, seen_state, seen_tested, settled};

use crate::contexts::Context;
use crate::environments::{Environment, Rows, variable_type, with_type};
use crate::language::Language;
use crate::meaning::Meaning;
use crate::says::Says;
use crate::spelling::{Sole, Spelling};
use crate::states::State;
use crate::tested::Tested;
use crate::types::{falsy, nil_type, truthy};
use srb_terms::{Name, Names, NoMemory, Ty};
use std::alloc::Global;

// ---- sides

/// The map in which a variable has this type. A side on which it has `T.noreturn` is dead.
fn narrowed_to<L: Language>(
    language: &L,
    rows: Rows,
    name: &Name,
    ty: Ty,
) -> Result<Environment, NoMemory>
    ensures { IfOk result (λ e. seen_environment e ≡ spec.live_or_dead (L.the language.now) ((L.the language.now).is_never ty) (environments.Live (environments.with_type (seen_rows rows.entries) name.now ty))) }
{
    if language.is_never(&ty) {
        Ok(Environment::Dead)
    } else {
        Ok(Environment::Live(with_type(rows, name.copied()?, ty)?))
    }
}

/// The side on which a variable is `truthy`.
fn truthy_side<L: Language>(
    alloc: Global,
    language: &L,
    name: &Name,
    e: Environment,
) -> Result<Environment, NoMemory>
    ensures { IfOk result (λ r. seen_environment r ≡ spec.truth_side (L.the language.now) (spec.SaysTruthy name.now) (seen_environment e)) }
{
    match e {
        Environment::Live(rows) => {
            let ty = truthy(alloc, language, variable_type(language, &rows, name))?;
            narrowed_to(language, rows, name, ty)
        }
        Environment::Dead => Ok(Environment::Dead),
        Environment::Silent => Ok(Environment::Silent),
    }
}

/// The side on which a variable is `falsy`.
fn falsy_side<L: Language>(
    alloc: Global,
    language: &L,
    name: &Name,
    e: Environment,
) -> Result<Environment, NoMemory>
    ensures { IfOk result (λ r. seen_environment r ≡ spec.falsehood_side (L.the language.now) (spec.SaysTruthy name.now) (seen_environment e)) }
{
    match e {
        Environment::Live(rows) => {
            let ty = falsy(alloc, language, variable_type(language, &rows, name))?;
            narrowed_to(language, rows, name, ty)
        }
        Environment::Dead => Ok(Environment::Dead),
        Environment::Silent => Ok(Environment::Silent),
    }
}

/// The side on which a variable meets a type.
fn meeting_side<L: Language>(
    alloc: Global,
    language: &L,
    name: &Name,
    class: &Ty,
    e: Environment,
) -> Result<Environment, NoMemory>
    ensures { IfOk result (λ r. seen_environment r ≡ spec.truth_side (L.the language.now) (spec.SaysIs name.now class.now) (seen_environment e)) }
{
    match e {
        Environment::Live(rows) => {
            let ty = language.meet(alloc, variable_type(language, &rows, name), class)?;
            narrowed_to(language, rows, name, ty)
        }
        Environment::Dead => Ok(Environment::Dead),
        Environment::Silent => Ok(Environment::Silent),
    }
}

/// The side on which a variable is without a type.
fn lacking_side<L: Language>(
    alloc: Global,
    language: &L,
    name: &Name,
    class: &Ty,
    e: Environment,
) -> Result<Environment, NoMemory>
    ensures { IfOk result (λ r. seen_environment r ≡ spec.falsehood_side (L.the language.now) (spec.SaysIs name.now class.now) (seen_environment e)) }
{
    match e {
        Environment::Live(rows) => {
            let ty = language.without(alloc, variable_type(language, &rows, name), class)?;
            narrowed_to(language, rows, name, ty)
        }
        Environment::Dead => Ok(Environment::Dead),
        Environment::Silent => Ok(Environment::Silent),
    }
}

/// What the side knows on which a test holds.
pub fn truth_side<L: Language>(
    alloc: Global,
    language: &L,
    says: &Says,
    e: Environment,
) -> Result<Environment, NoMemory>
    ensures { IfOk result (λ r. seen_environment r ≡ spec.truth_side (L.the language.now) (seen_says says.now) (seen_environment e)) }
{
    match says {
        Says::Truthy(name) => truthy_side(alloc, language, name, e),
        Says::Is(name, class) => meeting_side(alloc, language, name, class, e),
        Says::IsNot(name, class) => lacking_side(alloc, language, name, class, e),
        Says::Nothing => Ok(e),
    }
}

/// What the side knows on which a test doesn't hold.
pub fn falsehood_side<L: Language>(
    alloc: Global,
    language: &L,
    says: &Says,
    e: Environment,
) -> Result<Environment, NoMemory>
    ensures { IfOk result (λ r. seen_environment r ≡ spec.falsehood_side (L.the language.now) (seen_says says.now) (seen_environment e)) }
{
    match says {
        Says::Truthy(name) => falsy_side(alloc, language, name, e),
        Says::Is(name, class) => lacking_side(alloc, language, name, class, e),
        Says::IsNot(name, class) => meeting_side(alloc, language, name, class, e),
        Says::Nothing => Ok(e),
    }
}

/// What was judged as a value of this type, and then what it says of each side.
pub fn saying<L: Language>(
    alloc: Global,
    language: &L,
    says: &Says,
    ty: Ty,
    state: &mut State,
) -> Result<Tested, NoMemory>
    ensures { IfOk result (λ t. settled (seen_tested t (seen_state state.new)) ≡ settled (spec.saying (L.the language.now) (seen_says says.now) (judged ty (seen_state state.old)))) }
{
    let after = state.take_environment();
    let truth = truth_side(alloc, language, says, after.copied(alloc)?)?;
    let falsehood = falsehood_side(alloc, language, says, after)?;
    Ok(Tested {
        ty,
        truth,
        falsehood,
    })
}

// ---- what a test says

/// The variable that an operand with this spelling is.
pub fn variable_of<'a>(context: &Context, spelling: &'a Spelling) -> Option<&'a Name>
    ensures { AtEach context.now (λ c. option_copied result ≡ spec.variable_of c (seen_spelling spelling.now)) }
{
    match spelling {
        Spelling::NameAlone(name) => {
            if context.is_visible(name) {
                Some(name)
            } else {
                None
            }
        }
        Spelling::NilWord => None,
        Spelling::ConstantPath(_) => None,
        Spelling::Other => None,
    }
}

/// The instances of the class or module that a path means.
pub fn class_meant<L: Language>(
    alloc: Global,
    language: &L,
    meaning: &Meaning,
) -> Result<Option<Ty>, NoMemory>
    ensures { IfOk result (λ t. t ≡ spec.class_meant (L.the language.now) (seen_meaning meaning.now)) }
{
    match meaning {
        Meaning::Class(name) => Ok(Some(language.instance(alloc, name)?)),
        Meaning::Module(name) => Ok(Some(language.instance(alloc, name)?)),
        Meaning::Value(_) => Ok(None),
        Meaning::Unresolved => Ok(None),
    }
}

/// The instances of the class or module that an operand with this spelling is, in the bodies `scope`.
pub fn class_in<L: Language>(
    alloc: Global,
    language: &L,
    scope: &Names,
    spelling: &Spelling,
) -> Result<Option<Ty>, NoMemory>
    ensures { IfOk result (λ t. t ≡ spec.class_in (L.the language.now) scope.now (seen_spelling spelling.now)) }
{
    match spelling {
        Spelling::NameAlone(_) => Ok(None),
        Spelling::NilWord => Ok(None),
        Spelling::ConstantPath(path) => {
            let meaning = language.meaning(alloc, scope, path)?;
            class_meant(alloc, language, &meaning)
        }
        Spelling::Other => Ok(None),
    }
}

/// `NilClass`, where an operand with this spelling is `nil`.
pub fn nil_of<L: Language>(language: &L, spelling: &Spelling) -> Result<Option<Ty>, NoMemory>
    ensures { IfOk result (λ t. t ≡ spec.nil_of (L.the language.now) (seen_spelling spelling.now)) }
{
    match spelling {
        Spelling::NameAlone(_) => Ok(None),
        Spelling::NilWord => Ok(Some(nil_type(language)?)),
        Spelling::ConstantPath(_) => Ok(None),
        Spelling::Other => Ok(None),
    }
}

/// That a variable meets a type, where there are both.
pub fn says_is(variable: Option<&Name>, class: Option<Ty>) -> Result<Says, NoMemory>
    ensures { IfOk result (λ s. seen_says s ≡ spec.says_is (option_copied variable.entry) class) }
{
    match variable {
        None => Ok(Says::Nothing),
        Some(name) => match class {
            None => Ok(Says::Nothing),
            Some(ty) => Ok(Says::Is(name.copied()?, ty)),
        },
    }
}

/// What the negation of an equality says.
pub fn exchanged_says(says: Says) -> Says
    ensures { seen_says result ≡ spec.exchanged_says (seen_says says) }
{
    match says {
        Says::Truthy(_) => Says::Nothing,
        Says::Is(name, ty) => Says::IsNot(name, ty),
        Says::IsNot(name, ty) => Says::Is(name, ty),
        Says::Nothing => Says::Nothing,
    }
}

/// What a test for `nil` says of a variable, if there is one.
fn nil_said<L: Language>(language: &L, variable: Option<&Name>) -> Result<Says, NoMemory>
    ensures { IfOk result (λ s. seen_says s ≡ spec.says_is (option_copied variable.entry) (Some (nil_type (L.the language.now)))) }
{
    says_is(variable, Some(nil_type(language)?))
}

/// What an equality with an operand of this spelling says of a variable, if there is one.
fn equal_said<L: Language>(
    language: &L,
    variable: Option<&Name>,
    right: &Spelling,
) -> Result<Says, NoMemory>
    ensures { IfOk result (λ s. seen_says s ≡ spec.says_is (option_copied variable.entry) (spec.nil_of (L.the language.now) (seen_spelling right.now))) }
{
    says_is(variable, nil_of(language, right)?)
}

/// What `left == right` says, of operands with these spellings.
pub fn says_equal<L: Language>(
    language: &L,
    context: &Context,
    left: &Spelling,
    right: &Spelling,
) -> Result<Says, NoMemory>
    ensures { IfOk result (λ s. AtEach context.now (λ c. seen_says s ≡ spec.equal_spelled (L.the language.now) c (seen_spelling left.now) (seen_spelling right.now))) }
{
    equal_said(language, variable_of(context, left), right)
}

/// What a test for a class says, of operands with these spellings: `class === variable`, `variable.is_a?(class)`.
pub fn says_class<L: Language>(
    alloc: Global,
    language: &L,
    context: &Context,
    variable: &Spelling,
    class: &Spelling,
) -> Result<Says, NoMemory>
    ensures { IfOk result (λ s. AtEach context.now (λ c. seen_says s ≡ spec.class_spelled (L.the language.now) c (seen_spelling variable.now) (seen_spelling class.now))) }
{
    class_said(
        alloc,
        language,
        &context.scope,
        variable_of(context, variable),
        class,
    )
}

/// What `x.is_a?(..)` says of a variable, if there is one.
fn kind_said<'a, L: Language>(
    alloc: Global,
    language: &L,
    scope: &Names,
    variable: Option<&Name>,
    sole: Sole<'a>,
) -> Result<Says, NoMemory>
    ensures { IfOk result (λ s. seen_says s ≡ forms.kind_said (L.the language.now) scope.now (option_copied variable.entry) (seen_sole sole.entry)) }
{
    match sole {
        Sole::Empty => Ok(Says::Nothing),
        Sole::One(class) => class_said(alloc, language, scope, variable, class),
        Sole::Other => Ok(Says::Nothing),
    }
}

/// What `x.nil?(..)` says of a variable, if there is one.
fn nil_call_said<'a, L: Language>(
    language: &L,
    scope: &Names,
    variable: Option<&Name>,
    sole: Sole<'a>,
) -> Result<Says, NoMemory>
    ensures { IfOk result (λ s. seen_says s ≡ forms.nil_said (L.the language.now) scope.now (option_copied variable.entry) (seen_sole sole.entry)) }
{
    let _ = scope;
    match sole {
        Sole::Empty => nil_said(language, variable),
        Sole::One(_) => Ok(Says::Nothing),
        Sole::Other => Ok(Says::Nothing),
    }
}

/// What a call by `.` without a block says, on what is this variable, or none.
fn call_said<'a, L: Language>(
    alloc: Global,
    language: &L,
    scope: &Names,
    variable: Option<&Name>,
    name: &Name,
    sole: Sole<'a>,
) -> Result<Says, NoMemory>
    ensures { IfOk result (λ s. seen_says s ≡ forms.call_said (L.the language.now) scope.now (option_copied variable.entry) name.now (seen_sole sole.entry)) }
{
    match name.as_str() {
        "nil?" => nil_call_said(language, scope, variable, sole),
        "is_a?" => kind_said(alloc, language, scope, variable, sole),
        "kind_of?" => kind_said(alloc, language, scope, variable, sole),
        _ => Ok(Says::Nothing),
    }
}

/// What a call by `.` without a block says, on an operand with this spelling.
pub fn says_call<'a, L: Language>(
    alloc: Global,
    language: &L,
    context: &Context,
    receiver: &Spelling,
    name: &Name,
    sole: Sole<'a>,
) -> Result<Says, NoMemory>
    ensures { IfOk result (λ s. AtEach context.now (λ c. seen_says s ≡ forms.call_said (L.the language.now) c.scope (spec.variable_of c (seen_spelling receiver.now)) name.now (seen_sole sole.entry))) }
{
    call_said(
        alloc,
        language,
        &context.scope,
        variable_of(context, receiver),
        name,
        sole,
    )
}

/// What a test for a class says of a variable, if there is one, in the bodies `scope`.
fn class_said<L: Language>(
    alloc: Global,
    language: &L,
    scope: &Names,
    variable: Option<&Name>,
    class: &Spelling,
) -> Result<Says, NoMemory>
    ensures { IfOk result (λ s. seen_says s ≡ spec.says_is (option_copied variable.entry) (spec.class_in (L.the language.now) scope.now (seen_spelling class.now))) }
{
    says_is(variable, class_in(alloc, language, scope, class)?)
}

/// What a pattern of `case` with this spelling says of the subject, if that is a variable, in the bodies `scope`.
pub fn says_pattern<L: Language>(
    alloc: Global,
    language: &L,
    scope: &Names,
    subject: Option<&Name>,
    pattern: &Spelling,
) -> Result<Says, NoMemory>
    ensures { IfOk result (λ s. seen_says s ≡ spec.pattern_in (L.the language.now) (option_copied subject.entry) scope.now (seen_spelling pattern.now)) }
{
    match says_is(subject, nil_of(language, pattern)?)? {
        Says::Nothing => class_said(alloc, language, scope, subject, pattern),
        Says::Truthy(name) => Ok(Says::Truthy(name)),
        Says::Is(name, ty) => Ok(Says::Is(name, ty)),
        Says::IsNot(name, ty) => Ok(Says::IsNot(name, ty)),
    }
}
