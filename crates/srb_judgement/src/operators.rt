//! Operators: their methods, and `&&`, `||` and `!`, which are none.

ghost use Rattle.std.specs.Prelude.{◌≡◌, IfOk};
ghost use Rattle.srb_terms.specs.declared.ty.Ty.{Ty};
ghost use Rattle.srb_judgement.specs.Environments.{is_live, joined};
ghost use Rattle.srb_judgement.specs.Operators as spec;
ghost use Rattle.srb_judgement.specs.Types.{falsy, truthy, type_if};
ghost use Rattle.srb_judgement.specs.States.{State as Passed, judged};
ghost use Rattle.srb_judgement.specs.Views.{seen_environment, seen_state, seen_tested, settled};

use crate::environments::{Environment, joined};
use crate::language::Language;
use crate::states::State;
use crate::tested::Tested;
use crate::types::{any_if, boolean_type, falsy, truthy, type_if};
use rb_tree::syntax::Binary;
use srb_terms::{NoMemory, Ty};
use std::alloc::Global;

/// The name of the method that an operator calls.
pub fn method_name(operator: Binary) -> &'static str
    ensures { result.now ≡ spec.method_name operator }
{
    match operator {
        Binary::Or => "||",
        Binary::And => "&&",
        Binary::Equal => "==",
        Binary::NotEqual => "==",
        Binary::CaseEqual => "===",
        Binary::Compare => "<=>",
        Binary::Less => "<",
        Binary::Greater => ">",
        Binary::LessEqual => "<=",
        Binary::GreaterEqual => ">=",
        Binary::Pipe => "|",
        Binary::Caret => "^",
        Binary::Ampersand => "&",
        Binary::ShiftLeft => "<<",
        Binary::ShiftRight => ">>",
        Binary::Plus => "+",
        Binary::Minus => "-",
        Binary::Star => "*",
        Binary::Slash => "/",
        Binary::Percent => "%",
        Binary::Power => "**",
    }
}

/// The type that the left side of `&&` adds, whose falsehood is reached or not.
fn left_falsy<L: Language>(
    alloc: Global,
    language: &L,
    ty: &Ty,
    falsehood: &Environment,
) -> Result<Ty, NoMemory>
    ensures { IfOk result (λ r. r ≡ type_if (L.the language.now) (is_live (seen_environment falsehood.now)) (falsy (L.the language.now) ty.now)) }
{
    Ok(type_if(language, falsehood.is_live(), falsy(alloc, language, ty)?))
}

/// The type that the left side of `||` adds, whose truth is reached or not.
fn left_truthy<L: Language>(
    alloc: Global,
    language: &L,
    ty: &Ty,
    truth: &Environment,
) -> Result<Ty, NoMemory>
    ensures { IfOk result (λ r. r ≡ type_if (L.the language.now) (is_live (seen_environment truth.now)) (truthy (L.the language.now) ty.now)) }
{
    Ok(type_if(language, truth.is_live(), truthy(alloc, language, ty)?))
}

/// `a && b` after b, as a value, with the type and the falsehood of a, and the type of b.
pub fn and_whole<L: Language>(
    alloc: Global,
    language: &L,
    left: &Ty,
    falsehood: Environment,
    right: Ty,
    state: &mut State,
) -> Result<Ty, NoMemory>
    ensures { IfOk result (λ r. judged r (seen_state state.new) ≡ spec.and_whole (L.the language.now) left.now (seen_environment falsehood) (judged right (seen_state state.old))) }
{
    let first = left_falsy(alloc, language, left, &falsehood)?;
    let after = state.take_environment();
    let ty = any_if(alloc, language, &first, after.is_live(), right)?;
    state.environment = joined(alloc, language, falsehood, after)?;
    Ok(ty)
}

/// `a || b` after b, as a value, with the type and the truth of a, and the type of b.
pub fn or_whole<L: Language>(
    alloc: Global,
    language: &L,
    left: &Ty,
    truth: Environment,
    right: Ty,
    state: &mut State,
) -> Result<Ty, NoMemory>
    ensures { IfOk result (λ r. judged r (seen_state state.new) ≡ spec.or_whole (L.the language.now) left.now (seen_environment truth) (judged right (seen_state state.old))) }
{
    let first = left_truthy(alloc, language, left, &truth)?;
    let after = state.take_environment();
    let ty = any_if(alloc, language, &first, after.is_live(), right)?;
    state.environment = joined(alloc, language, truth, after)?;
    Ok(ty)
}

/// The type of a condition where one of its sides is reached, and else `T.noreturn`, after another type.
fn any_reached<L: Language>(
    alloc: Global,
    language: &L,
    first: &Ty,
    ty: Ty,
    truth: &Environment,
    falsehood: &Environment,
) -> Result<Ty, NoMemory>
    ensures { IfOk result (λ r. r ≡ (L.the language.now).any first.now (type_if (L.the language.now) (is_live (joined (L.the language.now) (seen_environment truth.now) (seen_environment falsehood.now))) ty)) }
{
    any_if(
        alloc,
        language,
        first,
        truth.is_live() || falsehood.is_live(),
        ty,
    )
}

/// `a && b` as a condition, with the type and the falsehood of a, and b as a condition.
pub fn and_sides<L: Language>(
    alloc: Global,
    language: &L,
    left: &Ty,
    falsehood: Environment,
    right: Tested,
) -> Result<Tested, NoMemory>
    ensures { IfOk result (λ t. (s : Passed Ty) → seen_tested t s ≡ spec.and_sides (L.the language.now) left.now (seen_environment falsehood) (seen_tested right s)) }
{
    let first = left_falsy(alloc, language, left, &falsehood)?;
    let ty = any_reached(
        alloc,
        language,
        &first,
        right.ty,
        &right.truth,
        &right.falsehood,
    )?;
    Ok(Tested {
        ty,
        truth: right.truth,
        falsehood: joined(alloc, language, falsehood, right.falsehood)?,
    })
}

/// `a || b` as a condition, with the type and the truth of a, and b as a condition.
pub fn or_sides<L: Language>(
    alloc: Global,
    language: &L,
    left: &Ty,
    truth: Environment,
    right: Tested,
) -> Result<Tested, NoMemory>
    ensures { IfOk result (λ t. (s : Passed Ty) → seen_tested t s ≡ spec.or_sides (L.the language.now) left.now (seen_environment truth) (seen_tested right s)) }
{
    let first = left_truthy(alloc, language, left, &truth)?;
    let ty = any_reached(
        alloc,
        language,
        &first,
        right.ty,
        &right.truth,
        &right.falsehood,
    )?;
    Ok(Tested {
        ty,
        truth: joined(alloc, language, truth, right.truth)?,
        falsehood: right.falsehood,
    })
}

/// `!a` as a condition.
pub fn exchanged<L: Language>(language: &L, tested: Tested) -> Result<Tested, NoMemory>
    ensures { IfOk result (λ t. (s : Passed Ty) → seen_tested t s ≡ spec.exchanged (L.the language.now) (seen_tested tested s)) }
{
    let Tested {
        ty: _,
        truth,
        falsehood,
    } = tested;
    Ok(Tested {
        ty: boolean_type(language)?,
        truth: falsehood,
        falsehood: truth,
    })
}
