//! What the judgement asks of types, names, type expressions and calls.

use crate::built_in::BuiltIn;
use crate::meaning::Meaning;
use crate::sent::{Answer, Arguments, GivenBlock};
use crate::signature::Signature;
use rb_tree::syntax::Tree;
use srb_terms::{Name, Names, NoMemory, ParamShape, Span, Ty, Words};
use std::alloc::Global;

/// What the judgement asks. Each answer is that of a field of the definitions' language, which `the` names.
pub trait Language {
    ghost use Rattle.std.specs.Prelude.{◌≡◌, not, IfOk};
    ghost use Rattle.std.specs.Option.{option_map, option_copied};
    ghost use Rattle.srb_terms.specs.declared.outline.Outline.{Outline};
    ghost use Rattle.srb_terms.specs.declared.ty.Ty.{Ty};
    ghost use Rattle.srb_judgement.specs.Languages.{Language as Asked};
    ghost use Rattle.srb_judgement.specs.Types.{nil_type, false_type, boolean_type, truthy, falsy};
    ghost use Rattle.srb_judgement.specs.Views.{class_name, text_in, seen_answer, seen_meaning, seen_sent, seen_signature};

    // The language of the definitions.
    ghost the: { Self → Asked Ty Outline };

    /// Whether `t` is a subtype of `u`.
    fn is_sub(&self, t: &Ty, u: &Ty) -> bool
        ensures { result ≡ (the self.now).is_sub t.now u.now };

    /// `T.any` of two types.
    fn any(&self, alloc: Global, t: &Ty, u: &Ty) -> Result<Ty, NoMemory>
        ensures { IfOk result (λ r. r ≡ (the self.now).any t.now u.now) };

    /// `T.all` of two types, but `T.untyped` meets a type in that type.
    fn meet(&self, alloc: Global, t: &Ty, u: &Ty) -> Result<Ty, NoMemory>
        ensures { IfOk result (λ r. r ≡ (the self.now).meet t.now u.now) };

    /// `t` without the parts that are subtypes of `u`. `T.untyped` stays.
    fn without(&self, alloc: Global, t: &Ty, u: &Ty) -> Result<Ty, NoMemory>
        ensures { IfOk result (λ r. r ≡ (the self.now).without t.now u.now) };

    /// `T.untyped`.
    fn untyped(&self) -> Ty
        ensures { result ≡ (the self.now).untyped };

    /// `T.noreturn`.
    fn never(&self) -> Ty
        ensures { result ≡ (the self.now).never };

    /// Whether the type is `T.noreturn`.
    fn is_never(&self, t: &Ty) -> bool
        ensures { result ≡ (the self.now).is_never t.now };

    /// Whether a value of the type can be other than `nil` and `false`: whether its `truthy` has a part.
    fn can_be_truthy(&self, alloc: Global, t: &Ty) -> Result<bool, NoMemory>
        ensures { IfOk result (λ b. b ≡ not ((the self.now).is_never (truthy (the self.now) t.now))) };

    /// Whether a value of the type can be `nil` or `false`: whether its `falsy` has a part.
    fn can_be_falsy(&self, alloc: Global, t: &Ty) -> Result<bool, NoMemory>
        ensures { IfOk result (λ b. b ≡ not ((the self.now).is_never (falsy (the self.now) t.now))) };

    /// The instances of a class or module, by its full name.
    fn instance(&self, alloc: Global, name: &Name) -> Result<Ty, NoMemory>
        ensures { IfOk result (λ r. r ≡ (the self.now).instance name.now) };

    /// The instances of a class that the rules name. It is kept ready, since it is asked often.
    fn built_in(&self, class: BuiltIn) -> &Ty
        ensures { result.now ≡ (the self.now).instance (class_name class) };

    /// `T::Boolean`, which is kept ready.
    fn boolean(&self) -> &Ty
        ensures { result.now ≡ boolean_type (the self.now) };

    /// `T.any` of `NilClass` and `FalseClass`, which is kept ready.
    fn nil_or_false(&self) -> &Ty
        ensures { result.now ≡ (the self.now).any (nil_type (the self.now)) (false_type (the self.now)) };

    /// `T.class_of` a class or module, by its full name.
    fn class_object(&self, alloc: Global, name: &Name) -> Result<Ty, NoMemory>
        ensures { IfOk result (λ r. r ≡ (the self.now).class_object name.now) };

    /// `T::Array` of a type.
    fn array(&self, alloc: Global, t: &Ty) -> Result<Ty, NoMemory>
        ensures { IfOk result (λ r. r ≡ (the self.now).array t.now) };

    /// `T::Hash` of a type of keys and a type of values.
    fn hash(&self, alloc: Global, key: &Ty, value: &Ty) -> Result<Ty, NoMemory>
        ensures { IfOk result (λ r. r ≡ (the self.now).hash key.now value.now) };

    /// The text of a type.
    fn show(&self, alloc: Global, t: &Ty) -> Result<Words, NoMemory>
        ensures { IfOk result (λ r. r ≡ (the self.now).show t.now) };

    /// What a path stands for in the bodies with these full names, the innermost first. A path that begins with `::` has an empty first
    /// name.
    fn meaning(&self, alloc: Global, scope: &Names, path: &Names) -> Result<Meaning, NoMemory>
        ensures { IfOk result (λ r. seen_meaning r ≡ (the self.now).meaning scope.now path.now) };

    /// Whether `Exception` stands in the linearization of the class.
    fn is_exception(&self, name: &Name) -> bool
        ensures { result ≡ (the self.now).is_exception name.now };

    /// The declared type of an instance variable of this class or module, or of its class object, if `meta`. `None` where none is
    /// declared.
    fn instance_variable(
        &self,
        alloc: Global,
        owner: &Name,
        meta: bool,
        name: &Name,
    ) -> Result<Option<Ty>, NoMemory>
        ensures { IfOk result (λ r. r ≡ (the self.now).instance_variable owner.now meta name.now) };

    /// The type of the type expression `text` in the bodies with these full names. `T.untyped` where a part of it is wrong.
    fn reads(&self, alloc: Global, scope: &Names, text: &Tree) -> Result<Ty, NoMemory>
        ensures { IfOk result (λ r. r ≡ (the self.now).reads scope.now (text_in (the self.now) text.now)) };

    /// The signature of a method with these parameters that a `sig` statement is. `None` where it is malformed.
    fn signature(
        &self,
        alloc: Global,
        scope: &Names,
        sig: &Tree,
        params: &[ParamShape],
    ) -> Result<Option<Signature>, NoMemory>
        ensures { IfOk result (λ r. option_map seen_signature r ≡ (the self.now).signature scope.now (text_in (the self.now) sig.now) params.now) };

    /// What the call of a method answers.
    fn call(
        &self,
        alloc: Global,
        receiver: &Ty,
        name: &Name,
        name_span: Span,
        arguments: &Arguments,
        block: Option<&GivenBlock>,
    ) -> Result<Answer, NoMemory>
        ensures { IfOk result (λ r. seen_answer r ≡ (the self.now).call (seen_sent receiver.now name.now name_span arguments.now (option_copied block.entry))) };
}
