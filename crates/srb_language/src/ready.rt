//! Types that are asked often, made once.

ghost use Rattle.std.specs.Prelude.{◌≡◌, codes, IfOk};
ghost use Rattle.srb_shapes.specs.Lineages.{lineage_at};
ghost use Rattle.srb_types.specs.Normal.{any_of};
ghost use Rattle.srb_judgement.specs.Views.{class_name};
ghost use Rattle.srb_language.specs.Ready.{AreReady, AreValues, AreWords, IsBoolean, class, has_falsy, has_truthy};

use crate::same::is_same_union;
use crate::types::is_never;
use srb_judgement::built_in::BuiltIn;
use srb_terms::{Name, NoMemory, Ty, World};
use srb_types::{any, meet, without};
use std::alloc::Global;

/// The classes of literals and of exceptions.
#[derive(Drop)]
pub struct Values {
    pub integer: Ty,
    pub float: Ty,
    pub string: Ty,
    pub symbol: Ty,
    pub error: Ty,
}

/// `Object`, and the classes of `nil`, `true` and `false`.
#[derive(Drop)]
pub struct Words {
    pub object: Ty,
    pub nil: Ty,
    pub true_class: Ty,
    pub false_class: Ty,
}

/// `T::Boolean`, and what it has.
#[derive(Drop)]
pub struct Boolean {
    pub ty: Ty,
    /// Whether it has a part beside `NilClass` and `FalseClass`.
    pub has_truthy: bool,
    /// Whether it has a part of them.
    pub has_falsy: bool,
}

/// The types that the rules name.
#[derive(Drop)]
pub struct Ready {
    pub words: Words,
    pub values: Values,
    pub boolean: Boolean,
    /// `T.any` of `NilClass` and `FalseClass`.
    pub nil_or_false: Ty,
}

/// The class of a name.
fn class(alloc: Global, name: &str) -> Result<Ty, NoMemory>
    ensures { IfOk result (λ t. t ≡ class name.now) }
{
    Ok(Ty::Class(Name::from_str(alloc, name)?))
}

/// The classes of literals and of exceptions.
fn all_values(alloc: Global) -> Result<Values, NoMemory>
    ensures { IfOk result (λ v. AreValues v) }
{
    Ok(Values {
        integer: class(alloc, "Integer")?,
        float: class(alloc, "Float")?,
        string: class(alloc, "String")?,
        symbol: class(alloc, "Symbol")?,
        error: class(alloc, "StandardError")?,
    })
}

/// `Object`, and the classes of `nil`, `true` and `false`.
fn all_words(alloc: Global) -> Result<Words, NoMemory>
    ensures { IfOk result (λ w. AreWords w) }
{
    Ok(Words {
        object: class(alloc, "Object")?,
        nil: class(alloc, "NilClass")?,
        true_class: class(alloc, "TrueClass")?,
        false_class: class(alloc, "FalseClass")?,
    })
}

/// Whether a type has a part beside `NilClass` and `FalseClass`.
fn has_truthy(alloc: Global, w: &World, words: &Words, t: &Ty) -> Result<bool, NoMemory>
    ensures { AreWords words.now → IfOk result (λ b. b ≡ has_truthy (lineage_at w.now) t.now) }
{
    let some = without(alloc, w, t, &words.nil)?;
    let rest = without(alloc, w, &some, &words.false_class)?;
    Ok(!is_never(&rest))
}

/// Whether a type has a part of `NilClass` and `FalseClass`, by the `T.any` of these.
fn has_falsy(alloc: Global, w: &World, nil_or_false: &Ty, t: &Ty) -> Result<bool, NoMemory>
    ensures { nil_or_false.now ≡ any_of (lineage_at w.now) (class (codes "NilClass")) (class (codes "FalseClass")) → IfOk result (λ b. b ≡ has_falsy (lineage_at w.now) t.now) }
{
    let met = meet(alloc, w, t, nil_or_false)?;
    Ok(!is_never(&met))
}

/// `T::Boolean`, and what it has.
fn make_boolean(
    alloc: Global,
    w: &World,
    words: &Words,
    nil_or_false: &Ty,
) -> Result<Boolean, NoMemory>
    ensures { AreWords words.now → nil_or_false.now ≡ any_of (lineage_at w.now) (class (codes "NilClass")) (class (codes "FalseClass")) → IfOk result (λ b. IsBoolean (lineage_at w.now) b) }
{
    let ty = any(alloc, w, &words.true_class, &words.false_class)?;
    let has_truthy = has_truthy(alloc, w, words, &ty)?;
    let has_falsy = has_falsy(alloc, w, nil_or_false, &ty)?;
    Ok(Boolean {
        ty,
        has_truthy,
        has_falsy,
    })
}

/// The types with these classes.
fn with_classes(alloc: Global, w: &World, words: Words, values: Values) -> Result<Ready, NoMemory>
    ensures { AreWords words → AreValues values → IfOk result (λ r. AreReady (lineage_at w.now) r) }
{
    let nil_or_false = any(alloc, w, &words.nil, &words.false_class)?;
    let boolean = make_boolean(alloc, w, &words, &nil_or_false)?;
    Ok(Ready {
        words,
        values,
        boolean,
        nil_or_false,
    })
}

/// The types that the rules name, by the linearizations of the table.
pub fn make_ready(alloc: Global, w: &World) -> Result<Ready, NoMemory>
    ensures { IfOk result (λ r. AreReady (lineage_at w.now) r) }
{
    with_classes(alloc, w, all_words(alloc)?, all_values(alloc)?)
}

/// One of the classes.
pub fn built_in(ready: &Ready, which: BuiltIn) -> &Ty
    ensures { AreWords ready.now.words → AreValues ready.now.values → result.now ≡ class (class_name which) }
{
    match which {
        BuiltIn::Object => &ready.words.object,
        BuiltIn::NilClass => &ready.words.nil,
        BuiltIn::TrueClass => &ready.words.true_class,
        BuiltIn::FalseClass => &ready.words.false_class,
        BuiltIn::Integer => &ready.values.integer,
        BuiltIn::Float => &ready.values.float,
        BuiltIn::String => &ready.values.string,
        BuiltIn::Symbol => &ready.values.symbol,
        BuiltIn::StandardError => &ready.values.error,
    }
}

/// Whether a type has a part beside `NilClass` and `FalseClass`. Of `T::Boolean` it is kept ready, since most conditions have this type.
pub fn can_be_truthy(alloc: Global, w: &World, ready: &Ready, t: &Ty) -> Result<bool, NoMemory>
    ensures { AreReady (lineage_at w.now) ready.now → IfOk result (λ b. b ≡ has_truthy (lineage_at w.now) t.now) }
{
    if is_same_union(t, &ready.boolean.ty) {
        Ok(ready.boolean.has_truthy)
    } else {
        has_truthy(alloc, w, &ready.words, t)
    }
}

/// Whether a type has a part of `NilClass` and `FalseClass`. Of `T::Boolean` it is kept ready as well.
pub fn can_be_falsy(alloc: Global, w: &World, ready: &Ready, t: &Ty) -> Result<bool, NoMemory>
    ensures { AreReady (lineage_at w.now) ready.now → IfOk result (λ b. b ≡ has_falsy (lineage_at w.now) t.now) }
{
    if is_same_union(t, &ready.boolean.ty) {
        Ok(ready.boolean.has_falsy)
    } else {
        has_falsy(alloc, w, &ready.nil_or_false, t)
    }
}
