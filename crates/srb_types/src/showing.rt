//! The text that a type is shown as.

ghost use Rattle.std.specs.Prelude.{◌≡◌, [], ◌∷◌, ◌++◌, map, string_bytes, IfOk, OnOk, if◌then◌else◌};
ghost use Rattle.srb_terms.specs.NameSets.{has_name};
ghost use Rattle.srb_types.specs.Shown as spec;

use crate::order::put;
use srb_terms::{NoMemory, Ty, Words};
use std::alloc::Global;

// The text with others after it, each after a comma.
fn commas_after(so_far: String, texts: &[Words]) -> Result<String, NoMemory>
    ensures { IfOk result (λ s. string_bytes s ≡ spec.commas_after (string_bytes so_far) texts.now) }
{
    let mut text = so_far;
    'texts: for t in texts {
        text.push_str(", ")?;
        text.push_str(t.as_str())?;
    }
    Ok(text)
}

// The text with something after it.
fn ended(so_far: String, end: &str) -> Result<Words, NoMemory>
    ensures { IfOk result (λ words. words ≡ string_bytes so_far ++ end.now) }
{
    let mut text = so_far;
    text.push_str(end)?;
    Words::from_string(text)
}

// Two texts.
fn joined(alloc: Global, start: &str, rest: &str) -> Result<String, NoMemory>
    ensures { IfOk result (λ s. string_bytes s ≡ start.now ++ rest.now) }
{
    let mut text = String::from_str(alloc, start)?;
    text.push_str(rest)?;
    Ok(text)
}

// A text between a start and an end.
fn around(alloc: Global, start: &str, inner: &str, end: &str) -> Result<Words, NoMemory>
    ensures { IfOk result (λ words. words ≡ start.now ++ inner.now ++ end.now) }
{
    ended(joined(alloc, start, inner)?, end)
}

// Texts between commas, after a start and before a bracket.
fn listed(alloc: Global, start: &str, texts: &[Words]) -> Result<Words, NoMemory>
    ensures { IfOk result (λ words. words ≡ spec.listed start.now texts.now) }
{
    match texts {
        [] => ended(String::from_str(alloc, start)?, ")"),
        [first, rest @ ..] => {
            let text = joined(alloc, start, first.as_str())?;
            ended(commas_after(text, rest)?, ")")
        }
    }
}

// Whether a text stands among others.
fn has(texts: &[Words], name: &str) -> bool
    ensures { result ≡ has_name name.now texts.now }
{
    'texts: for t in texts {
        if t.as_str() == name {
            return true;
        }
    }
    false
}

// Adds a text where it is to be kept.
fn push_if(keep: bool, texts: &mut Vec<Words>, t: &Words) -> Result<(), NoMemory>
    ensures { OnOk result (texts.new.items ≡ (if keep then texts.old.items ++ t.now ∷ [] else texts.old.items)) }
{
    if keep {
        texts.push(t.copied()?)?;
    }
    Ok(())
}

// The texts but for those that are this one.
fn all_but(alloc: Global, name: &str, texts: &[Words]) -> Result<Vec<Words>, NoMemory>
    ensures { IfOk result (λ ts. ts.items ≡ spec.all_but name.now texts.now) }
{
    let mut rest = Vec::new(alloc);
    'texts: for t in texts {
        push_if(t.as_str() != name, &mut rest, t)?;
    }
    Ok(rest)
}

// Both booleans as one text.
fn with_boolean(alloc: Global, texts: Vec<Words>) -> Result<Vec<Words>, NoMemory>
    ensures { IfOk result (λ ts. ts.items ≡ spec.with_boolean texts.items) }
{
    if has(texts.as_slice(), "TrueClass") && has(texts.as_slice(), "FalseClass") {
        let rest = all_but(alloc, "FalseClass", texts.as_slice())?;
        let mut rest = all_but(alloc, "TrueClass", rest.as_slice())?;
        put(&mut rest, Words::from_str(alloc, "T::Boolean")?)?;
        Ok(rest)
    } else {
        Ok(texts)
    }
}

// No part, one part, or several.
fn any_text(alloc: Global, texts: &[Words]) -> Result<Words, NoMemory>
    ensures { IfOk result (λ words. words ≡ spec.any_text texts.now) }
{
    match texts {
        [] => Words::from_str(alloc, "T.noreturn"),
        [t] => t.copied(),
        _ => listed(alloc, "T.any(", texts),
    }
}

// The text of a union with `NilClass` and these others.
fn nilable_text(alloc: Global, texts: &[Words]) -> Result<Words, NoMemory>
    ensures { IfOk result (λ words. words ≡ spec.nilable_text texts.now) }
{
    if texts.is_empty() {
        Words::from_str(alloc, "NilClass")
    } else {
        let rest = any_text(alloc, texts)?;
        around(alloc, "T.nilable(", rest.as_str(), ")")
    }
}

// The text of a union whose parts have these texts, in order.
fn ordered_text(alloc: Global, texts: Vec<Words>) -> Result<Words, NoMemory>
    ensures { IfOk result (λ words. words ≡ spec.ordered_text texts.items) }
{
    let nilable = has(texts.as_slice(), "NilClass");
    let texts = with_boolean(alloc, texts)?;
    if nilable {
        let rest = all_but(alloc, "NilClass", texts.as_slice())?;
        nilable_text(alloc, rest.as_slice())
    } else {
        any_text(alloc, texts.as_slice())
    }
}

fn hash_text(alloc: Global, key: &Words, value: &Words) -> Result<Words, NoMemory>
    ensures { IfOk result (λ words. words ≡ spec.hash_text key.now value.now) }
{
    let mut text = joined(alloc, "T::Hash[", key.as_str())?;
    text.push_str(", ")?;
    text.push_str(value.as_str())?;
    ended(text, "]")
}

/// The text that a type is shown as. Classes share the text of their name. Its depth bounds the recursion.
#[cycle(shows)]
#[tactic(auto, unfolding(crate::specs::Shown::shown))]
pub fn show(alloc: Global, t: &Ty) -> Result<Words, NoMemory>
    ensures { IfOk result (λ words. words ≡ spec.shown t.now) }
{
    match t {
        Ty::Untyped => Words::from_str(alloc, "T.untyped"),
        Ty::Never => Words::from_str(alloc, "T.noreturn"),
        Ty::Class(name) => name.to_words(),
        Ty::Meta(name) => around(alloc, "T.class_of(", name.as_str(), ")"),
        Ty::Arr(element) => {
            let element = show(alloc, element.get())?;
            around(alloc, "T::Array[", element.as_str(), "]")
        }
        Ty::Hsh(key, value) => {
            let key = show(alloc, key.get())?;
            let value = show(alloc, value.get())?;
            hash_text(alloc, &key, &value)
        }
        Ty::Any(parts) => ordered_text(alloc, ordered(alloc, parts.get().as_slice())?),
        Ty::All(members) => {
            let members = each(alloc, members.get().as_slice())?;
            listed(alloc, "T.all(", members.as_slice())
        }
    }
}

// The texts of parts, in order.
#[cycle(shows)]
fn ordered(alloc: Global, parts: &[Ty]) -> Result<Vec<Words>, NoMemory>
    ensures { IfOk result (λ ts. ts.items ≡ spec.ordered_after [] (map spec.shown parts.now)) }
{
    let mut texts = Vec::new(alloc);
    'parts: for part in parts {
        put(&mut texts, show(alloc, part)?)?;
    }
    Ok(texts)
}

// The texts of members.
#[cycle(shows)]
fn each(alloc: Global, members: &[Ty]) -> Result<Vec<Words>, NoMemory>
    ensures { IfOk result (λ ts. ts.items ≡ map spec.shown members.now) }
{
    let mut texts = Vec::new(alloc);
    'members: for member in members {
        texts.push(show(alloc, member)?)?;
    }
    Ok(texts)
}
