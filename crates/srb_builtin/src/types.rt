//! The types of the table's texts.

ghost use Rattle.std.specs.Prelude.{◌≡◌, IfOk};
ghost use Rattle.srb_builtin.specs.Types as spec;

use crate::marks::{after, before};
use crate::outlines::{constant, t_array, t_boolean, t_hash, t_nilable, t_word};
use srb_terms::{NoMemory, Outline};
use std::alloc::Global;

// The name of the constant for a word: that of a letter, or the word itself.
fn constant_name(word: &str) -> &str
    ensures { result.now ≡ spec.constant_name word.now }
{
    if word == "E" {
        "%E"
    } else if word == "K" {
        "%K"
    } else if word == "V" {
        "%V"
    } else if word == "B" {
        "%B"
    } else if word == "N" {
        "%N"
    } else if word == "self" {
        "%self"
    } else if word == "E without NilClass" {
        "%C"
    } else {
        word
    }
}

// The type of a word.
fn word_type(alloc: Global, word: &str) -> Result<Outline, NoMemory>
    ensures { IfOk result (λ o. o ≡ spec.word_type word.now) }
{
    if word == "u" {
        t_word(alloc, "untyped")
    } else if word == "T.noreturn" {
        t_word(alloc, "noreturn")
    } else if word == "b" {
        t_boolean(alloc)
    } else {
        constant(alloc, constant_name(word))
    }
}

// The word with which a text begins.
fn first_word(text: &str) -> &str
    ensures { result.now ≡ spec.first_word text.now }
{
    before(before(before(text, ','), ']'), ')')
}

// The type with which a text begins, of brackets at most as deep as the number says.
#[tactic(auto, using(crate::proofs::Steps::within_step))]
fn type_within(alloc: Global, depth: usize, text: &str) -> Result<Outline, NoMemory>
    ensures { IfOk result (λ o. o ≡ spec.type_within depth text.now) }
{
    if depth == 0 {
        return word_type(alloc, first_word(text));
    }
    if before(text, '(') == "T.nilable" {
        return t_nilable(alloc, type_within(alloc, depth - 1, after(text, '('))?);
    }
    let head = before(text, '[');
    let inner = after(text, '[');
    if head == "T::Array" {
        t_array(alloc, type_within(alloc, depth - 1, inner)?)
    } else if head == "T::Hash" {
        let key = type_within(alloc, depth - 1, inner)?;
        t_hash(alloc, key, type_within(alloc, depth - 1, after(text, ','))?)
    } else {
        word_type(alloc, first_word(text))
    }
}

/// The type with which a text begins; what follows it doesn't matter.
#[tactic(auto, unfolding(crate::specs::Types::type_in))]
pub fn type_in(alloc: Global, text: &str) -> Result<Outline, NoMemory>
    ensures { IfOk result (λ o. o ≡ spec.type_in text.now) }
{
    type_within(alloc, 2, text)
}
