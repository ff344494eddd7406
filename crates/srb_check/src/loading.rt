ghost use Rattle.std.specs.Prelude.{◌≡◌, ◌≤◌, length, IfOk};
ghost use Rattle.srb_namer.specs.Facts.{summ_of};
ghost use Rattle.srb_check.specs.Records as spec;
ghost use Rattle.srb_check.specs.Levels.{LARGEST_FILE, hides_all};
ghost use Rattle.srb_check.specs.declared.reading.Reading.TheVariants as reading;

use crate::errors::{not_utf8, too_large};
use crate::file::FileRec;
use crate::reading::{Reading, read};
use rb_lex::{Lexer, level};
use rb_rewrite::attrs;
use rb_tree::syntax::Tree;
use srb_namer::facts;
use srb_summary::Summary;
use srb_terms::{Diag, Level};
use srb_text::{Text, TextFault};
use std::alloc::{AllocError, Global};

/// The most bytes of a file that is checked.
const LARGEST_FILE: usize = 1_048_576;

/// Whether a level hides every error.
fn hides_all(level: Level) -> bool
    ensures { result ≡ hides_all level }
{
    match level {
        Level::Ignore => true,
        Level::False | Level::True | Level::Strict | Level::Strong => false,
    }
}

/// The record of a file that is not read as a text.
fn unread(alloc: Global, error: Diag) -> Result<FileRec, AllocError>
    ensures { IfOk result (λ f. f ≡ spec.unread error) }
{
    let summary = Summary::empty(alloc)?;
    Ok(FileRec {
        text: None,
        level: Level::False,
        error: Some(error),
        tree: None,
        summary,
    })
}

/// The record of a text that is hidden by its level.
fn hidden(alloc: Global, text: Text, level: Level) -> Result<FileRec, AllocError>
    ensures { IfOk result (λ f. f ≡ spec.hidden text level) }
{
    let summary = Summary::empty(alloc)?;
    Ok(FileRec {
        text: Some(text),
        level,
        error: None,
        tree: None,
        summary,
    })
}

/// The record of a text at this level that is refused.
fn refused(alloc: Global, text: Text, level: Level, error: Diag) -> Result<FileRec, AllocError>
    ensures { IfOk result (λ f. f ≡ spec.read_record text level (reading.Refused error)) }
{
    let summary = Summary::empty(alloc)?;
    Ok(FileRec {
        text: Some(text),
        level,
        error: Some(error),
        tree: None,
        summary,
    })
}

/// The facts of a program, after the rewriting of its attributes and initializers.
fn summary_of(alloc: Global, tree: &Tree) -> Result<Summary, AllocError>
    ensures { IfOk result (λ s. s ≡ summ_of tree.now) }
{
    let rewritten = attrs(alloc, tree)?;
    let facts = facts(alloc, &rewritten)?;
    Summary::of(alloc, facts)
}

/// The record of a text at this level that has this tree.
fn program(alloc: Global, text: Text, level: Level, tree: Tree) -> Result<FileRec, AllocError>
    ensures { IfOk result (λ f. f ≡ spec.read_record text level (reading.Program tree)) }
{
    let summary = summary_of(alloc, &tree)?;
    Ok(FileRec {
        text: Some(text),
        level,
        error: None,
        tree: Some(tree),
        summary,
    })
}

/// The record of a text at this level that is read to this.
fn read_record(
    alloc: Global,
    text: Text,
    level: Level,
    reading: Reading,
) -> Result<FileRec, AllocError>
    ensures { IfOk result (λ f. f ≡ spec.read_record text level reading) }
{
    match reading {
        Reading::Refused { error } => refused(alloc, text, level, error),
        Reading::Program { tree } => program(alloc, text, level, tree),
    }
}

/// The record of a text at this level.
fn text_record(
    alloc: Global,
    lexer: &mut Lexer,
    text: Text,
    level: Level,
) -> Result<FileRec, AllocError>
    ensures { IfOk result (λ f. f ≡ spec.text_record text level) }
{
    if hides_all(level) {
        return hidden(alloc, text, level);
    }
    let reading = read(alloc, lexer, &text)?;
    read_record(alloc, text, level, reading)
}

/// The record of a file that isn't too large.
fn load_small(alloc: Global, lexer: &mut Lexer, bytes: &[u8]) -> Result<FileRec, AllocError>
    requires { length bytes.now ≤ LARGEST_FILE }
    ensures { IfOk result (λ f. f ≡ spec.loaded bytes.now) }
{
    match Text::from_bytes(alloc, bytes) {
        Ok(text) => {
            let level = level(&text);
            text_record(alloc, lexer, text, level)
        }
        Err(TextFault::NotUtf8 { .. }) => unread(alloc, not_utf8(alloc)?),
        Err(TextFault::NoMemory) => Err(AllocError),
    }
}

/// Loads a file, as `load` does. The lexer's room is used.
pub(crate) fn load_by(alloc: Global, lexer: &mut Lexer, bytes: &[u8]) -> Result<FileRec, AllocError>
    ensures { IfOk result (λ f. f ≡ spec.loaded bytes.now) }
{
    if bytes.len() > LARGEST_FILE {
        unread(alloc, too_large(alloc)?)
    } else {
        load_small(alloc, lexer, bytes)
    }
}

/// Loads a file. It never refuses bytes: what is wrong with them is kept as the file's error.
pub fn load(alloc: Global, bytes: &[u8]) -> Result<FileRec, AllocError>
    ensures { IfOk result (λ f. f ≡ spec.loaded bytes.now) }
{
    load_by(alloc, &mut Lexer::new(alloc), bytes)
}
