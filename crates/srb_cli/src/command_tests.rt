use crate::command::{Command, command_of};
use std::alloc::{AllocError, Global};
use std::test::Fail;

/// Words, each line of them with blanks between, and what they ask for: `-` for nothing.
const WORDS: [(&str, &str); 50] = [
    ("text", "text"),
    ("text x", "-"),
    ("Text", "-"),
    ("--text", "-"),
    ("tc app", "tc app"),
    ("tc .", "tc ."),
    ("tc", "-"),
    ("tc -", "-"),
    ("tc -app", "-"),
    ("tc app lib", "-"),
    ("tc --workers 2 app", "-"),
    ("lsp app", "lsp app 2"),
    ("lsp", "-"),
    ("lsp -", "-"),
    ("lsp app lib", "-"),
    ("lsp app --workers 0", "lsp app 0"),
    ("lsp app --workers 16", "lsp app 16"),
    ("lsp app --workers 17", "-"),
    ("lsp app --workers 0016", "lsp app 16"),
    ("lsp app --workers 00016", "-"),
    ("lsp app --workers 1x", "-"),
    ("lsp app --workers -1", "-"),
    ("lsp app --workers", "-"),
    ("lsp --workers 3 app", "lsp app 3"),
    ("lsp --workers 3", "-"),
    ("lsp --workers app", "-"),
    ("lsp --workers=3 app", "lsp app 3"),
    ("lsp app --workers=3", "lsp app 3"),
    ("lsp --workers=0016 app", "lsp app 16"),
    ("lsp --workers=17 app", "-"),
    ("lsp --workers= app", "-"),
    ("lsp --workers=3", "-"),
    ("lsp --worker=3 app", "-"),
    ("lsp app --workers 1 --workers 1", "-"),
    ("lsp --workers=1 --workers=1 app", "-"),
    ("lsp app -- --workers 1", "-"),
    ("lsp -- app", "-"),
    ("gen 1", "gen 1"),
    ("gen 1000", "gen 1000"),
    ("gen 0300", "gen 300"),
    ("gen 0", "-"),
    ("gen 1001", "-"),
    ("gen", "-"),
    ("gen x", "-"),
    ("gen 1 2", "-"),
    ("help", "-"),
    ("--help", "-"),
    ("-h", "-"),
    ("version", "-"),
    ("text tc app", "-"),
];

/// The words of a line.
fn words_of(alloc: Global, line: &str) -> Result<Vec<String>, AllocError> {
    let mut words = Vec::new(alloc);
    for word in line.split(' ') {
        words.push(String::from_str(alloc, word)?)?;
    }
    Ok(words)
}

/// What the words ask for, as the table has it.
fn asked(alloc: Global, words: &[String]) -> Result<String, AllocError> {
    match command_of(words) {
        Some(Command::Text) => String::from_str(alloc, "text"),
        Some(Command::Check(dir)) => format!(in alloc; "tc {dir}"),
        Some(Command::Serve(dir, workers)) => format!(in alloc; "lsp {dir} {workers}"),
        Some(Command::Generate(count)) => format!(in alloc; "gen {count}"),
        None => String::from_str(alloc, "-"),
    }
}

#[test]
fn words_are_commands_or_none(rt: HostRuntime) -> Result<(), Fail> {
    for (line, want) in WORDS {
        let words = words_of(rt.alloc(), line)?;
        let said = asked(rt.alloc(), words.as_slice())?;
        assert!(rt; said.as_str() == want, "{line}");
    }
    Ok(())
}

#[test]
fn no_words_and_an_empty_word_are_no_command(rt: HostRuntime) -> Result<(), Fail> {
    let none: Vec<String> = Vec::new(rt.alloc());
    assert!(rt; command_of(none.as_slice()).is_none());
    let mut words = words_of(rt.alloc(), "tc")?;
    words.push(String::from_str(rt.alloc(), "")?)?;
    assert!(rt; command_of(words.as_slice()).is_none());
    Ok(())
}
