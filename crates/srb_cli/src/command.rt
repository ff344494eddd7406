//! The command line.

ghost use Rattle.std.specs.Prelude.{◌≡◌, ◌-◌, ◌^◌, ◌<◌, map, string_bytes};
ghost use Rattle.std.specs.Option.{option_map};
ghost use Rattle.srb_terms.specs.Statuses.{status_of};
ghost use Rattle.srb_terms.specs.declared.cause.Cause.TheVariants.{Usage};
ghost use Rattle.srb_cli.specs.Commands as spec;
ghost use Rattle.srb_cli.specs.Ends.{UsageWritten};
ghost use Rattle.srb_cli.specs.Seen.{seen};

use srb_io::{Sink, write_all};
use srb_terms::{Cause, Ended};

/// What is written where the words are no command.
const USAGE_LINE: &str = "usage: srb text | srb tc DIR | srb lsp DIR [--workers N] | srb gen N\n";

/// The most workers of a session.
const MOST_WORKERS: u16 = 16;

/// The most files of a generated project.
const MOST_GENERATED: u16 = 1000;

/// The number of workers where none is given.
pub const USUAL_WORKERS: u8 = 2;

/// What the words of a command line ask for.
#[derive(Drop)]
pub enum Command<'a> {
    /// Check what the source holds.
    Text,
    /// Check the files below a folder.
    Check(&'a str),
    /// Serve a session over the files below a folder with so many workers.
    Serve(&'a str, u8),
    /// Serve the session that is generated for so many files, and write its summary.
    Generate(u16),
}

/// Whether the word names a folder: it isn't empty and doesn't begin with `-`.
fn names_folder(word: &str) -> bool
    ensures { result ≡ spec.names_folder word.now }
{
    match word.as_bytes() {
        [] => false,
        [byte, ..] => *byte != b'-',
    }
}

/// The number of four decimal digits.
fn of_digits(a: u8, b: u8, c: u8, d: u8) -> Option<u16>
    ensures { result ≡ spec.of_digits a b c d }
{
    let digits = 48..=57;
    if digits.contains(&a) && digits.contains(&b) && digits.contains(&c) && digits.contains(&d) {
        let number = u16::from(a - 48) * 1000
            + u16::from(b - 48) * 100
            + u16::from(c - 48) * 10
            + u16::from(d - 48);
        Some(number)
    } else {
        None
    }
}

/// The number that one to four decimal digits tell.
fn number_in(word: &[u8]) -> Option<u16>
    ensures { result ≡ spec.number_in word.now }
{
    match word {
        [d] => of_digits(48, 48, 48, *d),
        [c, d] => of_digits(48, 48, *c, *d),
        [b, c, d] => of_digits(48, *b, *c, *d),
        [a, b, c, d] => of_digits(*a, *b, *c, *d),
        _ => None,
    }
}

/// The number of workers that a word tells: at most 16.
fn workers_in(word: &[u8]) -> Option<u8>
    ensures { result ≡ spec.workers_in word.now }
{
    match number_in(word) {
        Some(number) if number <= MOST_WORKERS => Some(number as u8),
        _ => None,
    }
}

/// The number of workers that one word gives, `--workers=N`.
fn workers_by(word: &str) -> Option<u8>
    ensures { result ≡ spec.workers_by word.now }
{
    let word = word.as_bytes();
    if word.starts_with(b"--workers=") {
        workers_in(&word[10..])
    } else {
        None
    }
}

/// The number of workers that two words give, `--workers N`.
fn workers_by_two(option: &str, word: &str) -> Option<u8>
    ensures { result ≡ spec.workers_by_two option.now word.now }
{
    if option == "--workers" {
        workers_in(word.as_bytes())
    } else {
        None
    }
}

/// A session over a folder with so many workers, where both are given.
fn serve(word: &str, workers: Option<u8>) -> Option<Command<'_>>
    ensures { option_map seen result ≡ spec.serve word.now workers }
{
    if !names_folder(word) {
        return None;
    }
    match workers {
        Some(workers) => Some(Command::Serve(word, workers)),
        None => None,
    }
}

/// The first command that is there.
fn or_else<'a>(first: Option<Command<'a>>, other: Option<Command<'a>>) -> Option<Command<'a>>
    ensures { option_map seen result ≡ spec.or_else (option_map seen first.entry) (option_map seen other.entry) }
{
    match first {
        Some(command) => Some(command),
        None => other,
    }
}

/// What the words after `lsp` ask for: the folder, with the option before or after it.
fn serving(words: &[String]) -> Option<Command<'_>>
    ensures { option_map seen result ≡ spec.serving (map string_bytes words.now) }
{
    match words {
        [] => None,
        [_, _, _, _, ..] => None,
        [dir] => serve(dir.as_str(), Some(USUAL_WORKERS)),
        [a, b] => or_else(
            serve(a.as_str(), workers_by(b.as_str())),
            serve(b.as_str(), workers_by(a.as_str())),
        ),
        [a, b, c] => or_else(
            serve(a.as_str(), workers_by_two(b.as_str(), c.as_str())),
            serve(c.as_str(), workers_by_two(a.as_str(), b.as_str())),
        ),
    }
}

/// What the words after `tc` ask for: the folder.
fn checking(words: &[String]) -> Option<Command<'_>>
    ensures { option_map seen result ≡ spec.checking (map string_bytes words.now) }
{
    match words {
        [dir] if names_folder(dir.as_str()) => Some(Command::Check(dir.as_str())),
        _ => None,
    }
}

/// What the words after `gen` ask for: the number of files.
fn generating(words: &[String]) -> Option<Command<'_>>
    ensures { option_map seen result ≡ spec.generating (map string_bytes words.now) }
{
    let [word] = words else {
        return None;
    };
    match number_in(word.as_str().as_bytes()) {
        Some(number) if 1 <= number && number <= MOST_GENERATED => Some(Command::Generate(number)),
        _ => None,
    }
}

/// The command that these words are, if they are one.
pub fn command_of(words: &[String]) -> Option<Command<'_>>
    ensures { option_map seen result ≡ spec.command_of (map string_bytes words.now) }
{
    let [word, words @ ..] = words else {
        return None;
    };
    match word.as_str() {
        "text" => {
            if words.is_empty() {
                Some(Command::Text)
            } else {
                None
            }
        }
        "tc" => checking(words),
        "lsp" => serving(words),
        "gen" => generating(words),
        _ => None,
    }
}

/// Writes the usage line.
pub fn usage<K: Sink>(sink: &mut K) -> Ended
    requires { K.faults sink.old < 2 ^ 64 - 1 }
    ensures status { result.status ≡ status_of result.cause }
    ensures cause { result.cause ≡ Usage }
    ensures written { UsageWritten (K.held sink.old) (K.held sink.new) (K.faults sink.old) (K.faults sink.new) }
{
    match write_all(sink, USAGE_LINE.as_bytes()) {
        Ok(()) => Ended::new(Cause::Usage),
        Err(_) => Ended::new(Cause::Usage),
    }
}
