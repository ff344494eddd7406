//! Linearizations and circular references.

use srb_ancestors::LinEnd;

mod examples;
mod long;

// Whether the end names this class as the first that reaches itself.
fn names(end: &LinEnd, expected: &str) -> bool {
    match end {
        LinEnd::Circular { class } => class.as_str() == expected,
        LinEnd::NoMemory => false,
    }
}
