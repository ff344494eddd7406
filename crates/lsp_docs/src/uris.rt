//! Roots and URIs (RFC 3986): the root of a session, the URI of a path below it, and the path that a URI names.
ghost use Rattle.std.specs.Prelude.{◌≡◌, ◌-◌, ◌≤◌, ◌==◌, ◌++◌, length, take, drop, position, slice_index, IfOk};
ghost use Rattle.std.specs.Option.{option_copied};
ghost use Rattle.lsp_docs.specs.Uris.{COLON, root_of, ruby_after, trimmed, without_slashes, uri_below, path_below};

use percent_encoding::{AsciiSet, NON_ALPHANUMERIC, ascii_set, percent_decode, percent_encode};
use srb_terms::{Name, NoMemory, Words};
use std::alloc::Global;

/// The bytes that are escaped in a URI: all but letters, digits and `-._~/`.
const ESCAPED: AsciiSet = ascii_set!(
    NON_ALPHANUMERIC
        .remove(b'-')
        .remove(b'.')
        .remove(b'_')
        .remove(b'~')
        .remove(b'/')
);

const NO_ROOT: &str = "file://";

/// The root of a session where the client names this one.
pub fn root_of(alloc: Global, named: Option<&Words>) -> Result<Words, NoMemory>
    ensures { IfOk result (λ root. root ≡ root_of (option_copied named.entry)) }
{
    match named {
        Some(uri) => Words::from_str(alloc, trimmed(uri.as_str())),
        None => Words::from_str(alloc, NO_ROOT),
    }
}

// The URI without the slashes at its end, of which two that stand directly after the first colon stay.
fn trimmed(uri: &str) -> &str
    ensures { result.now ≡ trimmed uri.now }
{
    let bytes = uri.as_bytes();
    let kept = kept_len(bytes);
    let mut end = bytes.len();
    while kept < end && bytes[end - 1] == b'/' {
        end -= 1;
    }
    &uri[..end]
}

// The length of the front that stays: up to the first colon, and two slashes that stand directly after it.
fn kept_len(uri: &[u8]) -> usize
    ensures bound { result ≤ length uri.now }
    ensures trimmed { trimmed uri.now ≡ take result uri.now ++ without_slashes (drop result uri.now) }
{
    let Some(colon) = first_colon(uri) else {
        return 0;
    };
    if uri[colon + 1..].starts_with(b"//") {
        colon + 3
    } else {
        colon + 1
    }
}

fn first_colon(uri: &[u8]) -> Option<usize>
    ensures { result ≡ position (λ byte. byte == COLON) uri.now }
{
    uri.iter().position(|byte| *byte == b':')
}

/// The URI of a path below a root.
pub fn uri_below(alloc: Global, root: &str, path: &Name) -> Result<Words, NoMemory>
    ensures { IfOk result (λ uri. uri ≡ uri_below root.now path.now) }
{
    let mut uri = String::from_str(alloc, root)?;
    uri.push('/')?;
    percent_encode(path.as_bytes(), ESCAPED).append_to(&mut uri)?;
    Words::from_string(uri)
}

/// The path that a URI names below a root. `None` exactly where it names none.
pub fn path_below(alloc: Global, root: &str, uri: &str) -> Result<Option<Name>, NoMemory>
    ensures { IfOk result (λ path. path ≡ path_below root.now uri.now) }
{
    let mut front = Vec::new(alloc);
    percent_decode(root.as_bytes()).append_to(&mut front)?;
    front.push(b'/')?;
    let mut bytes = Vec::new(alloc);
    percent_decode(uri.as_bytes()).append_to(&mut bytes)?;
    let Ok(text) = std::str::from_utf8(bytes.as_slice()) else {
        return Ok(None);
    };
    match ruby_after(front.as_slice(), text) {
        Some(path) => Ok(Some(Name::from_str(alloc, path)?)),
        None => Ok(None),
    }
}

// What stands in the text after this front, if it ends in `.rb`.
fn ruby_after<'a>(front: &[u8], text: &'a str) -> Option<&'a str>
    requires { slice_index front.now (length front.now - 1) ≡ 47 }
    ensures { option_copied result ≡ ruby_after front.now text.now }
{
    let (before, after) = text.split_at_checked(front.len())?;
    if before.as_bytes() == front && after.as_bytes().ends_with(b".rb") {
        Some(after)
    } else {
        None
    }
}
