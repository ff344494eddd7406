//! Texts that are cut at marks. A mark is an ASCII character.

ghost use Rattle.std.specs.Prelude.{◌≡◌, ◌<◌, [], ◌∷◌, length, IfSome, MatchOption, option_map};
ghost use Rattle.srb_builtin.specs.Marks as spec;

/// What stands before the first `mark`; the whole text, if there is none.
pub fn before(text: &str, mark: char) -> &str
    requires { mark < 128 }
    ensures { result.now ≡ spec.before mark text.now }
{
    match text.split_once(mark) {
        Some((before, _)) => before,
        None => text,
    }
}

/// What stands after the first `mark`; nothing, if there is none.
pub fn after(text: &str, mark: char) -> &str
    requires { mark < 128 }
    ensures { result.now ≡ spec.after mark text.now }
{
    match text.split_once(mark) {
        Some((_, after)) => after,
        None => "",
    }
}

/// What follows the `mark` with which the text begins. `None` exactly where it begins with none.
pub fn past(text: &str, mark: char) -> Option<&str>
    requires { mark < 128 }
    ensures { option_map (λ rest. rest.now) result ≡ spec.past mark text.now }
{
    text.strip_prefix(mark)
}

/// The first of the parts between such marks, and what stands after its mark. `None` exactly where there is no mark.
pub fn cut(text: &str, mark: char) -> Option<(&str, &str)>
    requires { mark < 128 }
    ensures parts { MatchOption result
        (spec.parts mark text.now ≡ text.now ∷ [])
        (λ found. spec.parts mark text.now ≡ found.0.now ∷ spec.parts mark found.1.now) }
    ensures shorter { IfSome result (λ found. length found.1.now < length text.now) }
{
    text.split_once(mark)
}

/// What stands in the brackets with which a text begins; nothing, if it begins with none.
pub fn inside(text: &str, opening: char, closing: char) -> &str
    requires opening { opening < 128 }
    requires closing { closing < 128 }
    ensures { result.now ≡ spec.inside opening closing text.now }
{
    match past(text, opening) {
        Some(rest) => before(rest, closing),
        None => "",
    }
}

/// A text without the blank with which it begins.
pub fn unblanked(text: &str) -> &str
    ensures { result.now ≡ spec.unblanked text.now }
{
    match past(text, ' ') {
        Some(rest) => rest,
        None => text,
    }
}

/// What follows the brackets with which a text begins, and a blank; the text itself, if it begins with none.
pub fn outside(text: &str, opening: char, closing: char) -> &str
    requires opening { opening < 128 }
    requires closing { closing < 128 }
    ensures { result.now ≡ spec.outside opening closing text.now }
{
    match past(text, opening) {
        Some(rest) => unblanked(after(rest, closing)),
        None => text,
    }
}
