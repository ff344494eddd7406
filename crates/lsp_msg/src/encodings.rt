//! Position encodings by their names.
ghost use Rattle.std.specs.Prelude.{◌≡◌};
ghost use Rattle.lsp_msg.specs.Encodings.{chosen, encoding_name, encoding_named};

use srb_terms::Words;
use srb_text::Encoding;

/// The name of an encoding (LSP 3.17, "PositionEncodingKind").
pub fn encoding_name(encoding: Encoding) -> &'static str
    ensures { result.now ≡ encoding_name encoding }
{
    match encoding {
        Encoding::Utf8 => "utf-8",
        Encoding::Utf16 => "utf-16",
        Encoding::Utf32 => "utf-32",
    }
}

fn encoding_named(name: &str) -> Option<Encoding>
    ensures { result ≡ encoding_named name.now }
{
    if name == "utf-8" {
        Some(Encoding::Utf8)
    } else if name == "utf-16" {
        Some(Encoding::Utf16)
    } else if name == "utf-32" {
        Some(Encoding::Utf32)
    } else {
        None
    }
}

/// The encoding that is taken where a client lists these names, the ones that it prefers first: that of the first
/// name which is of one, and UTF-16 where there is none.
pub fn chosen_encoding(names: &[Words]) -> Encoding
    ensures { result ≡ chosen names.now }
{
    'names: for name in names {
        if let Some(encoding) = encoding_named(name.as_str()) {
            return encoding;
        }
    }
    Encoding::Utf16
}
