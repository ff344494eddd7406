//! What holds of paths and their URIs. Each law is the contract of a function that does nothing.

ghost use Rattle.std.specs.Prelude.{◌≡◌, ℕ, List, IsUtf8, IsTrue, Some};
ghost use Rattle.percent_encoding.specs.Percent.{percent_decode};
ghost use Rattle.lsp_docs.specs.Paths.{Path};
ghost use Rattle.lsp_docs.specs.Uris.{ends_in_rb, uri_below, path_below};

/// The URI that is written for a path names that path, where the path is a text that ends in `.rb` and the root's decoded
/// bytes are a text.
pub fn each_path_is_read_back()
    ensures { (root : List ℕ) (path : Path) → IsUtf8 (percent_decode root) → IsUtf8 path → IsTrue (ends_in_rb path) → path_below root (uri_below root path) ≡ Some path }
{}

/// No two paths have one URI.
pub fn no_two_paths_have_one_uri()
    ensures { (root : List ℕ) (path other : Path) → uri_below root path ≡ uri_below root other → path ≡ other }
{}
