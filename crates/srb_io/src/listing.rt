ghost use Rattle.std.specs.Prelude.{◌≡◌, List, ℕ, IfOk, map, string_bytes};
ghost use Rattle.srb_io.specs.Files.{AreInOrder, ends_in_rb, is_among};

use std::alloc::AllocError;

/// Whether the path ends in `.rb`.
pub fn is_ruby(path: &str) -> bool
    ensures { result ≡ ends_in_rb path.now }
{
    let bytes = path.as_bytes();
    let from = bytes.len().saturating_sub(3);
    &bytes[from..] == b".rb".as_slice()
}

/// These paths in byte order, each once.
pub fn in_order(mut paths: Vec<String>) -> Result<Vec<String>, AllocError>
    ensures ordered { IfOk result (λ ordered. AreInOrder (map string_bytes ordered.items)) }
    ensures same { IfOk result (λ ordered. (path : List ℕ) → is_among path (map string_bytes ordered.items) ≡ is_among path (map string_bytes paths.items)) }
{
    paths.sort()?;
    paths.dedup();
    Ok(paths)
}
