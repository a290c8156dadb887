//! Texts that words of a program have, as the paths of files.
ghost use Rattle.std.specs.Prelude.{◌≡◌, ◌≢◌, Some, option_map, string_bytes, IfOk, MatchBool};

use std::alloc::{AllocError, Global};

/// A copy of a text, where there is one.
pub fn copied(alloc: Global, given: Option<&str>) -> Result<Option<String>, AllocError>
    ensures { IfOk result (λ copy.
        option_map string_bytes copy ≡ option_map (λ text. text.now) given.entry) }
{
    match given {
        Some(text) => {
            let copy = String::from_str(alloc, text)?;
            Ok(Some(copy))
        }
        None => Ok(None),
    }
}

/// Whether a file is given, and is another one: their paths are the same text.
pub fn is_file(given: Option<&str>, other: &str) -> bool
    ensures { MatchBool result
        (option_map (λ text. text.now) given.entry ≡ Some other.now)
        (option_map (λ text. text.now) given.entry ≢ Some other.now) }
{
    match given {
        Some(path) => path == other,
        None => false,
    }
}
