// The positions of a path.
ghost use Rattle.std.specs.Prelude.{IfOk};
ghost use Rattle.script_lines.specs.Commands.{Finds};
ghost use Rattle.script_lines.specs.Words.{IsPathTail};

use crate::words::spaced_position;
use edit_records::Path;
use std::alloc::{AllocError, Global};

/// The least number of positions of a path.
const MIN_PATH: usize = 2;

/// The most positions of a path.
const MAX_PATH: usize = 256;

/// The path that the bytes are, where they are one and no more.
pub(crate) fn read_path(heap: Global, bytes: &[u8]) -> Result<Option<Path>, AllocError>
    ensures { IfOk result (λ found. Finds found (IsPathTail bytes.now)) }
{
    let mut path = Vec::new(heap);
    let mut rest = bytes;
    while let Some(place) = spaced_position(rest) {
        if path.len() == MAX_PATH {
            return Ok(None);
        }
        path.push(place.0)?;
        rest = place.1;
    }
    if rest.is_empty() && MIN_PATH <= path.len() {
        Ok(Some(Path(path)))
    } else {
        Ok(None)
    }
}
