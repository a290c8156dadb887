//! What a line of a script asks, and the text that it is read from.
ghost use Rattle.std.specs.Prelude.{◌≡◌, ◌≤◌, length};
ghost use Rattle.script_lines.specs.Lines.{without_return};

use edit_records::Command;
use std::alloc::AllocError;

/// What a line of a script asks.
#[derive(Debug, Drop)]
pub enum Line {
    /// An empty line, or a comment that begins with `#`.
    Skip,
    /// `rings f`: the positions of a feature's rings, by polygon and ring.
    Rings(u32),
    /// `count`: how many features, vertices and segments there are.
    Count,
    /// `undo`: the newest change is taken back.
    Undo,
    /// Any other edit or query.
    Edit(Command),
    /// `document`: the text of the map.
    Document,
}

/// Why a line is not taken.
#[derive(Clone, Copy, Debug, PartialEq, Eq)]
pub enum LineFault {
    /// The line is no command, or it is over a limit or not UTF-8.
    BadLine,
    /// There was no memory for an id or a path.
    OutOfMemory,
}

impl From<AllocError> for LineFault {
    ghost use Rattle.std.specs.Prelude.{◌≡◌};
    ghost use Rattle.script_lines.specs.declared.lines.LineFault.TheVariants as fault;

    ghost from_gives = { λ _ e. e ≡ fault.OutOfMemory };

    fn from(_e: AllocError) -> LineFault {
        LineFault::OutOfMemory
    }
}

/// The text of a line whose line feed has come: its bytes without one carriage return at their end.
pub fn without_return(line: &[u8]) -> &[u8]
    ensures text { result.now ≡ without_return line.now }
    ensures within { length result.now ≤ length line.now }
{
    match line.strip_suffix(b"\r") {
        Some(front) => front,
        None => line,
    }
}
