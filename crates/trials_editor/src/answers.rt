//! Lines that tests give to an editor, and what it answers.
ghost use Rattle.std.specs.Prelude.{IfSome, IsTrue};
ghost use Rattle.edit_records.specs.Commands.{IsSound};

use crate::maps::Heap;
use arc_store::EditFault;
use grid_geometry::Seg;
use script_lines::{Line, parse_line};
use std::alloc::Global;
use undo_ring::{Answer, Command};

/// What is wanted of a line.
#[derive(Clone, Copy)]
pub(crate) enum Wanted {
    Done,
    Thinned(u64),
    Made(u32),
    Area(i128),
    At(&'static [u32], &'static [u32]),
    Neighbours(&'static [u32]),
    /// The refusal's words.
    Refused(&'static str),
    /// The ends of the two segments in conflict.
    Conflict([i64; 4], [i64; 4]),
}

/// Whether a line is answered as is wanted.
#[derive(Clone, Copy)]
pub(crate) enum Said {
    Wanted,
    NoMemory,
    Other,
}

impl Said {
    /// Whether it is as is wanted.
    pub(crate) fn is_wanted(self) -> bool {
        matches!(self, Said::Wanted)
    }
}

/// Whether the path of a split has from 2 to 256 positions, as each has that a line gives.
fn is_sound(command: &Command) -> bool
    ensures { IsTrue result → IsSound command.now }
{
    if let Command::Split(_, _, path) = command {
        let count = path.0.len();
        return 2 <= count && count <= 256;
    }
    true
}

/// The command, where it is sound.
fn sound(command: Command) -> Option<Command>
    ensures { IfSome result IsSound }
{
    if is_sound(&command) {
        Some(command)
    } else {
        drop(command);
        None
    }
}

/// The command of a line; none where it is no command.
pub(crate) fn command_of(alloc: Global, line: &str) -> Option<Command>
    ensures { IfSome result IsSound }
{
    match parse_line(alloc, line.as_bytes()) {
        Ok(Line::Edit(command)) => sound(command),
        _ => None,
    }
}

/// Whether the segment has these ends.
fn has_ends(s: &Seg, ends: &[i64; 4]) -> bool {
    [s.lo.x(), s.lo.y(), s.hi.x(), s.hi.y()] == *ends
}

/// Whether this answer is wanted.
fn is_wanted(answer: &Answer<Heap<'_>>, wanted: &Wanted) -> bool {
    match wanted {
        Wanted::Done => matches!(answer, Answer::Done),
        Wanted::Thinned(n) => matches!(answer, Answer::Thinned(m) if m == n),
        Wanted::Made(n) => matches!(answer, Answer::Made(m) if m == n),
        Wanted::Area(n) => matches!(answer, Answer::Area(m) if m == n),
        Wanted::At(inside, border) => match answer {
            Answer::At(at) => {
                at.inside.0.as_slice() == *inside && at.border.0.as_slice() == *border
            }
            _ => false,
        },
        Wanted::Neighbours(ns) =>
            matches!(answer, Answer::Neighbours(ms) if ms.0.as_slice() == *ns),
        _ => false,
    }
}

/// The words of a refusal, of those that tests want.
fn words_of(fault: &EditFault) -> &'static str {
    match fault {
        EditFault::NoFeature => "no feature",
        EditFault::NoVertex => "no vertex",
        EditFault::NoCollection => "no collection",
        EditFault::RingShort => "ring short",
        EditFault::WrongSide => "wrong side",
        EditFault::NotOnePolygon => "not one polygon",
        EditFault::NotNeighbours => "not neighbours",
        EditFault::Sweeps => "sweeps",
        _ => "another one",
    }
}

/// Whether this refusal is wanted.
fn is_wanted_refusal(fault: &EditFault, wanted: &Wanted) -> bool {
    match wanted {
        Wanted::Refused(words) => words_of(fault) == *words,
        Wanted::Conflict(p, q) => match fault {
            EditFault::Conflict { s, t } => has_ends(s, p) && has_ends(t, q),
            _ => false,
        },
        _ => false,
    }
}

/// What an answer is where this one is wanted.
pub(crate) fn said_of(answer: &Result<Answer<Heap<'_>>, EditFault>, wanted: &Wanted) -> Said {
    let is_wanted = match answer {
        Ok(answer) => is_wanted(answer, wanted),
        Err(EditFault::OutOfMemory) => return Said::NoMemory,
        Err(fault) => is_wanted_refusal(fault, wanted),
    };
    if is_wanted { Said::Wanted } else { Said::Other }
}
