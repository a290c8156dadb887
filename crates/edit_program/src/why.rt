//! What is reported of a refused line beside its answer.
ghost use Rattle.std.specs.Prelude.{IfOk};
ghost use Rattle.edit_program.specs.Listing.{IsNoReason, TellsWhy};

use crate::reasons::{Reason, reason_of};
use crate::script_line::ScriptLine;
use edit_records::Command;
use grid_geometry::Pos;
use script_lines::{Line, LineFault, parse_line};
use std::alloc::{AllocError, Global};
use std::fmt::{Display, Formatter, Result as FmtResult, Write};

/// Why a line is a bad one, or what its refusal is about.
#[derive(Clone, Copy)]
pub(crate) enum Why {
    /// The line is a bad one, for this reason.
    Bad(Reason),
    /// The refusal is about this position.
    Position(Pos),
    /// The refusal is about what lies between these positions.
    Segment(Pos, Pos),
    /// The refusal is about the feature of this number.
    Feature(u32),
    /// The line does not tell what its refusal is about.
    Unsaid,
}

impl Display for Why {
    ghost use Rattle.std.specs.Prelude.{Some};
    ghost use Rattle.edit_program.specs.Listing.{why_text};

    ghost output = { λ why. Some (why_text why) };

    fn fmt<W: Write>(&self, f: &mut Formatter<W>) -> FmtResult {
        match self {
            Why::Bad(reason) => write!(f, "{reason}"),
            Why::Position(at) => write!(f, "{at}"),
            Why::Segment(a, b) => write!(f, "{a} {b}"),
            Why::Feature(number) => write!(f, "{number}"),
            Why::Unsaid => Ok(()),
        }
    }
}

/// The first position of a path that stands in it again.
fn repeated(path: &[Pos]) -> Option<Pos> {
    for (i, at) in path.iter().enumerate() {
        if path[i..].iter().skip(1).any(|other| other == at) {
            return Some(*at);
        }
    }
    None
}

/// What the refusal of a move is about.
fn subject_of_move(p: Pos, q: Pos, refusal: &[u8]) -> Why
    ensures { IsNoReason result }
{
    match refusal {
        b"no vertex" => Why::Position(p),
        b"occupied" => Why::Position(q),
        _ => Why::Unsaid,
    }
}

/// What the refusal of an insertion is about.
fn subject_of_insertion(a: Pos, b: Pos, q: Pos, refusal: &[u8]) -> Why
    ensures { IsNoReason result }
{
    match refusal {
        b"no segment" => Why::Segment(a, b),
        b"occupied" => Why::Position(q),
        _ => Why::Unsaid,
    }
}

/// What the refusal of a removal is about.
fn subject_of_removal(p: Pos, refusal: &[u8]) -> Why
    ensures { IsNoReason result }
{
    match refusal {
        b"no vertex" | b"junction" | b"ring short" => Why::Position(p),
        _ => Why::Unsaid,
    }
}

/// What the refusal of a merge is about.
fn subject_of_merge(f: u32, refusal: &[u8]) -> Why
    ensures { IsNoReason result }
{
    match refusal {
        b"same feature" => Why::Feature(f),
        _ => Why::Unsaid,
    }
}

/// What the refusal of a line that names one feature is about.
fn subject_of_feature(f: u32, refusal: &[u8]) -> Why
    ensures { IsNoReason result }
{
    match refusal {
        b"no feature" | b"no collection" => Why::Feature(f),
        _ => Why::Unsaid,
    }
}

/// What the refusal of a split is about.
fn subject_of_split(f: u32, path: &[Pos], refusal: &[u8]) -> Why
    ensures { IsNoReason result }
{
    match refusal {
        b"repeated point" => match repeated(path) {
            Some(at) => Why::Position(at),
            None => Why::Unsaid,
        },
        _ => subject_of_feature(f, refusal),
    }
}

/// What the refusal of an edit or a query is about.
fn subject_of_command(command: &Command, refusal: &[u8]) -> Why
    ensures { IsNoReason result }
{
    match command {
        Command::Move(p, q) => subject_of_move(*p, *q, refusal),
        Command::Insert(a, b, q) => subject_of_insertion(*a, *b, *q, refusal),
        Command::Remove(p) => subject_of_removal(*p, refusal),
        Command::Split(f, _, path) => subject_of_split(*f, path.0.as_slice(), refusal),
        Command::Merge(f, _) => subject_of_merge(*f, refusal),
        Command::Rename(f, _) | Command::Delete(f) | Command::Area(f) | Command::Neighbours(f) =>
            subject_of_feature(*f, refusal),
        _ => Why::Unsaid,
    }
}

/// What the refusal of a line is about.
fn subject_of(said: &Line, answer: &[u8]) -> Why
    ensures { IsNoReason result }
{
    match (said, answer.strip_prefix(b"refused ")) {
        (Line::Edit(command), Some(refusal)) => subject_of_command(command, refusal),
        (Line::Rings(f), Some(b"no feature")) => Why::Feature(*f),
        _ => Why::Unsaid,
    }
}

/// What is reported of a line with this answer: a reason exactly of a bad line.
pub(crate) fn why_of(heap: Global, line: &ScriptLine, answer: &[u8]) -> Result<Why, AllocError>
    ensures { IfOk result (TellsWhy line.now) }
{
    if line.is_over {
        return Ok(Why::Bad(Reason::TooLong));
    }
    let text = line.text();
    match parse_line(heap, text) {
        Ok(said) => Ok(subject_of(&said, answer)),
        Err(LineFault::BadLine) => Ok(Why::Bad(reason_of(text))),
        Err(LineFault::OutOfMemory) => Err(AllocError),
    }
}
