// Borders as runs along straight lines, wherever their vertices are.
ghost use Rattle.std.specs.Prelude.{◌≤ℤ◌, pos};

use crate::quotients::quotient;
use crate::segments::segments;
use crate::shapes::Shape;
use grid_geometry::{Pos, Seg};
use std::alloc::{AllocError, Allocator};

/// A straight line of the grid: its direction in the least whole steps, and which of the parallel ones
/// it is.
#[derive(Clone, Copy, PartialEq, Eq, PartialOrd, Ord)]
struct Line {
    right: i64,
    up: i64,
    offset: i128,
}

/// A part of a line, from its lesser end to its greater.
#[derive(Clone, Copy, PartialEq, Eq, PartialOrd, Ord)]
pub struct Run {
    line: Line,
    /// Its lesser end.
    pub from: Pos,
    /// Its greater end.
    pub to: Pos,
}

/// The greatest number that is in both a whole number of times, and at least 1. Both are below 2^63, for
/// which a hundred steps are enough.
fn common_divisor(one: u64, other: u64) -> i64
    ensures { pos 1 ≤ℤ result }
{
    let (mut one, mut other) = (one, other);
    for _step in 0..100u8 {
        if other == 0 {
            break;
        }
        (one, other) = (other, one % other);
    }
    i64::try_from(one).unwrap_or(1).max(1)
}

impl Line {
    /// The line that a segment lies on.
    fn of(segment: &Seg) -> Line {
        let right = segment.hi.x() - segment.lo.x();
        let up = segment.hi.y() - segment.lo.y();
        let step = common_divisor(right.unsigned_abs(), up.unsigned_abs());
        let (right, up) = (quotient(right, step), quotient(up, step));
        let one = i128::from(right).saturating_mul(i128::from(segment.lo.y()));
        let other = i128::from(up).saturating_mul(i128::from(segment.lo.x()));
        Line {
            right,
            up,
            offset: one.saturating_sub(other),
        }
    }
}

/// The runs that segments are, ascending.
fn sorted_runs<A: Allocator + Copy>(alloc: A, segments: &[Seg]) -> Result<Vec<Run, A>, AllocError> {
    let mut runs = Vec::new(alloc);
    for segment in segments {
        runs.push(Run {
            line: Line::of(segment),
            from: segment.lo,
            to: segment.hi,
        })?;
    }
    runs.sort_unstable();
    Ok(runs)
}

/// Appends the longest runs that parts make up, which ascend.
fn push_runs<A: Allocator>(runs: &mut Vec<Run, A>, parts: &[Run]) -> Result<(), AllocError> {
    let mut open: Option<Run> = None;
    for part in parts {
        open = match open {
            Some(run) if run.line == part.line && part.from <= run.to => Some(Run {
                to: run.to.max(part.to),
                ..run
            }),
            Some(run) => {
                runs.push(run)?;
                Some(*part)
            }
            None => Some(*part),
        };
    }
    if let Some(run) = open {
        runs.push(run)?;
    }
    Ok(())
}

/// The longest runs that segments make up, ascending.
pub(crate) fn runs<A: Allocator + Copy>(
    alloc: A,
    segments: &[Seg],
) -> Result<Vec<Run, A>, AllocError> {
    let parts = sorted_runs(alloc, segments)?;
    let mut runs = Vec::new(alloc);
    push_runs(&mut runs, parts.as_slice())?;
    Ok(runs)
}

/// Appends the parts of a run that none of the others covers. The others are the longest ones, ascending.
fn push_uncovered<A: Allocator>(
    uncovered: &mut Vec<Run, A>,
    run: &Run,
    others: &[Run],
) -> Result<(), AllocError> {
    let mut from = run.from;
    for other in others {
        if other.line != run.line || run.to <= other.from {
            break;
        }
        if from < other.from {
            uncovered.push(Run {
                from,
                to: other.from,
                ..*run
            })?;
        }
        from = from.max(other.to);
    }
    if from < run.to {
        uncovered.push(Run { from, ..*run })?;
    }
    Ok(())
}

/// The parts of runs that none of the others covers. Both are the longest ones, ascending.
pub(crate) fn uncovered<A: Allocator + Copy>(
    alloc: A,
    runs: &[Run],
    others: &[Run],
) -> Result<Vec<Run, A>, AllocError> {
    let mut uncovered = Vec::new(alloc);
    for run in runs {
        let start = others.partition_point(|other| (other.line, other.to) <= (run.line, run.from));
        let rest = others.get(start..).unwrap_or(&[]);
        push_uncovered(&mut uncovered, run, rest)?;
    }
    Ok(uncovered)
}

/// The longest runs that the borders of features are, ascending.
fn borders<A: Allocator + Copy>(
    alloc: A,
    shapes: &[Shape<'_, A>],
) -> Result<Vec<Run, A>, AllocError> {
    let segments = segments(alloc, shapes)?;
    runs(alloc, segments.as_slice())
}

/// The parts of the borders of features that lie on none of the borders of the others, wherever their
/// vertices are.
pub fn borders_beyond<A: Allocator + Copy>(
    alloc: A,
    these: &[Shape<'_, A>],
    others: &[Shape<'_, A>],
) -> Result<Vec<Run, A>, AllocError> {
    let these = borders(alloc, these)?;
    let others = borders(alloc, others)?;
    uncovered(alloc, these.as_slice(), others.as_slice())
}
