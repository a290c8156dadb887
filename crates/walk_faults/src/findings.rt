// What is found in a map of walks.
ghost use Rattle.std.specs.Prelude.{◌≡◌, ◌≤◌, ◌<◌, ◌↔◌, ◌++◌, ◌∷◌, [], length, IsTrue, IfErr, OnOk};
ghost use Rattle.walk_faults.specs.Findings.{OnlyIfMany};
ghost use Rattle.walk_faults.specs.Opens.{IsNothing};

use grid_geometry::{Pos, Seg};
use std::alloc::{AllocError, Allocator, Global};
use topo_outline::RingAt;

/// A position that a walk passes more than once.
#[derive(Clone, Copy, Debug, PartialEq, Eq)]
pub struct Repeat {
    /// Where the walk stands in the map.
    pub ring: RingAt,
    /// The position.
    pub pos: Pos,
}

/// A vertex on a segment of which it is no end.
#[derive(Clone, Copy, Debug, PartialEq, Eq)]
pub struct Touch {
    /// The vertex.
    pub pos: Pos,
    /// The segment on which it lies.
    pub segment: Seg,
}

/// Two segments that cross.
#[derive(Clone, Copy, Debug, PartialEq, Eq)]
pub struct Crossing {
    /// The lesser segment.
    pub first: Seg,
    /// The greater segment.
    pub second: Seg,
}

/// What keeps a map of walks from being one of linear rings (RFC 7946, 3.1.6) whose segments meet
/// in common ends alone. It is one of such rings exactly where all four lists are empty.
#[derive(Drop)]
pub struct Findings<A: Allocator + Copy = Global> {
    /// The walks of fewer than three positions, in the order of the map.
    pub short: Vec<RingAt, A>,
    /// The positions that a walk passes more than once: in the order of the walks, and ascending in
    /// each walk, each once.
    pub repeats: Vec<Repeat, A>,
    /// Each vertex on a segment of which it is no end: ascending by the vertex, then by the
    /// segment, each once.
    pub touches: Vec<Touch, A>,
    /// Each pair of segments that cross: ascending by the first, then by the second, each once.
    pub crossings: Vec<Crossing, A>,
}

impl<A: Allocator + Copy> Findings<A> {
    /// Whether nothing was found: the map is one of linear rings whose segments meet in common ends
    /// alone.
    pub fn is_empty(&self) -> bool
        ensures { IsTrue result ↔ IsNothing self.now }
    {
        self.short.is_empty()
            && self.repeats.is_empty()
            && self.touches.is_empty()
            && self.crossings.is_empty()
    }
}

/// Why not all is listed.
#[derive(Clone, Copy, Debug, PartialEq, Eq)]
pub enum FindFault {
    /// Of one kind there are more than are listed.
    TooMany,
    /// Memory was refused.
    OutOfMemory,
}

impl From<AllocError> for FindFault {
    ghost use Rattle.std.specs.Prelude.{◌≡◌};
    ghost use Rattle.walk_faults.specs.declared.findings.FindFault.TheVariants.{OutOfMemory};

    ghost from_gives = { λ _ e. e ≡ OutOfMemory };

    fn from(_e: AllocError) -> FindFault {
        FindFault::OutOfMemory
    }
}

/// Appends one element to a list, unless it has `most` elements.
pub(crate) fn push_at_most<T: Drop, A: Allocator>(
    out: &mut Vec<T, A>,
    x: T,
    most: usize,
) -> Result<(), FindFault>
    ensures pushed { OnOk result (out.new.items ≡ out.old.items ++ x ∷ []) }
    ensures room { OnOk result (length out.old.items < most) }
    ensures fault { IfErr result (OnlyIfMany (most ≤ length out.old.items)) }
{
    if out.len() >= most {
        return Err(FindFault::TooMany);
    }
    out.push(x).map_err(|_| FindFault::OutOfMemory)
}
