//! Arcs, the rings that use them, and the arcs that a vertex stands in.
ghost use Rattle.std.specs.Prelude.{◌≡◌};
ghost use Rattle.arc_tables.specs.Stores.{without};

use smallvec::SmallVec;
use std::alloc::{Allocator, Global};
use vertex_index::VertexKey;

/// An arc, and whether it is gone through in reverse.
#[derive(Clone, Copy, Debug, PartialEq, Eq)]
pub struct Use {
    /// The arc's number.
    pub arc: usize,
    /// Whether it is gone through in reverse.
    pub back: bool,
}

/// A border, by the keys of its vertices, and the rings that use it.
#[derive(Clone, Drop)]
pub struct Arc<A: Allocator + Copy = Global> {
    /// The keys of its vertices, in order.
    pub keys: Vec<VertexKey, A>,
    /// The numbers of the rings that use it, each once: most arcs are of one ring or two.
    pub rings: SmallVec<usize, 2>,
}

/// A ring, by its uses of arcs.
#[derive(Clone, Drop)]
pub struct Ring<A: Allocator + Copy = Global> {
    /// Its uses of arcs, in order.
    pub uses: Vec<Use, A>,
}

/// The arcs that a vertex stands in.
#[derive(Clone, Drop)]
pub struct Stand {
    /// Their numbers, and perhaps those of others: nearly all vertices stand in one arc, and in two
    /// while an arc is cut.
    pub arcs: SmallVec<usize, 2>,
}

/// New uses of a ring.
#[derive(Drop)]
pub(crate) struct NewUses<A: Allocator + Copy = Global> {
    pub(crate) ring: usize,
    pub(crate) uses: Vec<Use, A>,
}

/// Takes a number out of a list, wherever it stands.
pub(crate) fn leave_out<const N: usize>(list: &mut SmallVec<usize, N>, n: usize)
    ensures { list.new.items ≡ without n list.old.items }
{
    list.retain(|k| *k != n);
}
