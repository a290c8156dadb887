use grid_geometry::Seg;
use ring_store::RingTables;
use segment_index::SegIndex;
use std::alloc::Allocator;

/// Rings that were laid: their tables, their numbers, and what was found on the way.
#[derive(Drop)]
pub struct OpenedRings<I: SegIndex, A: Allocator + Copy> {
    /// The tables that the rings stand in.
    pub tables: RingTables<I, A>,
    /// The number of each ring, in order.
    pub numbers: Vec<usize, A>,
    /// The least pair of segments in conflict.
    pub first: Option<(Seg, Seg)>,
    /// How many positions the rings have, each ring counted for itself.
    pub positions: usize,
}
