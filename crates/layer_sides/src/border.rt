// A border of the polygons of a layer.
use grid_geometry::Seg;
use std::alloc::{Allocator, Global};

/// A border of the polygons of a layer: a segment that stands an odd number of times in the rings of
/// one of them.
#[derive(Drop)]
pub struct Border<A: Allocator + Copy = Global> {
    /// The segment.
    pub segment: Seg,
    /// The numbers of the polygons that it bounds, ascending.
    pub bounds: Vec<u32, A>,
    /// The numbers of the polygons that hold its right side, ascending.
    pub right: Vec<u32, A>,
}
