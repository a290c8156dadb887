//! What a table of vertices keeps of one.
use grid_geometry::Pos;

/// The position of a vertex, and where that stands among the positions of the index.
#[derive(Clone, Copy)]
pub(crate) struct Slot {
    pub(crate) pos: Pos,
    pub(crate) place: usize,
}
