// The topology as it is read.
use grid_geometry::Pos;
use std::alloc::{Allocator, Global};
use topo_outline::{KeptMember, Layers};

/// A topology that was read: its layers as they stand in the text, and its rings.
///
/// The features are numbered from 0 in the order of the text.
#[derive(Drop)]
#[derive_where(Debug)]
pub struct RawDoc<'a, A: Allocator + Copy = Global> {
    /// The text of the transform, and none where it is missing or `null` (TopoJSON 1.0, 2.1.2).
    pub transform: Option<&'a [u8]>,
    /// The members of `objects` in order, by the texts that their names stand for (TopoJSON 1.0, 2.1.5).
    pub layers: Layers<'a, A>,
    /// The members that are neither known nor a `bbox`, in order.
    pub members: Vec<KeptMember<'a>, A>,
    /// By feature the polygons, each an outer ring and its holes (RFC 7946, 3.1.6). A ring begins at
    /// its least position, and does not repeat it at its end. Where walks were read, they stand in the
    /// place of rings, each begun where its first arc is.
    pub polygons: Vec<Vec<Vec<Vec<Pos, A>, A>, A>, A>,
}
