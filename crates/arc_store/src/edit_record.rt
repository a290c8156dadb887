// What takes an edit back.
use feature_exchange::Change;
use grid_geometry::Pos;
use map_frame::Id;
use ring_store::Removal;
use std::alloc::{Allocator, Global};

/// What an edit changed: with it the map can be given the document that it had before.
#[derive(Drop)]
pub enum Record<'a, A: Allocator + Copy = Global> {
    /// A vertex moved.
    Moved { from: Pos, to: Pos },
    /// A vertex came to stand here.
    Inserted(Pos),
    /// A vertex was left out.
    Removed(Removal),
    /// Vertices were left out, in this order.
    Thinned(Vec<Removal, A>),
    /// A feature was given another id, and had this one, or none.
    Renamed { number: u32, id: Id<'a, A> },
    /// These numbers had these features, or none.
    Exchanged(Vec<Change<'a, A>, A>),
}
