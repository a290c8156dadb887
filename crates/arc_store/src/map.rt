use crate::edit_record::Record;
use local_planarity::TestCount;
use map_frame::Frame;
use ring_store::RingTables;
use segment_index::SegIndex;
use std::alloc::{Allocator, Global};
use std::marker::Model;

/// A map of shared borders, in which no two segments conflict. It is seen as its document, the
/// number of the next new feature, the places of the numbers below it, how many tests the last edit
/// made, the frame of the cells of its index, and what takes the last edit back. The index always
/// holds exactly the segments of its document.
#[derive(Drop)]
pub struct Map<'a, I: SegIndex, A: Allocator + Copy = Global> {
    pub(crate) frame: Frame<'a, A>,
    pub(crate) rings: RingTables<I, A>,
    pub(crate) tests: TestCount,
    /// How many positions the rings have, each ring counted for itself.
    pub(crate) positions: usize,
    /// What takes the last edit back, until it is handed out.
    pub(crate) last: Option<Record<'a, A>>,
}

impl<'a, I: SegIndex, A: Allocator + Copy> Model for Map<'a, I, A> {
    ghost use Rattle.std.specs.Prelude.{option_map};
    ghost use Rattle.arc_store.specs.Recorded.{record_seen};
    ghost use Rattle.arc_store.specs.State.{State};

    ghost Value = { State };

    ghost use Rattle.arc_store.specs.Kept.{state_of, IsKept};

    ghost view = { λ m. state_of m.frame m.rings.borders m.rings.vertices m.tests m.rings.index.cells
        (option_map record_seen m.last) };

    ghost invariant = { λ m.
        IsKept m.frame m.rings.borders m.rings.vertices m.rings.index.held m.positions };
}
