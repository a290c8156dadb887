ghost use Rattle.std.specs.Prelude.{◌≡◌, ◌++◌, [], map, option_map, unwrap_or, IfOk, OnOk};
ghost use Rattle.ring_machine.specs.Common.{feature, is_junction};
ghost use Rattle.map_frame.specs.Common.{frame_ring, shown};

use crate::map::Map;
use feature_exchange::{meetings, push_marked_ring};
use grid_geometry::Pos;
use map_frame::{FeatureView, Frame};
use ring_store::RingTables;
use segment_index::SegIndex;
use std::alloc::{AllocError, Allocator, Global};
use std::hash::RandomState;
use std::marker::Model;

/// A map that stays as it is, with its junctions known. It is seen as its document.
#[derive(Drop)]
pub struct MarkedMap<'m, 'a, I: SegIndex, A: Allocator + Copy = Global> {
    frame: &'m Frame<'a, A>,
    rings: &'m RingTables<I, A>,
    /// Whether borders meet at each vertex, by the index of its key.
    meetings: Vec<bool, A>,
}

impl<'m, 'a, I: SegIndex, A: Allocator + Copy> Model for MarkedMap<'m, 'a, I, A> {
    ghost use Rattle.ring_machine.specs.Document.{Document};
    ghost use Rattle.feature_exchange.specs.Stored.{stored_in, stored_document};
    ghost use Rattle.arc_store.specs.Kept.{HasMeetings};

    ghost Value = { Document };

    ghost view = { λ m. stored_document (stored_in m.frame.now m.rings.now) };

    ghost invariant = { λ m. HasMeetings (stored_in m.frame.now m.rings.now) m.meetings.items };
}

impl<'m, 'a, I: SegIndex, A: Allocator + Copy> MarkedMap<'m, 'a, I, A> {
    /// The seed by which the map hashes positions.
    pub fn seed(&self) -> RandomState {
        self.rings.vertices.seed()
    }

    /// The feature with this number; `None` where no feature has it. Takes no walk and no memory.
    pub fn feature(&self, n: u32) -> Option<FeatureView<'_, 'a, A>>
        ensures { result ≡ option_map shown (feature self.now n) }
    {
        self.frame.feature(n)
    }

    /// Appends the positions of a ring, from the least one on, and for each whether borders meet there:
    /// of the feature with this number the polygon and the ring of these numbers, where the outer ring
    /// is the first one. Appends nothing where there is no such ring. Fails only on allocation failure;
    /// some of them may then have been appended.
    pub fn push_ring(
        &self,
        feature: u32,
        polygon: usize,
        ring: usize,
        positions: &mut Vec<Pos, A>,
        marks: &mut Vec<bool, A>,
    ) -> Result<(), AllocError>
        ensures positions { OnOk result (positions.new.items
            ≡ positions.old.items ++ unwrap_or (frame_ring self.now feature polygon ring) []) }
        ensures marks { OnOk result (marks.new.items ≡ marks.old.items
            ++ map (is_junction self.now) (unwrap_or (frame_ring self.now feature polygon ring) [])) }
    {
        let Some(number) = self.frame.ring(feature, polygon, ring) else {
            return Ok(());
        };
        push_marked_ring(
            self.rings,
            self.meetings.as_slice(),
            number,
            positions,
            marks,
        )?;
        Ok(())
    }
}

impl<'a, I: SegIndex, A: Allocator + Copy> Map<'a, I, A> {
    /// The map with its junctions known. Walks the borders. Fails only on allocation failure.
    pub fn marked(&self) -> Result<MarkedMap<'_, 'a, I, A>, AllocError>
        ensures { IfOk result (λ m. m ≡ self.now.doc) }
    {
        let around = self.rings.borders.all_neighbours()?;
        let meetings = meetings(self.rings.alloc, around.as_slice())?;
        Ok(MarkedMap {
            frame: &self.frame,
            rings: &self.rings,
            meetings,
        })
    }
}
