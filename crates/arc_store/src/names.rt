ghost use Rattle.std.specs.Prelude.{◌≡◌, ℕ, [], length, unwrap_or, Some, Contains, IsTrue, OnOk};
ghost use Rattle.grid_geometry.specs.Common.{edges, segment};
ghost use Rattle.ring_machine.specs.Common.{is_segment};
ghost use Rattle.map_frame.specs.Common.{number_at, frame_ring};
ghost use Rattle.map_frame.specs.declared.names.RingName.{RingName};
ghost use Rattle.arc_store.specs.Named.{ListsNames, ListsRings};
ghost use Rattle.arc_store.specs.Spots.{users};
ghost use Rattle.arc_store.specs.Users.{ListsRingNames};

use crate::map::Map;
use grid_geometry::{Pos, Seg};
use map_frame::{Frame, RingName};
use segment_index::SegIndex;
use std::alloc::{AllocError, Allocator};

/// Appends the names of the rings with these numbers, in order. Fails only on allocation failure.
fn push_names<'a, A: Allocator + Copy, B: Allocator>(
    frame: &Frame<'a, A>,
    numbers: &[usize],
    out: &mut Vec<RingName, B>,
) -> Result<(), AllocError>
    requires { (r : ℕ) → Contains numbers.now r
        → (name : RingName) × (number_at frame.now.doc name ≡ Some r) }
    ensures { OnOk result (ListsNames frame.now.doc numbers.now out.old.items out.new.items) }
{
    for r in numbers {
        if let Some(name) = frame.name_of(*r) {
            out.push(name)?;
        }
    }
    Ok(())
}

impl<'a, I: SegIndex, A: Allocator + Copy> Map<'a, I, A> {
    /// How many rings have this segment.
    pub fn uses(&self, s: Seg) -> usize
        ensures { result ≡ length (users self.now.doc s) }
    {
        let Some(a) = self.rings.vertices.key_of(s.lo) else {
            return 0;
        };
        match self.rings.vertices.key_beside(a, s.hi) {
            Some(b) => self.rings.borders.uses(a, b),
            None => 0,
        }
    }

    /// Appends the rings that have the segment of these two positions, each once. Fails only on
    /// allocation failure; some of them may then have been appended.
    pub fn push_users<B: Allocator>(
        &self,
        a: Pos,
        b: Pos,
        out: &mut Vec<RingName, B>,
    ) -> Result<(), AllocError>
        ensures { OnOk result (ListsRings self.now.doc (segment a b) out.old.items out.new.items) }
    {
        let Some(a) = self.rings.vertices.key_of(a) else {
            return Ok(());
        };
        let Some(b) = self.rings.vertices.key_beside(a, b) else {
            return Ok(());
        };
        let mut numbers = Vec::new(self.rings.alloc);
        self.rings.borders.push_users(a, b, &mut numbers)?;
        push_names(&self.frame, numbers.as_slice(), out)?;
        Ok(())
    }

    /// Appends the rings that have this segment of the map, each once. Fails only on allocation
    /// failure; some of them may then have been appended.
    pub fn push_rings_of<B: Allocator>(
        &self,
        s: Seg,
        out: &mut Vec<RingName, B>,
    ) -> Result<(), AllocError>
        requires { IsTrue (is_segment self.now.doc s) }
        ensures { OnOk result (ListsRings self.now.doc (segment s.lo s.hi) out.old.items out.new.items) }
    {
        let Some(a) = self.rings.vertices.key_of(s.lo) else {
            return Ok(());
        };
        match self.rings.borders.users_around(a) {
            Some(numbers) => push_names(&self.frame, numbers, out),
            None => self.push_users(s.lo, s.hi, out),
        }
    }

    /// Appends the rings that have a segment in common with this ring: of the feature with this number
    /// the polygon, and of that the ring, where the outer ring is the first one, each counted from 0.
    /// It is itself among them, and a ring may come several times; where there is no such ring nothing
    /// is appended. Reads the arcs of the ring alone. Fails only on allocation failure; some of the
    /// rings may then have been appended.
    pub fn push_sharing<B: Allocator>(
        &self,
        feature: u32,
        polygon: usize,
        ring: usize,
        out: &mut Vec<RingName, B>,
    ) -> Result<(), AllocError>
        ensures { OnOk result (ListsRingNames self.now.doc
            (edges (unwrap_or (frame_ring self.now.doc feature polygon ring) []))
            out.old.items out.new.items) }
    {
        let Some(number) = self.frame.ring(feature, polygon, ring) else {
            return Ok(());
        };
        let mut numbers = Vec::new(self.rings.alloc);
        self.rings.borders.push_sharing(number, &mut numbers)?;
        push_names(&self.frame, numbers.as_slice(), out)?;
        Ok(())
    }
}
