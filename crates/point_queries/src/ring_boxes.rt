ghost use Rattle.std.specs.Prelude.{◌≡◌, ◌≤◌, ◌∷◌, true, List, length};
ghost use Rattle.std.specs.Prelude.{Contains, IsTrue, IfOk, OnOk};
ghost use Rattle.std.specs.FinSet as set;
ghost use Rattle.grid_geometry.specs.Common.{Position, Segment};
ghost use Rattle.ring_machine.specs.Common.{is_distinct};
ghost use Rattle.segment_index.specs.Common.{AreAmong, has};
ghost use Rattle.point_queries.specs.Covering.{is_within_diagonal, IsBoxAround, IsCovered, KeepsCovered};
ghost use Rattle.point_queries.specs.Held.{AreBoxesOf, IsWidened, StaysHeld};

use crate::diagonal::{around, box_at, diagonal_of, lies_in, widened};
use grid_geometry::{Pos, Rect, Seg};
use segment_index::{SegIndex, TreeIndex};
use std::alloc::{AllocError, Allocator, Global};
use std::marker::Model;

/// The boxes of the rings of a map, found by a position that they have. A box is kept by its
/// diagonal, from its least x and y to its greatest. Boxes only come: that of a ring that went
/// stays, since all that is promised is that each ring lies in one of them. It is seen as the set
/// of the diagonals.
#[derive(Drop)]
pub struct RingBoxes<A: Allocator + Copy = Global> {
    alloc: A,
    index: TreeIndex<A>,
}

impl<A: Allocator + Copy> Model for RingBoxes<A> {
    ghost use Rattle.std.specs.FinSet as set;
    ghost use Rattle.segment_index.specs.Candidates.{SegmentSet, segment_code};

    ghost Value = { SegmentSet };

    ghost coded = { set.code segment_code };

    ghost view = { λ a. a.index };
}

impl<A: Allocator + Copy> RingBoxes<A> {
    /// No boxes yet. It takes no memory yet.
    pub fn new(alloc: A) -> Self
        ensures { result ≡ set.empty }
    {
        Self {
            alloc,
            index: TreeIndex::new(alloc, None),
        }
    }

    /// No boxes yet, and cells for about so many in an extent; no answer depends on these.
    pub fn over(alloc: A, extent: Option<Rect>, count: usize) -> Result<Self, AllocError>
        ensures { IfOk result (λ boxes. boxes ≡ set.empty) }
    {
        let mut index = TreeIndex::new(alloc, extent);
        index.prepare(count)?;
        Ok(Self { alloc, index })
    }

    /// Adds the box of a ring, unless it is held already. Fails only on allocation failure; each ring
    /// that lay in a box then still does.
    pub fn add(&mut self, ring: &[Pos]) -> Result<(), AllocError>
        requires some { 2 ≤ length ring.now }
        requires distinct { IsTrue (is_distinct ring.now) }
        ensures covered { OnOk result (IsCovered self.new ring.now) }
        ensures keeps { KeepsCovered self.old self.new }
    {
        self.hold(diagonal_of(ring))
    }

    /// Adds to each box that has p, and not q, the least box that has all of it, and q. Fails only on
    /// allocation failure; some of these boxes may then have come, and each ring that lay in a box
    /// still does.
    pub fn grow(&mut self, p: Pos, q: Pos) -> Result<(), AllocError>
        ensures grown { OnOk result ((ring : List Position) → IsCovered self.old ring
            → Contains ring p → IsCovered self.new (q ∷ ring)) }
        ensures keeps { KeepsCovered self.old self.new }
    {
        let near = self.boxes_of(p)?;
        self.widen_all(near.as_slice(), q)
    }

    /// The least box that has a position and the boxes that it lies in. Fails only on allocation
    /// failure.
    pub fn around(&self, p: Pos) -> Result<Rect, AllocError>
        ensures { IfOk result (λ rect. IsBoxAround self.now p rect) }
    {
        let near = self.boxes_of(p)?;
        Ok(around(p, near.as_slice()))
    }

    /// The same boxes once more, in memory of the same allocator.
    pub fn copy(&self) -> Result<Self, AllocError>
        ensures { IfOk result (λ r. r ≡ self.now) }
    {
        let index = self.index.copy()?;
        Ok(Self {
            alloc: self.alloc,
            index,
        })
    }

    /// The boxes that a position lies in.
    fn boxes_of(&self, p: Pos) -> Result<Vec<Seg, A>, AllocError>
        ensures { IfOk result (λ near. AreBoxesOf self.now p near.items) }
    {
        let mut near = Vec::new(self.alloc);
        self.index.candidates(box_at(p), &mut near)?;
        Ok(near)
    }

    /// Whether a box is held.
    fn holds(&self, d: Seg) -> Result<bool, AllocError>
        ensures { IfOk result (λ held. held ≡ set.contains self.now d) }
    {
        let near = self.boxes_of(d.lo)?;
        Ok(near.as_slice().contains(&d))
    }

    /// Adds a box, unless it is held already.
    fn hold(&mut self, d: Seg) -> Result<(), AllocError>
        ensures held { OnOk result (set.contains self.new d ≡ true) }
        ensures stays { StaysHeld self.old self.new }
    {
        if self.holds(d)? {
            return Ok(());
        }
        self.index.add(d)
    }

    /// Adds the least box that has a held one and a position, unless that one has it.
    fn widen(&mut self, d: Seg, p: Pos) -> Result<(), AllocError>
        requires { set.contains self.old d ≡ true }
        ensures widened { OnOk result (IsWidened self.new d p) }
        ensures stays { StaysHeld self.old self.new }
    {
        if lies_in(d, p) {
            return Ok(());
        }
        self.hold(widened(d, p))
    }

    /// Adds the least box that has a held one and a position, for each of some that do not have it.
    fn widen_all(&mut self, boxes: &[Seg], p: Pos) -> Result<(), AllocError>
        requires { AreAmong self.old boxes.now }
        ensures widened { OnOk result ((d : Segment) → has boxes.now d ≡ true
            → IsWidened self.new d p) }
        ensures stays { StaysHeld self.old self.new }
    {
        for d in boxes {
            self.widen(*d, p)?;
        }
        Ok(())
    }
}
