//! The arcs of a text, each border once, found by the edges that they begin and end with. Of their
//! positions nothing is kept but their text, and which rings of the map they are cut of.
ghost use Rattle.std.specs.Prelude.{◌≡◌, ◌+◌, ◌<◌, ◌≤◌, pos, negsuc, true, false, Some, OnOk, IfOk};
ghost use Rattle.std.specs.Prelude.{List, [], length};
ghost use Rattle.std.specs.List.{AllByRecursion};
ghost use Rattle.indexmap.specs.IndexMap.{get, Updates};
ghost use Rattle.grid_geometry.specs.Common.{Position};
ghost use Rattle.ring_machine.specs.Common.{edge_eq};
ghost use Rattle.topo_writer.specs.Found.{arc_found, first_edge, with_found, Fits};
ghost use Rattle.topo_writer.specs.Tables.{Finds};
ghost use Rattle.topo_writer.specs.Ways.{all_found, indexes_found, FitAll};

use crate::cutting::CutRing;
use crate::texts::{push_arc, push_comma};
use grid_geometry::Pos;
use indexmap::IndexMap;
use std::alloc::{AllocError, Allocator, Global};
use std::hash::RandomState;

/// Names a ring of a map.
#[derive(Clone, Copy)]
pub(crate) struct RingName {
    /// The number of its feature.
    pub(crate) feature: u32,
    /// The number of its polygon in that feature.
    pub(crate) polygon: usize,
    /// Its number in that polygon, in which the outer ring is the first.
    pub(crate) ring: usize,
}

/// The index of each arc under its first edge, and under its last one reversed that of the arc in
/// reverse.
type Starts<A> = IndexMap<(Pos, Pos), i64, RandomState, A>;

/// The rings of which arcs were cut, one after another, how the arcs are found, and their texts so
/// far with commas between them.
#[derive(Drop)]
pub struct Arcs<A: Allocator + Copy = Global> {
    pub(crate) rings: Vec<RingName, A>,
    pub(crate) count: usize,
    starts: Starts<A>,
    /// Whether positions are written as differences, which is where there is a transform.
    delta: bool,
    pub(crate) listed: Vec<u8, A>,
}

/// The index of an arc.
fn forward(n: usize) -> i64
    requires { n ≤ 4000000 }
    ensures { result ≡ pos n }
{
    n as i64
}

/// The index of an arc in reverse (TopoJSON 1.0, 2.1.4).
fn backward(n: usize) -> i64
    requires { n ≤ 4000000 }
    ensures { result ≡ negsuc n }
{
    -1 - n as i64
}

impl<A: Allocator + Copy> Arcs<A> {
    /// No arc, with room for texts of so many bytes; the seed by which edges are hashed, and whether
    /// positions are to be written as differences. Fails only on allocation failure.
    pub fn with_room(
        alloc: A,
        room: usize,
        seed: RandomState,
        delta: bool,
    ) -> Result<Self, AllocError>
        ensures rings { IfOk result (λ arcs. arcs.rings.items ≡ []) }
        ensures arcs { IfOk result (λ arcs. Finds arcs []) }
        ensures delta { IfOk result (λ arcs. arcs.delta ≡ delta) }
    {
        let listed = Vec::with_capacity(alloc, room)?;
        Ok(Arcs {
            rings: Vec::new(alloc),
            count: 0,
            starts: IndexMap::with_hasher(alloc, seed),
            delta,
            listed,
        })
    }

    /// The index of the arc that begins with an edge.
    fn look(&self, from: Pos, to: Pos) -> Option<i64>
        ensures { result ≡ get edge_eq self.now.starts (from, to) }
    {
        self.starts.get(&(from, to)).copied()
    }

    /// Notes the index of the arc that begins with an edge.
    fn note(&mut self, from: Pos, to: Pos, index: i64) -> Result<(), AllocError>
        ensures rings { self.new.rings ≡ self.old.rings }
        ensures count { self.new.count ≡ self.old.count }
        ensures delta { self.new.delta ≡ self.old.delta }
        ensures listed { self.new.listed ≡ self.old.listed }
        ensures updates { OnOk result
            (Updates edge_eq self.old.starts self.new.starts (from, to) (Some index)) }
    {
        self.starts.insert((from, to), index)?;
        Ok(())
    }

    /// The index of a piece: that of the arc that it is, or of the next one, which it then becomes.
    /// The text of a new arc is made here.
    fn index(&mut self, piece: &[Pos]) -> Result<i64, AllocError>
        requires long { 2 ≤ length piece.now }
        requires few { self.old.count < 4000000 }
        ensures rings { OnOk result (self.new.rings ≡ self.old.rings) }
        ensures delta { OnOk result (self.new.delta ≡ self.old.delta) }
        ensures few { OnOk result (self.new.count ≤ self.old.count + 1) }
        ensures arcs { OnOk result ((arcs : List (List Position)) → Finds self.old arcs
            → Fits arcs piece.now → Finds self.new (with_found arcs piece.now)) }
        ensures index { IfOk result (λ i. (arcs : List (List Position)) → Finds self.old arcs
            → Fits arcs piece.now
            → arc_found (with_found arcs piece.now) (first_edge piece.now) ≡ Some i) }
    {
        if let Some(index) = self.look(piece[0], piece[1]) {
            return Ok(index);
        }
        let index = forward(self.count);
        let reversed = backward(self.count);
        let n = piece.len();
        push_comma(&mut self.listed, self.count > 0)?;
        push_arc(&mut self.listed, self.delta, piece)?;
        self.note(piece[0], piece[1], index)?;
        self.note(piece[n - 1], piece[n - 2], reversed)?;
        self.count += 1;
        Ok(index)
    }

    /// The indexes of the pieces of a ring. A piece that is no arc yet becomes the next one.
    pub(crate) fn index_all(
        &mut self,
        alloc: A,
        ring: &CutRing<A>,
    ) -> Result<Vec<i64, A>, AllocError>
        requires long { AllByRecursion (λ piece. 2 ≤ length piece) ring.now }
        requires few { self.old.count + length ring.now ≤ 4000000 }
        ensures rings { OnOk result (self.new.rings ≡ self.old.rings) }
        ensures delta { OnOk result (self.new.delta ≡ self.old.delta) }
        ensures arcs { OnOk result ((arcs : List (List Position)) → Finds self.old arcs
            → FitAll arcs ring.now → Finds self.new (all_found arcs ring.now)) }
        ensures indexes { IfOk result (λ indexes. (arcs : List (List Position))
            → Finds self.old arcs → FitAll arcs ring.now
            → indexes.items ≡ indexes_found arcs ring.now) }
    {
        let mut indexes = Vec::with_capacity(alloc, ring.len())?;
        for i in 0..ring.len() {
            let index = self.index(ring.piece(i))?;
            indexes.push(index)?;
        }
        Ok(indexes)
    }
}
