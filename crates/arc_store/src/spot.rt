ghost use Rattle.std.specs.Prelude.{◌≡◌, ◌&&◌, not, true, false, IfSome, IfNone};
ghost use Rattle.std.specs.FinMap as table;
ghost use Rattle.grid_geometry.specs.Common.{segment};
ghost use Rattle.ring_machine.specs.Common.{is_vertex, is_junction, is_bridged};
ghost use Rattle.arc_store.specs.Spots.{IsSpot, IsBetween};
ghost use Rattle.vertex_index.specs.Common.{place};

use crate::map::Map;
use grid_geometry::Pos;
use ring_store::Neighbours;
use segment_index::SegIndex;
use std::alloc::Allocator;
use vertex_index::{VertexKey, Vertices};

/// What stands around a vertex.
#[derive(Clone, Copy, Debug, PartialEq, Eq)]
pub enum Spot {
    /// It has different neighbours at two of its places.
    Junction,
    /// It stands between these two wherever it stands, the lesser one first, and the shortest ring
    /// that has it has so many positions.
    Between(Pos, Pos, usize),
}

/// The positions of these keys, the lesser one first.
fn in_order<A: Allocator + Copy>(vertices: &Vertices<A>, a: VertexKey, b: VertexKey) -> (Pos, Pos)
    requires first { table.contains_key vertices.now a ≡ true }
    requires second { table.contains_key vertices.now b ≡ true }
    ensures { let t = segment (place vertices.now a) (place vertices.now b) in result ≡ (t.lo, t.hi) }
{
    let (a, b) = (vertices.pos(a), vertices.pos(b));
    if a > b { (b, a) } else { (a, b) }
}

impl<'a, I: SegIndex, A: Allocator + Copy> Map<'a, I, A> {
    /// What stands around the vertex at a position; `None` where there is no vertex. Takes no memory.
    pub fn spot(&self, p: Pos) -> Option<Spot>
        ensures { IsSpot self.now.doc p result }
    {
        let k = self.rings.vertices.key_of(p)?;
        let Neighbours::Two(a, b) = self.rings.borders.neighbours(k) else {
            return Some(Spot::Junction);
        };
        let shortest = self.rings.borders.shortest(k)?;
        let (a, b) = in_order(&self.rings.vertices, a, b);
        Some(Spot::Between(a, b, shortest))
    }

    /// The two that a vertex stands between wherever it stands, the lesser one first; `None` where there
    /// is no vertex, or borders meet. Takes no memory.
    pub fn between(&self, p: Pos) -> Option<(Pos, Pos)>
        ensures some { IfSome result (λ ends. IsBetween self.now.doc p ends.0 ends.1) }
        ensures none { IfNone result
            ((is_vertex self.now.doc p && not (is_junction self.now.doc p)) ≡ false) }
    {
        let Some(k) = self.rings.vertices.key_of(p) else {
            return None;
        };
        match self.rings.borders.neighbours(k) {
            Neighbours::Two(a, b) => Some(in_order(&self.rings.vertices, a, b)),
            _ => None,
        }
    }

    /// Whether the two that a vertex stands between are joined by a segment. Takes no memory.
    pub fn is_bridged(&self, p: Pos) -> bool
        requires inner { is_junction self.now.doc p ≡ false }
        ensures { result ≡ is_bridged self.now.doc p }
    {
        let Some(k) = self.rings.vertices.key_of(p) else {
            return false;
        };
        match self.rings.borders.neighbours(k) {
            Neighbours::Two(a, b) => 0 < self.rings.borders.uses(a, b),
            _ => false,
        }
    }

    /// Whether borders meet at a position: a vertex that has different neighbours at two of its
    /// places. Takes no memory.
    pub fn is_junction(&self, p: Pos) -> bool
        ensures { result ≡ is_junction self.now.doc p }
    {
        let Some(k) = self.rings.vertices.key_of(p) else {
            return false;
        };
        match self.rings.borders.neighbours(k) {
            Neighbours::Two(..) => false,
            _ => true,
        }
    }
}
