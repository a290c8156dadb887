ghost use Rattle.std.specs.Prelude.{◌≡◌, ◌≤◌, ℕ, None, length};
ghost use Rattle.edit_records.specs.Common.{IsHeld};
ghost use Rattle.ring_machine.specs.Common.{feature, features, size, is_vertex, vertices};
ghost use Rattle.ring_machine.specs.Common.{distinct_segments};
ghost use Rattle.topo_outline.specs.Common.{KeepsTexts};
ghost use Rattle.map_frame.specs.Common.{ArePlaced};

use crate::map::Map;
use grid_geometry::Pos;
use segment_index::SegIndex;
use std::alloc::Allocator;

impl<'a, I: SegIndex, A: Allocator + Copy> Map<'a, I, A> {
    /// How many features there are.
    pub fn feature_count(&self) -> usize
        ensures { result ≡ length (features self.now.doc) }
    {
        self.frame.feature_count()
    }

    /// How many vertices there are.
    pub fn vertex_count(&self) -> usize
        ensures { result ≡ length (vertices self.now.doc) }
    {
        self.rings.vertices.len()
    }

    /// How many segments there are, each counted once.
    pub fn segment_count(&self) -> usize
        ensures { result ≡ length (distinct_segments self.now.doc) }
    {
        self.rings.index.len()
    }

    /// How many positions the rings have, each ring counted for itself.
    pub fn position_count(&self) -> usize
        ensures { result ≡ size self.now.doc }
    {
        self.positions
    }

    /// The number of the next new feature, at most 200,000; no feature has it, or a greater one. The
    /// features of every map stand at the places of their numbers.
    pub fn next_number(&self) -> u32
        ensures next { result ≡ self.now.next }
        ensures few { result ≤ 200000 }
        ensures below { (m : ℕ) → self.now.next ≤ m → feature self.now.doc m ≡ None }
        ensures held { IsHeld self.now.places self.now.next self.now.doc }
        ensures placed { ArePlaced self.now.places self.now.next self.now.doc }
        ensures keeps { KeepsTexts self.now.doc }
    {
        self.frame.next()
    }

    /// How many times two segments were tested for a conflict since the last edit began.
    pub fn tests(&self) -> u64
        ensures { result ≡ self.now.tests }
    {
        self.tests.count()
    }

    /// Whether some ring has this position.
    pub fn has_vertex(&self, p: Pos) -> bool
        ensures { result ≡ is_vertex self.now.doc p }
    {
        self.rings.vertices.key_of(p).is_some()
    }
}
