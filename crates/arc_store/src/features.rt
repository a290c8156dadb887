ghost use Rattle.std.specs.Prelude.{◌≡◌, ◌≤◌, map, option_map, IsTrue};
ghost use Rattle.std.specs.List.{AllByRecursion};
ghost use Rattle.grid_geometry.specs.Common.{InRange};
ghost use Rattle.ring_machine.specs.Common.{feature, features, has_feature, rings, size, Proper};
ghost use Rattle.ring_machine.specs.Common.{is_layer, are_distinct, WellFormed};
ghost use Rattle.topo_outline.specs.Common.{KeepsTexts};
ghost use Rattle.map_frame.specs.Common.{shown, shown_frame};

use crate::map::Map;
use map_frame::{FeatureView, FrameView};
use segment_index::SegIndex;
use std::alloc::Allocator;

impl<'a, I: SegIndex, A: Allocator + Copy> Map<'a, I, A> {
    /// What the map is beside its rings.
    pub fn frame(&self) -> FrameView<'_, 'a, A>
        ensures shown { result ≡ shown_frame self.now.doc }
        ensures formed { WellFormed self.now.doc }
        ensures keeps { KeepsTexts self.now.doc }
        ensures proper { Proper self.now.doc }
        ensures range { AllByRecursion (AllByRecursion InRange) (rings self.now.doc) }
        ensures small { size self.now.doc ≤ 4000000 }
    {
        let _ = self.rings.vertices.len(); // it tells that the positions are in range
        self.frame.view()
    }

    /// The feature with this number; `None` where no feature has it. Takes no walk and no memory. The
    /// rings of a map have at most 4,000,000 positions, each ring counted for itself, and no two
    /// features have one number.
    pub fn feature(&self, n: u32) -> Option<FeatureView<'_, 'a, A>>
        ensures shown { result ≡ option_map shown (feature self.now.doc n) }
        ensures small { size self.now.doc ≤ 4000000 }
        ensures distinct { IsTrue (are_distinct (map (λ f. f.number) (features self.now.doc))) }
    {
        self.frame.feature(n)
    }

    /// Whether some feature has this number.
    pub fn has_feature(&self, n: u32) -> bool
        ensures { result ≡ has_feature self.now.doc n }
    {
        self.frame.has_feature(n)
    }

    /// Whether feature `n` is itself the geometry of a layer (TopoJSON 1.0, 2.1.5).
    pub fn is_alone(&self, n: u32) -> bool
        ensures { result ≡ is_layer self.now.doc n }
    {
        self.frame.is_alone(n)
    }
}
