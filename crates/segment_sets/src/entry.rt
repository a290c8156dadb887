ghost use Rattle.std.specs.Prelude.{◌≡◌};
ghost use Rattle.grid_geometry.specs.Common.{box_of};

use crate::way::Way;
use grid_geometry::{Rect, Seg};
use std::marker::Model;

/// A segment on its way into a tree or out of it, with its box. It is seen as the segment.
#[derive(Drop)]
pub(crate) struct Entry {
    segment: Seg,
    rect: Rect,
}

impl Model for Entry {
    ghost use Rattle.std.specs.Prelude.{◌≡◌};
    ghost use Rattle.grid_geometry.specs.Segment.{Segment, box_of};
    ghost use Rattle.segment_sets.specs.Candidates.{segment_code};

    ghost Value = { Segment };

    ghost coded = { segment_code };

    ghost view = { λ e. e.segment };

    ghost invariant = { λ e. e.rect ≡ box_of e.segment };
}

impl Entry {
    /// A segment and its box.
    pub(crate) fn of(segment: Seg) -> Self
        ensures { result ≡ segment }
    {
        Self {
            segment,
            rect: segment.rect(),
        }
    }

    /// The segment.
    pub(crate) fn segment(&self) -> Seg
        ensures { result ≡ self.now }
    {
        self.segment
    }

    /// The box of the segment.
    pub(crate) fn rect(&self) -> Rect
        ensures { result ≡ box_of self.now }
    {
        self.rect
    }

    /// Its way from the root.
    pub(crate) fn way(&self) -> Way {
        Way::of(self.segment)
    }
}
