use grid_geometry::Seg;

/// The way of a segment down a tree: at each step one of two sides, by the bits of its middle, from
/// the greatest to the least, in turn in x and in y. No answer depends on it.
#[derive(Clone, Copy)]
pub(crate) struct Way {
    /// The bits of the first step, the third and so on.
    x: i64,
    /// The bits of the steps between.
    y: i64,
}

/// How many steps a way has.
const STEPS: u32 = 128;

impl Way {
    /// The way of a segment from the root.
    pub(crate) fn of(s: Seg) -> Self {
        Way {
            x: s.lo.x() + s.hi.x(),
            y: s.lo.y() + s.hi.y(),
        }
    }

    /// After how many steps two ways part; as many as there are where they are one.
    pub(crate) fn parting(self, other: Way) -> u32 {
        let x = (self.x ^ other.x).leading_zeros();
        let y = (self.y ^ other.y).leading_zeros();
        if x <= y {
            x.saturating_mul(2)
        } else {
            y.saturating_mul(2).saturating_add(1)
        }
    }

    /// After how many steps the first of some segments parts from a way; none where all go along it.
    pub(crate) fn first_parting(self, items: &[Seg]) -> Option<u32> {
        let mut first = STEPS;
        for s in items {
            first = first.min(self.parting(Way::of(*s)));
        }
        if first < STEPS { Some(first) } else { None }
    }
}
