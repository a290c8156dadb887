// Where a row across the picture is inside rings.
use crate::points::{Point, between};
use std::alloc::{AllocError, Allocator};

/// A row across the picture: all between two distances from the top.
#[derive(Clone, Copy)]
pub(crate) struct Row {
    /// Its upper side.
    pub(crate) top: i64,
    /// Its lower side.
    pub(crate) bottom: i64,
}

/// A part of a row, from the left to the right.
#[derive(Clone, Copy)]
pub(crate) struct Stretch {
    /// Where it begins.
    pub(crate) left: i64,
    /// Where it ends.
    pub(crate) right: i64,
}

impl Stretch {
    /// How wide it is; less than 0 where it ends before it begins.
    pub(crate) fn width(self) -> i64 {
        self.right.saturating_sub(self.left)
    }
}

/// The part of a row that a line takes: from where to where, and whether it passes the row's middle.
type Passage = (i64, i64, bool);

impl Row {
    /// The distance of its middle from the top.
    fn middle(self) -> i64 {
        between(self.top, self.bottom, 1, 2)
    }

    /// Where a line that is not level is at a distance from the top, or at its nearest end.
    fn at(down: i64, from: Point, to: Point) -> i64 {
        let (least, most) = if from.y < to.y {
            (from.y, to.y)
        } else {
            (to.y, from.y)
        };
        let down = down.max(least).min(most);
        between(
            from.x,
            to.x,
            down.saturating_sub(from.y),
            to.y.saturating_sub(from.y),
        )
    }

    /// What a line takes of the row, if it meets it.
    fn passage(self, from: Point, to: Point) -> Option<Passage> {
        if from.y.max(to.y) < self.top || self.bottom < from.y.min(to.y) {
            return None;
        }
        let is_passed = (from.y <= self.middle()) != (to.y <= self.middle());
        let (one, other) = if from.y == to.y {
            (from.x, to.x)
        } else {
            (Row::at(self.top, from, to), Row::at(self.bottom, from, to))
        };
        Some((one.min(other), one.max(other), is_passed))
    }

    /// Appends what the lines of a ring take of the row.
    fn push_passages<A: Allocator>(
        self,
        passages: &mut Vec<Passage, A>,
        ring: &[Point],
    ) -> Result<(), AllocError> {
        let Some(last) = ring.last() else {
            return Ok(());
        };
        let mut from = *last;
        for to in ring {
            if let Some(passage) = self.passage(from, *to) {
                passages.push(passage)?;
            }
            from = *to;
        }
        Ok(())
    }

    /// The widest stretch of the row, between a left and a right end, that is inside the rings and that
    /// no line of theirs meets. A place is inside where an odd number of lines lies to its left.
    pub(crate) fn widest<A: Allocator + Copy>(
        self,
        alloc: A,
        rings: &[Vec<Point, A>],
        ends: Stretch,
    ) -> Result<Option<Stretch>, AllocError> {
        let mut passages = Vec::new(alloc);
        for ring in rings {
            self.push_passages(&mut passages, ring.as_slice())?;
        }
        passages.sort_unstable();
        Ok(widest_between(passages.as_slice(), ends))
    }
}

/// The wider of a stretch, as far as it lies between the ends, and the widest before it.
fn wider(widest: Option<Stretch>, stretch: Stretch, ends: Stretch) -> Option<Stretch> {
    let stretch = Stretch {
        left: stretch.left.max(ends.left),
        right: stretch.right.min(ends.right),
    };
    let least = widest.map_or(0, |widest| widest.width());
    if least < stretch.width() {
        Some(stretch)
    } else {
        widest
    }
}

/// The widest stretch inside that no passage meets. The passages ascend.
fn widest_between(passages: &[Passage], ends: Stretch) -> Option<Stretch> {
    let mut widest = None;
    let mut reach = i64::MIN;
    let mut is_inside = false;
    for (left, right, is_passed) in passages {
        if is_inside {
            let stretch = Stretch {
                left: reach,
                right: *left,
            };
            widest = wider(widest, stretch, ends);
        }
        reach = reach.max(*right);
        is_inside = is_inside != *is_passed;
    }
    widest
}
