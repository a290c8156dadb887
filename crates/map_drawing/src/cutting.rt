// What is cut from lines and rings that reach far beyond what is shown.
use crate::points::{Point, between};
use std::alloc::{AllocError, Allocator};

/// How many pixels lines go on beyond what is shown: their new ends are not seen.
const BEYOND: i64 = 10;

/// A side of the box outside which nothing is drawn.
#[derive(Clone, Copy)]
pub(crate) enum Side {
    /// All with an x of at least this is inside.
    Left(i64),
    /// All with an x of at most this is inside.
    Right(i64),
    /// All with a y of at least this is inside.
    Top(i64),
    /// All with a y of at most this is inside.
    Bottom(i64),
}

impl Side {
    /// How far inside a point is; less than 0 outside.
    fn depth(self, point: Point) -> i64 {
        match self {
            Side::Left(least) => point.x.saturating_sub(least),
            Side::Right(most) => most.saturating_sub(point.x),
            Side::Top(least) => point.y.saturating_sub(least),
            Side::Bottom(most) => most.saturating_sub(point.y),
        }
    }

    /// Where the line between two points on different sides meets it.
    fn crossing(self, from: Point, to: Point) -> Point {
        let part = self.depth(from);
        let whole = part.saturating_sub(self.depth(to));
        Point::near(
            between(from.x, to.x, part, whole),
            between(from.y, to.y, part, whole),
        )
    }

    /// The part of a line that is inside.
    fn cut_line(self, (from, to): (Point, Point)) -> Option<(Point, Point)> {
        match (self.depth(from) < 0, self.depth(to) < 0) {
            (false, false) => Some((from, to)),
            (true, false) => Some((self.crossing(from, to), to)),
            (false, true) => Some((from, self.crossing(from, to))),
            (true, true) => None,
        }
    }

    /// Appends what a line adds to a ring that is cut: where it comes in or goes out, and its end.
    fn push_cut<A: Allocator>(
        self,
        ring: &mut Vec<Point, A>,
        from: Point,
        to: Point,
    ) -> Result<(), AllocError> {
        let is_inside = 0 <= self.depth(to);
        if is_inside != (0 <= self.depth(from)) {
            ring.push(self.crossing(from, to))?;
        }
        if is_inside {
            ring.push(to)?;
        }
        Ok(())
    }

    /// The part of a ring that is inside. What was cut away is replaced by lines along the side.
    fn cut_ring<A: Allocator + Copy>(
        self,
        alloc: A,
        ring: &[Point],
    ) -> Result<Vec<Point, A>, AllocError> {
        let mut cut = Vec::new(alloc);
        let Some(last) = ring.last() else {
            return Ok(cut);
        };
        let mut from = *last;
        for to in ring {
            self.push_cut(&mut cut, from, *to)?;
            from = *to;
        }
        Ok(cut)
    }
}

/// The sides of the box for a picture of this size, where a pixel has so many parts.
pub(crate) fn sides(width: i64, height: i64, parts: i64) -> [Side; 4] {
    let beyond = parts.saturating_mul(BEYOND);
    [
        Side::Left(0i64.saturating_sub(beyond)),
        Side::Right(width.saturating_add(beyond)),
        Side::Top(0i64.saturating_sub(beyond)),
        Side::Bottom(height.saturating_add(beyond)),
    ]
}

/// Whether all of a ring is inside.
fn is_inside(sides: &[Side; 4], ring: &[Point]) -> bool {
    ring.iter()
        .all(|point| sides.iter().all(|side| 0 <= side.depth(*point)))
}

/// The part of a ring that is inside.
pub(crate) fn cut_ring<A: Allocator + Copy>(
    alloc: A,
    sides: &[Side; 4],
    ring: Vec<Point, A>,
) -> Result<Vec<Point, A>, AllocError> {
    if is_inside(sides, ring.as_slice()) {
        return Ok(ring);
    }
    let mut cut = ring;
    for side in sides {
        cut = side.cut_ring(alloc, cut.as_slice())?;
    }
    Ok(cut)
}

/// The part of a line that is inside.
pub(crate) fn cut_line(sides: &[Side; 4], from: Point, to: Point) -> Option<(Point, Point)> {
    let mut line = Some((from, to));
    for side in sides {
        line = line.and_then(|ends| side.cut_line(ends));
    }
    line
}
