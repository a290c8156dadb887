// Which sides of borders lie in one face: those that come to stand beside each other in the list.
ghost use Rattle.std.specs.Prelude.{◌≡◌, length, IfOk};

use std::alloc::{AllocError, Allocator};

/// Sides that are united: 2i is the left side of border i, 2i + 1 its right side, the last the outside.
#[derive(Drop)]
pub(crate) struct Faces<A: Allocator + Copy> {
    /// Of each side a lesser one of its face, or the side itself.
    lesser: Vec<u32, A>,
}

/// The number of a side that 32 bits hold; of another one the greatest that they do.
fn number_of(side: usize) -> u32 {
    u32::try_from(side).unwrap_or(u32::MAX)
}

impl<A: Allocator + Copy> Faces<A> {
    /// So many sides, none united with another.
    pub(crate) fn new(alloc: A, count: usize) -> Result<Faces<A>, AllocError> {
        let mut lesser = Vec::with_capacity(alloc, count)?;
        for side in 0..count {
            lesser.push(number_of(side))?;
        }
        Ok(Faces { lesser })
    }

    /// A lesser side of the face, or the side itself.
    fn lesser_of(&self, side: u32) -> u32 {
        match self.lesser.get(side as usize) {
            Some(lesser) => *lesser,
            None => side,
        }
    }

    /// Writes a lesser side of the face of a side.
    fn set_lesser(&mut self, side: u32, lesser: u32) {
        if let Some(entry) = self.lesser.get_mut(side as usize) {
            *entry = lesser;
        }
    }

    /// A lesser side of the face, or the side itself, with the way to the least halved.
    fn step(&mut self, side: u32) -> u32 {
        let next = self.lesser_of(self.lesser_of(side));
        self.set_lesser(side, next);
        next
    }

    /// The least side of the face.
    fn least(&mut self, side: u32) -> u32 {
        let mut least = side;
        let mut next = self.step(side);
        while next < least {
            least = next;
            next = self.step(next);
        }
        least
    }

    /// Unites the faces of two sides.
    fn join(&mut self, side: u32, other: u32) {
        let (a, b) = (self.least(side), self.least(other));
        if a < b {
            self.set_lesser(b, a);
        } else {
            self.set_lesser(a, b);
        }
    }

    /// The outside, which is the last.
    fn outside(&self) -> u32 {
        number_of(self.lesser.len().saturating_sub(1))
    }

    /// The right side of the border before this place of the list; the outside before the first.
    fn before(&self, list: &[usize], place: usize) -> u32 {
        if place == 0 {
            return self.outside();
        }
        match list.get(place - 1) {
            Some(border) => number_of(border.saturating_mul(2).saturating_add(1)),
            None => self.outside(),
        }
    }

    /// The left side of the border at this place of the list; the outside behind the last.
    fn behind(&self, list: &[usize], place: usize) -> u32 {
        match list.get(place) {
            Some(border) => number_of(border.saturating_mul(2)),
            None => self.outside(),
        }
    }

    /// Unites the sides that face each other before this place of the list.
    fn join_at(&mut self, list: &[usize], place: usize) {
        let (side, other) = (self.before(list, place), self.behind(list, place));
        self.join(side, other);
    }

    /// Unites the sides that face each other in the list, from before one place to before another.
    pub(crate) fn join_along(&mut self, list: &[usize], from: usize, to: usize) {
        for place in from..to {
            self.join_at(list, place);
        }
        self.join_at(list, to);
    }

    /// Of each of so many sides the least one of its face.
    pub(crate) fn labels(&self, alloc: A, count: usize) -> Result<Vec<u32, A>, AllocError>
        ensures { IfOk result (λ labels. length labels.items ≡ count) }
    {
        let mut labels = Vec::with_capacity(alloc, count)?;
        for side in 0..count {
            let number = number_of(side);
            let label = match labels.get(self.lesser_of(number) as usize) {
                Some(label) => *label,
                None => number,
            };
            labels.push(label)?;
        }
        Ok(labels)
    }
}
