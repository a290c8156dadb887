// Rings nested: outer ones with their holes.
use crate::search::old::turned;
use crate::search::rows::{Rows, push_edges};
use grid_geometry::{Pos, area2, orient};
use ring_parts::canonical;
use std::alloc::{AllocError, Allocator};

/// The greatest count of positions of which an area is computed.
const MOST: usize = 1_099_511_627_776;

/// A ring that was found.
#[derive(Drop)]
struct Found<A: Allocator + Copy> {
    positions: Vec<Pos, A>,
    /// Whether it was there before, in this direction.
    stays: bool,
}

impl<A: Allocator + Copy> Found<A> {
    /// The ring over a closed way, in the direction in which it was there before, if it was; the
    /// rings from before ascend.
    fn new(alloc: A, old: &[Vec<Pos, A>], way: &[Pos]) -> Result<Found<A>, AllocError> {
        let mut positions = canonical(alloc, way)?;
        let mut stays = old.binary_search(&positions).is_ok();
        if !stays {
            let back = turned(alloc, way)?;
            if old.binary_search(&back).is_ok() {
                positions = back;
                stays = true;
            }
        }
        Ok(Found { positions, stays })
    }

    /// Its positions; one that was not there before is turned where it turns to the other side.
    fn directed(&self, alloc: A, to_left: bool) -> Result<Vec<Pos, A>, AllocError> {
        let positions = self.positions.as_slice();
        if self.stays || turns_left(positions) == to_left {
            Vec::from_slice(alloc, positions)
        } else {
            turned(alloc, positions)
        }
    }
}

/// Whether a ring turns to the left, or has no area.
fn turns_left(ring: &[Pos]) -> bool {
    ring.len() <= MOST && area2(ring) >= 0
}

/// Whether a is above the middle between p and q.
fn is_above_middle(a: Pos, p: Pos, q: Pos) -> bool {
    q.y() - a.y() < a.y() - p.y()
}

/// Whether the edge from a to b counts for the middle between p and q: the ray from there to the
/// right passes it.
fn counts_for_middle(p: Pos, q: Pos, a: Pos, b: Pos) -> bool {
    let rises = is_above_middle(b, p, q);
    if is_above_middle(a, p, q) == rises {
        return false;
    }
    // twice the side of the middle; each is at most 8*10^24, so that the sum is exact
    let side = orient(a, b, p).saturating_add(orient(a, b, q));
    if rises { 0 < side } else { side < 0 }
}

/// The rings that were found, and their edges in rows.
#[derive(Drop)]
struct Rings<'r, A: Allocator + Copy> {
    rings: &'r [Found<A>],
    rows: Rows<A>,
}

impl<'r, A: Allocator + Copy> Rings<'r, A> {
    fn new(alloc: A, rings: &'r [Found<A>]) -> Result<Rings<'r, A>, AllocError> {
        let mut edges = Vec::new(alloc);
        // a ring alone is in no other one
        let others = if rings.len() > 1 { rings } else { &[] };
        for (place, ring) in others.iter().enumerate() {
            push_edges(&mut edges, place, ring.positions.as_slice())?;
        }
        let rows = Rows::new(alloc, edges.as_slice())?;
        Ok(Rings { rings, rows })
    }

    /// The places of the rings whose edges a ray to the right passes, each as often as it does. It
    /// begins at the middle of the first edge of the ring at a place.
    fn passed(&self, alloc: A, place: usize) -> Result<Vec<usize, A>, AllocError> {
        let mut passed = Vec::new(alloc);
        let Some([p, q, ..]) = self.rings.get(place).map(|ring| ring.positions.as_slice()) else {
            return Ok(passed);
        };
        for edge in self.rows.at((p.y() + q.y()).div_euclid(2)) {
            if counts_for_middle(*p, *q, edge.from, edge.to) {
                passed.push(edge.ring)?;
            }
        }
        Ok(passed)
    }

    /// The places of the other rings, which do not cross it, that hold the ring at a place: those that
    /// have the middle of its first edge inside, by the even-odd rule.
    fn holders(&self, alloc: A, place: usize) -> Result<Vec<usize, A>, AllocError> {
        let mut passed = self.passed(alloc, place)?;
        passed.sort_unstable();
        let mut holders = Vec::new(alloc);
        for same in passed.as_slice().chunk_by(|one, other| one == other) {
            if let [other, ..] = same
                && *other != place
                && same.len() % 2 == 1
            {
                holders.push(*other)?;
            }
        }
        Ok(holders)
    }

    /// How many others hold each of the rings.
    fn depths(&self, alloc: A) -> Result<Vec<usize, A>, AllocError> {
        let mut depths = Vec::new(alloc);
        for place in 0..self.rings.len() {
            depths.push(self.holders(alloc, place)?.len())?;
        }
        Ok(depths)
    }

    /// The place of the ring of this depth that holds the hole at a place.
    fn around(
        &self,
        alloc: A,
        depths: &[usize],
        depth: usize,
        hole: usize,
    ) -> Result<Option<usize>, AllocError> {
        let holders = self.holders(alloc, hole)?;
        let mut places = holders.as_slice().iter();
        Ok(
            places
                .find(|place| depths.get(**place) == Some(&depth))
                .copied(),
        )
    }
}

/// The outer rings, each as a polygon, and for each ring in which of them it is the outer one.
fn outer_rings<A: Allocator + Copy>(
    alloc: A,
    rings: &[Found<A>],
    depths: &[usize],
    to_left: bool,
) -> Result<(Vec<Vec<Vec<Pos, A>, A>, A>, Vec<usize, A>), AllocError> {
    let mut parts = Vec::new(alloc);
    let mut homes = Vec::new(alloc);
    for (ring, depth) in rings.iter().zip(depths) {
        homes.push(parts.len())?;
        if *depth % 2 == 0 {
            let mut part = Vec::new(alloc);
            part.push(ring.directed(alloc, to_left)?)?;
            parts.push(part)?;
        }
    }
    Ok((parts, homes))
}

/// The rings as polygons: one that an even number of others hold is an outer ring, any other one a
/// hole of the ring around it that one less hold.
fn grouped<A: Allocator + Copy>(
    alloc: A,
    rings: &[Found<A>],
    to_left: bool,
) -> Result<Vec<Vec<Vec<Pos, A>, A>, A>, AllocError> {
    let nest = Rings::new(alloc, rings)?;
    let depths = nest.depths(alloc)?;
    let (mut parts, homes) = outer_rings(alloc, rings, depths.as_slice(), to_left)?;
    for (hole, (ring, depth)) in rings.iter().zip(depths.as_slice()).enumerate() {
        if *depth % 2 == 1
            && let Some(place) = nest.around(alloc, depths.as_slice(), *depth - 1, hole)?
            && let Some(home) = homes.get(place)
            && let Some(part) = parts.get_mut(*home)
        {
            part.push(ring.directed(alloc, !to_left)?)?;
        }
    }
    Ok(parts)
}

/// The closed ways as polygons, of which outer rings turn as the first walk did, and holes the
/// other way; but a ring that was there before stays as it was.
pub(crate) fn nested<A: Allocator + Copy>(
    alloc: A,
    walks: &[Vec<Pos, A>],
    old: &[Vec<Pos, A>],
    ways: &[Vec<Pos, A>],
) -> Result<Vec<Vec<Vec<Pos, A>, A>, A>, AllocError> {
    let mut rings = Vec::new(alloc);
    for way in ways {
        rings.push(Found::new(alloc, old, way.as_slice())?)?;
    }
    let to_left = walks
        .first()
        .is_none_or(|first| turns_left(first.as_slice()));
    grouped(alloc, rings.as_slice(), to_left)
}
