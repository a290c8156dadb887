//! Where a segment stands in the arcs.
ghost use Rattle.std.specs.Prelude.{◌≡◌, ℕ, ◌≤◌, ◌==◌, ◌&&◌, ◌⊎◌, IfSome, IfNone, IfOk};
ghost use Rattle.std.specs.Prelude.{Contains, take, length, reverse};
ghost use Rattle.slab.specs.Slab.{get, ContainsKey};
ghost use Rattle.arc_tables.specs.Ways.{times, links};
ghost use Rattle.arc_tables.specs.Rings.{users_of};
ghost use Rattle.arc_tables.specs.Stores.{path_in, path_of, stand_at, IsPlace, Whole};
ghost use Rattle.arc_tables.specs.Sound.{rings_of, Sound};

use crate::arc::{Arc, Stand};
use crate::tables::Tables;
use slab::Slab;
use std::alloc::{AllocError, Allocator};
use std::ops::Range;
use vertex_index::VertexKey;

/// Where a segment stands: from the key at this place of an arc to the next, or the other way.
#[derive(Clone, Copy, Debug, PartialEq, Eq)]
pub struct Place {
    pub(crate) arc: usize,
    pub(crate) at: usize,
    pub(crate) back: bool,
}

/// Whether the edge leads from a to b.
fn leads(here: VertexKey, next: VertexKey, a: VertexKey, b: VertexKey) -> bool
    ensures { result ≡ (here == a && next == b) }
{
    here == a && next == b
}

/// The place of the segment in a path, and whether it goes the other way there. It is looked for
/// where it ends in this range.
pub(crate) fn place_in(
    path: &[VertexKey],
    ends: Range<usize>,
    a: VertexKey,
    b: VertexKey,
) -> Option<(usize, bool)>
    ensures some { IfSome result (λ p. IsPlace path.now p.0 p.1 a b) }
    ensures none { IfNone result (ends.start ≤ 1 → length path.now ≤ ends.end
        → times a b (links path.now) ≡ 0) }
{
    for at in ends.start.max(1)..ends.end.min(path.len()) {
        let (here, next) = (path[at - 1], path[at]);
        if leads(here, next, a, b) {
            return Some((at - 1, false));
        }
        if leads(here, next, b, a) {
            return Some((at - 1, true));
        }
    }
    None
}

/// The place of the segment in a path, if it ends at this place of it.
fn place_at(path: &[VertexKey], end: usize, a: VertexKey, b: VertexKey) -> Option<(usize, bool)>
    ensures { IfSome result (λ p. IsPlace path.now p.0 p.1 a b) }
{
    if end == 0 || path.len() <= end {
        return None;
    }
    let (here, next) = (path[end - 1], path[end]);
    if leads(here, next, a, b) {
        return Some((end - 1, false));
    }
    leads(here, next, b, a).then_some((end - 1, true))
}

/// The place of the segment in a path, if it ends at the first of two places of it, or at the second.
fn place_at_either(
    path: &[VertexKey],
    first: usize,
    second: usize,
    a: VertexKey,
    b: VertexKey,
) -> Option<(usize, bool)>
    ensures { IfSome result (λ p. IsPlace path.now p.0 p.1 a b) }
{
    match place_at(path, first, a, b) {
        Some(place) => Some(place),
        None => place_at(path, second, a, b),
    }
}

/// The place of the segment in one of these arcs, where it is the first or the last one of the arc,
/// as it mostly is where arcs meet.
fn find_at_end<A: Allocator + Copy>(
    arcs: &Slab<Arc<A>, A>,
    among: &[usize],
    a: VertexKey,
    b: VertexKey,
) -> Option<Place>
    ensures some { IfSome result (λ p. IsPlace (path_in (get arcs.now p.arc)) p.at p.back a b) }
    ensures there { IfSome result (λ p. ContainsKey arcs.now p.arc) }
{
    for arc in among {
        if let Some(border) = arcs.get(*arc) {
            let path = border.keys.as_slice();
            let last = path.len().saturating_sub(1);
            if let Some((at, back)) = place_at_either(path, 1, last, a, b) {
                return Some(Place {
                    arc: *arc,
                    at,
                    back,
                });
            }
        }
    }
    None
}

/// The place of the segment in one of these arcs.
fn find_among<A: Allocator + Copy>(
    arcs: &Slab<Arc<A>, A>,
    among: &[usize],
    a: VertexKey,
    b: VertexKey,
) -> Option<Place>
    ensures some { IfSome result (λ p. IsPlace (path_in (get arcs.now p.arc)) p.at p.back a b) }
    ensures there { IfSome result (λ p. ContainsKey arcs.now p.arc) }
    ensures none { IfNone result ((j : ℕ) → Contains among.now j
        → times a b (links (path_in (get arcs.now j))) ≡ 0) }
{
    for arc in among {
        if let Some(border) = arcs.get(*arc) {
            let path = border.keys.as_slice();
            if let Some((at, back)) = place_in(path, 1..path.len(), a, b) {
                return Some(Place {
                    arc: *arc,
                    at,
                    back,
                });
            }
        }
    }
    None
}

/// The arcs that are listed for a vertex.
pub fn arcs_at<A: Allocator + Copy>(stands: &Vec<Stand, A>, k: VertexKey) -> &[usize]
    ensures { result.now ≡ stand_at stands.now.items k }
{
    match stands.get(k.index()) {
        Some(stand) => stand.arcs.as_slice(),
        None => &[],
    }
}

/// The arcs that are listed for the one of two vertices that has fewer: none where it is new.
fn fewer_arcs<A: Allocator + Copy>(stands: &Vec<Stand, A>, a: VertexKey, b: VertexKey) -> &[usize]
    ensures { (result.now ≡ stand_at stands.now.items a)
        ⊎ (result.now ≡ stand_at stands.now.items b) }
{
    let (first, second) = (arcs_at(stands, a), arcs_at(stands, b));
    if second.len() < first.len() {
        second
    } else {
        first
    }
}

impl<A: Allocator + Copy> Tables<A> {
    /// The place of the segment of a and b, in the arcs of the one of them that has fewer.
    pub(crate) fn find(&self, a: VertexKey, b: VertexKey) -> Option<Place>
        requires { Whole self.now }
        ensures some { IfSome result (λ p. IsPlace (path_of self.now p.arc) p.at p.back a b) }
        ensures there { IfSome result (λ p. ContainsKey self.now.arcs p.arc) }
        ensures none { IfNone result ((j : ℕ) → times a b (links (path_of self.now j)) ≡ 0) }
    {
        let among = fewer_arcs(&self.stands, a, b);
        if let Some(place) = find_at_end(&self.arcs, among, a, b) {
            return Some(place);
        }
        find_among(&self.arcs, among, a, b)
    }

    /// The place of the segment of a and b in the arc of the place, where it stands beside that: after
    /// it in the direction in which the segment there was gone along, where a ring goes on, or before
    /// it.
    fn find_near(&self, near: Place, a: VertexKey, b: VertexKey) -> Option<Place>
        ensures some { IfSome result (λ p. IsPlace (path_of self.now p.arc) p.at p.back a b) }
        ensures there { IfSome result (λ p. ContainsKey self.now.arcs p.arc) }
    {
        let path = self.arcs.get(near.arc)?.keys.as_slice();
        let behind = near.at.saturating_add(2);
        let (first, second) = if near.back {
            (near.at, behind)
        } else {
            (behind, near.at)
        };
        let (at, back) = place_at_either(path, first, second, a, b)?;
        Some(Place {
            arc: near.arc,
            at,
            back,
        })
    }

    /// The place of the segment of a and b, which is looked for beside the place before it is in the
    /// arcs of either.
    fn find_from(&self, near: Option<Place>, a: VertexKey, b: VertexKey) -> Option<Place>
        requires { Whole self.now }
        ensures some { IfSome result (λ p. IsPlace (path_of self.now p.arc) p.at p.back a b) }
        ensures there { IfSome result (λ p. ContainsKey self.now.arcs p.arc) }
        ensures none { IfNone result ((j : ℕ) → times a b (links (path_of self.now j)) ≡ 0) }
    {
        if let Some(near) = near {
            if let Some(place) = self.find_near(near, a, b) {
                return Some(place);
            }
        }
        self.find(a, b)
    }

    /// How many rings have the segment of a and b: those of the arc that has it. Where one has it,
    /// `near` becomes its place; beside what `near` was it is found soonest.
    pub fn uses(&self, near: &mut Option<Place>, a: VertexKey, b: VertexKey) -> usize
        requires { Sound self.now }
        ensures { result ≡ users_of (rings_of self.now) a b }
    {
        match self.find_from(*near, a, b) {
            Some(place) => {
                *near = Some(place);
                self.arcs.get(place.arc).unwrap().rings.as_slice().len()
            }
            None => 0,
        }
    }
}

/// How far two lists agree.
pub(crate) fn agreed(xs: &[VertexKey], ys: &[VertexKey]) -> usize
    ensures xs { result ≤ length xs.now }
    ensures ys { result ≤ length ys.now }
    ensures same { take result xs.now ≡ take result ys.now }
    ensures all { (k : ℕ) → k ≤ length xs.now → k ≤ length ys.now
        → take k xs.now ≡ take k ys.now → k ≤ result }
{
    let mut len = 0usize;
    while len < xs.len() && len < ys.len() && xs[len] == ys[len] {
        len += 1;
    }
    len
}

/// How far the reverse of a path agrees with these keys.
pub(crate) fn agreed_back<A: Allocator + Copy>(
    alloc: A,
    path: &[VertexKey],
    keys: &[VertexKey],
) -> Result<usize, AllocError>
    ensures path { IfOk result (λ m. m ≤ length path.now) }
    ensures keys { IfOk result (λ m. m ≤ length keys.now) }
    ensures same { IfOk result (λ m. take m (reverse path.now) ≡ take m keys.now) }
    ensures all { IfOk result (λ m. 2 ≤ length path.now → 2 ≤ length keys.now
        → take 2 (reverse path.now) ≡ take 2 keys.now → 2 ≤ m) }
{
    let mut turned = Vec::from_slice(alloc, path)?;
    turned.reverse();
    Ok(agreed(turned.as_slice(), keys))
}
