// Walks and rings from the arcs that they use (TopoJSON 1.0, 2.1.3; RFC 7946, 3.1.6).
ghost use Rattle.std.specs.Prelude.{◌≡◌, map, OnOk, IfOk, None, ◌++◌, [], true};
ghost use Rattle.topo_outline.specs.Common.{Gives};
ghost use Rattle.topo_reader.specs.Uses.{arc_of, ring_uses, polygon_uses, feature_uses, positions_of, polygon_positions, feature_positions};
ghost use Rattle.topo_reader.specs.Rings.{first_of, last_of, meet_from, meet, ends, is_at, starts_at, joined, first_repeat, simple, closed_of, polygon_of, feature_of, all_rings};

use crate::indexes::Use;
use grid_geometry::Pos;
use ring_parts::begin_at_least;
use std::alloc::{AllocError, AllocFailed, Allocator};
use std::collections::BTreeSet;
use topo_outline::{OpenFault, RingAt};

/// What the arcs of a ring are read as.
#[derive(Clone, Copy)]
pub(crate) enum Closed {
    /// Walks of three positions or more, none of them twice, begun at the least one.
    Rings,
    /// Walks of any length, which may pass more than once through a position.
    Walks,
}

fn first_of(one: Use<'_>) -> Option<Pos>
    ensures { result ≡ first_of (arc_of one.entry) }
{
    if one.reversed {
        one.arc.last().copied()
    } else {
        one.arc.first().copied()
    }
}

fn last_of(one: Use<'_>) -> Option<Pos>
    ensures { result ≡ last_of (arc_of one.entry) }
{
    if one.reversed {
        one.arc.first().copied()
    } else {
        one.arc.last().copied()
    }
}

fn is_at(before: Option<Pos>, pos: Pos) -> bool
    ensures { result ≡ is_at before pos }
{
    match before {
        Some(last) => last == pos,
        None => false,
    }
}

fn starts_at(first: Option<Pos>, before: Option<Pos>) -> bool
    ensures { result ≡ starts_at first before }
{
    match first {
        Some(pos) => is_at(before, pos),
        None => false,
    }
}

/// Whether each begins where the one before it ends, the first at `before`.
#[tactic(auto, unfolding(crate::specs::Rings::meet_from), using(crate::proofs::Joining::meet_step, crate::proofs::Joining::meet_end))]
fn meet_from(before: Option<Pos>, uses: &[Use<'_>]) -> bool
    ensures { result ≡ meet_from before (map arc_of uses.now) }
{
    let mut last = before;
    for one in uses {
        if !starts_at(first_of(*one), last) {
            return false;
        }
        last = last_of(*one);
    }
    true
}

/// Where the last one ends.
#[tactic(auto, using(crate::proofs::Joining::ends_step, crate::proofs::Joining::ends_end))]
fn ends(uses: &[Use<'_>]) -> Option<Pos>
    ensures { result ≡ ends None (map arc_of uses.now) }
{
    let mut last = None;
    for one in uses {
        last = last_of(*one);
    }
    last
}

/// Whether each arc begins where the one before it ends, and the first where the last ends.
fn meet(uses: &[Use<'_>]) -> bool
    ensures { result ≡ meet (map arc_of uses.now) }
{
    meet_from(ends(uses), uses)
}

/// How many positions the arcs have. No answer depends on it.
fn room_for(uses: &[Use<'_>]) -> usize {
    uses.iter()
        .fold(0usize, |room, one| room.saturating_add(one.arc.len()))
}

/// Appends the positions of the arc as it is used.
fn put_use<A: Allocator + Copy>(ring: &mut Vec<Pos, A>, one: Use<'_>) -> Result<(), AllocError>
    ensures { OnOk result (ring.new.items ≡ ring.old.items ++ arc_of one.entry) }
{
    let start = ring.len();
    ring.extend_from_slice(one.arc)?;
    if one.reversed {
        ring[start..].reverse();
    }
    Ok(())
}

/// The positions of all arcs, equal neighbours once, the last left out.
fn joined<A: Allocator + Copy>(alloc: A, uses: &[Use<'_>]) -> Result<Vec<Pos, A>, AllocError>
    ensures { IfOk result (λ v. v.items ≡ joined (map arc_of uses.now)) }
{
    let mut ring = Vec::with_capacity(alloc, room_for(uses))?;
    for one in uses {
        put_use(&mut ring, *one)?;
    }
    ring.dedup();
    ring.pop();
    Ok(ring)
}

/// The first position that stood before. Those seen are kept in order: they come from the text, and
/// one who picks them could make their hashes collide.
#[tactic(auto, unfolding(crate::specs::Rings::first_repeat), using(crate::proofs::Joining::repeat_step, crate::proofs::Joining::repeat_end))]
fn first_repeat<A: Allocator + Copy>(
    alloc: A,
    ring: &[Pos],
) -> Result<Option<Pos>, AllocFailed<Pos>>
    ensures { IfOk result (λ r. r ≡ first_repeat [] ring.now) }
{
    let mut seen = BTreeSet::new(alloc);
    for pos in ring {
        if !seen.insert(*pos)? {
            return Ok(Some(*pos));
        }
    }
    Ok(None)
}

/// Whether no two positions are equal: sorted, equal ones are neighbours.
fn all_differ<A: Allocator + Copy>(alloc: A, ring: &[Pos]) -> Result<bool, AllocError>
    ensures { IfOk result (λ b. b ≡ true → first_repeat [] ring.now ≡ None) }
{
    let mut sorted = Vec::from_slice(alloc, ring)?;
    sorted.sort_unstable();
    sorted.dedup();
    Ok(sorted.len() == ring.len())
}

/// The walk as a ring, begun at its least position.
fn simple<'a, A: Allocator + Copy>(
    alloc: A,
    ring_at: RingAt,
    mut walk: Vec<Pos, A>,
) -> Result<Vec<Pos, A>, OpenFault<'a>>
    ensures { Gives positions_of result (simple ring_at walk.items) }
{
    if walk.len() < 3 {
        return Err(OpenFault::RingShort { ring: ring_at });
    }
    if !all_differ(alloc, walk.as_slice())? {
        if let Some(pos) = first_repeat(alloc, walk.as_slice())? {
            return Err(OpenFault::RingRepeats { ring: ring_at, pos });
        }
    }
    begin_at_least(walk.as_mut_slice());
    Ok(walk)
}

/// The ring of the arcs, or their walk; they must meet.
fn closed_of<'a, A: Allocator + Copy>(
    alloc: A,
    closed: Closed,
    ring_at: RingAt,
    uses: &[Use<'_>],
) -> Result<Vec<Pos, A>, OpenFault<'a>>
    ensures { Gives positions_of result (closed_of closed ring_at (map arc_of uses.now)) }
{
    if !meet(uses) {
        return Err(OpenFault::ArcsDoNotMeet { ring: ring_at });
    }
    let walk = joined(alloc, uses)?;
    match closed {
        Closed::Rings => simple(alloc, ring_at, walk),
        Closed::Walks => Ok(walk),
    }
}

#[tactic(auto, unfolding(crate::specs::Rings::polygon_of))]
fn polygon_of<'a, A: Allocator + Copy>(
    alloc: A,
    closed: Closed,
    feature: usize,
    polygon: usize,
    rings: &[Vec<Use<'_>, A>],
) -> Result<Vec<Vec<Pos, A>, A>, OpenFault<'a>>
    ensures { Gives polygon_positions result
        (polygon_of closed feature polygon (map ring_uses rings.now)) }
{
    let mut found = Vec::new(alloc);
    for (ring, uses) in rings.iter().enumerate() {
        let ring_at = RingAt {
            feature,
            polygon,
            ring,
        };
        found.push(or_return!(closed_of(alloc, closed, ring_at, uses.as_slice())))?;
    }
    Ok(found)
}

#[tactic(auto, unfolding(crate::specs::Rings::feature_of))]
fn feature_of<'a, A: Allocator + Copy>(
    alloc: A,
    closed: Closed,
    feature: usize,
    polygons: &[Vec<Vec<Use<'_>, A>, A>],
) -> Result<Vec<Vec<Vec<Pos, A>, A>, A>, OpenFault<'a>>
    ensures { Gives feature_positions result (feature_of closed feature (map polygon_uses polygons.now)) }
{
    let mut found = Vec::new(alloc);
    for (polygon, rings) in polygons.iter().enumerate() {
        found.push(or_return!(polygon_of(alloc, closed, feature, polygon, rings.as_slice())))?;
    }
    Ok(found)
}

/// The rings of all features, or the walks, by feature, polygon and ring.
#[tactic(auto, unfolding(crate::specs::Rings::all_rings))]
pub(crate) fn all_rings<'a, A: Allocator + Copy>(
    alloc: A,
    closed: Closed,
    features: &[Vec<Vec<Vec<Use<'_>, A>, A>, A>],
) -> Result<Vec<Vec<Vec<Vec<Pos, A>, A>, A>, A>, OpenFault<'a>>
    ensures { Gives (λ v. map feature_positions v.items) result
        (all_rings closed (map feature_uses features.now)) }
{
    let mut found = Vec::new(alloc);
    for (feature, polygons) in features.iter().enumerate() {
        found.push(or_return!(feature_of(alloc, closed, feature, polygons.as_slice())))?;
    }
    Ok(found)
}
