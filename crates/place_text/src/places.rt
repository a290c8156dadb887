// The places of findings.
ghost use Rattle.std.specs.Prelude.{◌≡◌, ◌++◌, All, IsTrue, take, option_to_list, IfOk, OnOk};
ghost use Rattle.grid_geometry.specs.Common.{cross};
ghost use Rattle.walk_faults.specs.Common.{features_seen, flat_map_at};
ghost use Rattle.place_text.specs.Places.{walk_at, short_place, repeat_place, touch_place};
ghost use Rattle.place_text.specs.Places.{crossing_place, AreCrossings, ArePlaces};

use grid_geometry::Pos;
use segment_paths::rounded_crossing;
use std::alloc::{AllocError, Allocator};
use topo_outline::RingAt;
use walk_faults::{Crossing, Findings, Repeat, Touch};

/// A kind of findings.
#[derive(Clone, Copy)]
pub(crate) enum Kind {
    /// A walk of fewer than three positions.
    Short,
    /// A position that a walk passes more than once.
    Repeats,
    /// A vertex on a segment of which it is no end.
    On,
    /// Two segments that cross.
    Cross,
}

/// Where something is found.
#[derive(Clone, Copy)]
pub(crate) struct Place {
    pub(crate) pos: Pos,
    pub(crate) kind: Kind,
    /// The number of the finding among those of its kind, from 0.
    pub(crate) number: usize,
    /// Where the walk stands of which something is found.
    pub(crate) ring: Option<RingAt>,
}

/// The first position of a walk; `None` where it has no position.
fn first_of<A: Allocator + Copy>(walks: &[Vec<Vec<Vec<Pos, A>, A>, A>], ring: RingAt) -> Option<Pos>
    ensures { option_to_list result ≡ take 1 (walk_at (features_seen walks.now) ring) }
{
    let polygons = walks.get(ring.feature)?;
    let rings = polygons.get(ring.polygon)?;
    let walk = rings.get(ring.ring)?;
    walk.first().copied()
}

/// Appends the places of walks of fewer than three positions.
fn push_short<A: Allocator + Copy>(
    places: &mut Vec<Place, A>,
    walks: &[Vec<Vec<Vec<Pos, A>, A>, A>],
    short: &[RingAt],
) -> Result<(), AllocError>
    ensures { OnOk result (places.new.items
        ≡ places.old.items ++ flat_map_at (short_place (features_seen walks.now)) 0 short.now) }
{
    for (number, ring) in short.iter().enumerate() {
        if let Some(pos) = first_of(walks, *ring) {
            places.push(Place {
                pos,
                kind: Kind::Short,
                number,
                ring: Some(*ring),
            })?;
        }
    }
    Ok(())
}

/// Appends the positions that a walk passes more than once.
fn push_repeats<A: Allocator + Copy>(
    places: &mut Vec<Place, A>,
    repeats: &[Repeat],
) -> Result<(), AllocError>
    ensures { OnOk result
        (places.new.items ≡ places.old.items ++ flat_map_at repeat_place 0 repeats.now) }
{
    for (number, repeat) in repeats.iter().enumerate() {
        places.push(Place {
            pos: repeat.pos,
            kind: Kind::Repeats,
            number,
            ring: Some(repeat.ring),
        })?;
    }
    Ok(())
}

/// Appends the vertices on segments.
fn push_touches<A: Allocator + Copy>(
    places: &mut Vec<Place, A>,
    touches: &[Touch],
) -> Result<(), AllocError>
    ensures { OnOk result
        (places.new.items ≡ places.old.items ++ flat_map_at touch_place 0 touches.now) }
{
    for (number, touch) in touches.iter().enumerate() {
        places.push(Place {
            pos: touch.pos,
            kind: Kind::On,
            number,
            ring: None,
        })?;
    }
    Ok(())
}

/// The positions in which pairs of segments cross, each rounded to the grid.
fn crossing_positions<A: Allocator + Copy>(
    alloc: A,
    pairs: &[Crossing],
) -> Result<Vec<Pos, A>, AllocError>
    requires { All (λ pair. IsTrue (cross pair.first pair.second)) pairs.now }
    ensures { IfOk result (λ positions. AreCrossings pairs.now positions.items) }
{
    let mut positions = Vec::new(alloc);
    for pair in pairs {
        positions.push(rounded_crossing(pair.first, pair.second))?;
    }
    Ok(positions)
}

/// Appends the positions in which segments cross.
fn push_crossings<A: Allocator + Copy>(
    places: &mut Vec<Place, A>,
    crossings: &[Pos],
) -> Result<(), AllocError>
    ensures { OnOk result
        (places.new.items ≡ places.old.items ++ flat_map_at crossing_place 0 crossings.now) }
{
    for (number, pos) in crossings.iter().enumerate() {
        places.push(Place {
            pos: *pos,
            kind: Kind::Cross,
            number,
            ring: None,
        })?;
    }
    Ok(())
}

/// The places of findings in these walks: of the walks of fewer than three positions their first
/// ones, the positions that a walk passes more than once, the vertices on segments, and the positions
/// in which segments cross, rounded to the grid.
pub(crate) fn places<A: Allocator + Copy>(
    alloc: A,
    walks: &[Vec<Vec<Vec<Pos, A>, A>, A>],
    findings: &Findings<A>,
) -> Result<Vec<Place, A>, AllocError>
    requires { All (λ pair. IsTrue (cross pair.first pair.second)) findings.now.crossings.items }
    ensures { IfOk result (λ places.
        ArePlaces (features_seen walks.now) findings.now places.items) }
{
    let crossings = crossing_positions(alloc, findings.crossings.as_slice())?;
    let mut places = Vec::new(alloc);
    push_short(&mut places, walks, findings.short.as_slice())?;
    push_repeats(&mut places, findings.repeats.as_slice())?;
    push_touches(&mut places, findings.touches.as_slice())?;
    push_crossings(&mut places, crossings.as_slice())?;
    Ok(places)
}
