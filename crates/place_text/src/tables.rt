// By vertex and by segment the numbers of the features that have it.
ghost use Rattle.std.specs.Prelude.{◌≡◌, ◌∷◌, [], option_map, OnOk};
ghost use Rattle.std.specs.List.{flat_map};
ghost use Rattle.walk_faults.specs.Common.{segment_at, walk_segments};
ghost use Rattle.walk_faults.specs.Common.{features_seen};
ghost use Rattle.place_text.specs.Owners.{vertices_of_feature, feature_segments};
ghost use Rattle.place_text.specs.Tables.{once, once_if, numbers_in, asked_with};
ghost use Rattle.place_text.specs.Tables as spec;
ghost use Rattle.place_text.specs.Tables.{Tells, TellsAll, AreEmpty};
ghost use Rattle.ring_parts.specs.Common.{rings_seen, polygons_seen};

use grid_geometry::{Pos, Seg};
use std::alloc::{AllocError, Allocator};
use std::collections::BTreeMap;

/// By what is asked for the numbers of the features that have it, ascending.
pub(crate) type Table<K, A> = BTreeMap<K, Vec<usize, A>, A>;

/// The vertices and the segments that are asked for, each with the features that have it.
#[derive(Drop)]
pub(crate) struct Tables<A: Allocator + Copy> {
    pub(crate) vertices: Table<Pos, A>,
    pub(crate) segments: Table<Seg, A>,
}

/// Appends a number, unless it is the last one.
fn push_once<A: Allocator>(numbers: &mut Vec<usize, A>, number: usize) -> Result<(), AllocError>
    ensures { OnOk result (numbers.new.items ≡ once number numbers.old.items) }
{
    if let Some(last) = numbers.last()
        && *last == number
    {
        return Ok(());
    }
    numbers.push(number)?;
    Ok(())
}

/// A key is asked for.
pub(crate) fn ask<K: Ord + Drop, A: Allocator + Copy>(
    alloc: A,
    table: &mut Table<K, A>,
    key: K,
) -> Result<(), AllocError>
    ensures { OnOk result ((k : K) → numbers_in K.cmp table.new k
        ≡ asked_with K.cmp (key ∷ []) k (numbers_in K.cmp table.old k)) }
{
    table.insert(key, Vec::new(alloc))?;
    Ok(())
}

/// The feature has the key, which perhaps is asked for.
fn tell<K: Ord, A: Allocator + Copy>(
    table: &mut Table<K, A>,
    key: &K,
    feature: usize,
) -> Result<(), AllocError>
    ensures { OnOk result ((k : K) → numbers_in K.cmp table.new k
        ≡ option_map (once_if K.cmp feature (key.now ∷ []) k) (numbers_in K.cmp table.old k)) }
{
    if let Some(numbers) = table.get_mut(key) {
        push_once(numbers, feature)?;
    }
    Ok(())
}

/// The feature has an edge: its first position, and its segment where its ends differ.
fn tell_edge<A: Allocator + Copy>(
    tables: &mut Tables<A>,
    feature: usize,
    from: Pos,
    to: Pos,
) -> Result<(), AllocError>
    ensures { OnOk result
        (Tells feature (from ∷ []) (segment_at (from, to)) tables.old tables.new) }
{
    tell(&mut tables.vertices, &from, feature)?;
    if let Some(segment) = Seg::new(from, to) {
        tell(&mut tables.segments, &segment, feature)?;
    }
    Ok(())
}

/// The feature has a walk.
fn tell_walk<A: Allocator + Copy>(
    tables: &mut Tables<A>,
    feature: usize,
    walk: &[Pos],
) -> Result<(), AllocError>
    ensures { OnOk result
        (Tells feature walk.now (walk_segments walk.now) tables.old tables.new) }
{
    let [first, rest @ ..] = walk else {
        return Ok(());
    };
    let mut from = *first;
    for to in rest {
        tell_edge(tables, feature, from, *to)?;
        from = *to;
    }
    tell_edge(tables, feature, from, *first)
}

/// The feature has a polygon.
fn tell_polygon<A: Allocator + Copy>(
    tables: &mut Tables<A>,
    feature: usize,
    rings: &[Vec<Pos, A>],
) -> Result<(), AllocError>
    ensures { OnOk result (Tells feature (flat_map (λ walk. walk) (rings_seen rings.now))
        (flat_map walk_segments (rings_seen rings.now)) tables.old tables.new) }
{
    for ring in rings {
        tell_walk(tables, feature, ring.as_slice())?;
    }
    Ok(())
}

/// The feature has these polygons.
fn tell_feature<A: Allocator + Copy>(
    tables: &mut Tables<A>,
    feature: usize,
    polygons: &[Vec<Vec<Pos, A>, A>],
) -> Result<(), AllocError>
    ensures { OnOk result (Tells feature (vertices_of_feature (polygons_seen polygons.now))
        (feature_segments (polygons_seen polygons.now)) tables.old tables.new) }
{
    for rings in polygons {
        tell_polygon(tables, feature, rings.as_slice())?;
    }
    Ok(())
}

/// Each feature has its walks, where nothing was told before.
pub(crate) fn tell_all<A: Allocator + Copy>(
    tables: &mut Tables<A>,
    walks: &[Vec<Vec<Vec<Pos, A>, A>, A>],
) -> Result<(), AllocError>
    requires { AreEmpty tables.old }
    ensures { OnOk result (TellsAll (features_seen walks.now) tables.old tables.new) }
{
    for (feature, polygons) in walks.iter().enumerate() {
        tell_feature(tables, feature, polygons.as_slice())?;
    }
    Ok(())
}

/// The features that have what is asked for; none where it was not.
pub(crate) fn numbers_at<'t, K: Ord, A: Allocator + Copy>(
    table: &'t Table<K, A>,
    key: &K,
) -> &'t [usize]
    ensures { result.now ≡ spec.numbers_at K.cmp table.now key.now }
{
    match table.get(key) {
        Some(numbers) => numbers.as_slice(),
        None => &[],
    }
}
