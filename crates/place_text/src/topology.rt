// The topology of places.
ghost use Rattle.std.specs.Prelude.{◌≡◌, ◌≤◌, ◌+◌, [], ◌∷◌, ◌++◌, length, map, option_map, IfOk, OnOk};
ghost use Rattle.map_text.specs.Common.{arc_text, arcs_text, commas};
ghost use Rattle.segment_paths.specs.Common.{paths_seen};
ghost use Rattle.walk_faults.specs.Common.{Found, flat_map_at, features_seen};
ghost use Rattle.place_text.specs.Sides.{side_ends, path_positions};
ghost use Rattle.place_text.specs.Tables.{told_by};
ghost use Rattle.place_text.specs.Text.{transform_member, ways};
ghost use Rattle.place_text.specs.Text.{behind_if, collection_text, path_layer, topology_text};
ghost use Rattle.place_text.specs.Text.{IsPlaceText};

use crate::numbers::push_comma;
use crate::objects::{Geometry, push_arc, push_way};
use crate::owners::{Owners, owners_of};
use crate::places::{Place, places};
use crate::sides::{Side, sides};
use grid_geometry::Pos;
use segment_paths::SegmentPath;
use std::alloc::{AllocError, Allocator};
use walk_faults::Findings;

/// Appends a collection of what is listed (TopoJSON 1.0, 2.2.7); so many arcs come before theirs.
fn push_collection<A: Allocator, B: Allocator + Copy, G: Geometry>(
    text: &mut Vec<u8, A>,
    owners: &Owners<B>,
    others: usize,
    listed: &[G],
) -> Result<(), AllocError>
    requires before { others ≤ 9223372036854775807 }
    requires listed { length listed.now ≤ 9223372036854775807 }
    ensures { OnOk result (text.new.items ≡ text.old.items ++ collection_text
        (flat_map_at (λ n g. G.geometry (told_by owners.now) n (others + n) g ∷ []) 0 listed.now)) }
{
    text.extend_from_slice(b"{\"type\":\"GeometryCollection\",\"geometries\":[")?;
    for (number, geometry) in listed.iter().enumerate() {
        push_comma(text, number > 0)?;
        geometry.push(text, owners, number, others + number)?;
    }
    append!(text; b"]}")
}

/// Appends the arcs of the segments, with commas between them.
fn push_side_arcs<A: Allocator>(
    text: &mut Vec<u8, A>,
    delta: bool,
    sides: &[Side],
) -> Result<(), AllocError>
    ensures { OnOk result (text.new.items
        ≡ text.old.items ++ commas (map (arc_text delta) (map side_ends sides.now))) }
{
    for (index, side) in sides.iter().enumerate() {
        push_comma(text, index > 0)?;
        push_arc(text, delta, side.segment)?;
    }
    Ok(())
}

/// Appends the arcs of the paths, with commas before them, but where nothing stands before.
fn push_way_arcs<A: Allocator, B: Allocator + Copy>(
    text: &mut Vec<u8, A>,
    delta: bool,
    more: bool,
    paths: &[SegmentPath<B>],
) -> Result<(), AllocError>
    ensures { OnOk result (text.new.items ≡ text.old.items
        ++ behind_if more (map (arc_text delta) (map path_positions (paths_seen paths.now)))) }
{
    for (index, path) in paths.iter().enumerate() {
        push_comma(text, more || index > 0)?;
        push_way(text, delta, path)?;
    }
    Ok(())
}

/// Appends the list of the arcs: one for each segment, and one for each path, if these are reported.
fn push_arcs<A: Allocator, B: Allocator + Copy>(
    text: &mut Vec<u8, A>,
    delta: bool,
    sides: &[Side],
    paths: Option<&[SegmentPath<B>]>,
) -> Result<(), AllocError>
    ensures { OnOk result (text.new.items ≡ text.old.items ++ arcs_text delta
        (map side_ends sides.now ++ ways (option_map (λ ps. paths_seen ps.now) paths.entry))) }
{
    let told = paths.unwrap_or(&[]);
    append!(text; b"[" push_side_arcs(delta, sides)
        push_way_arcs(delta, !sides.is_empty(), told) b"]")
}

/// Appends the transform, where there is one.
fn push_transform<A: Allocator>(
    text: &mut Vec<u8, A>,
    transform: Option<&[u8]>,
) -> Result<(), AllocError>
    ensures { OnOk result (text.new.items
        ≡ text.old.items ++ transform_member (option_map (λ t. t.now) transform.entry)) }
{
    let Some(transform) = transform else {
        return Ok(());
    };
    text.extend_from_slice(b",\"transform\":")?;
    text.extend_from_slice(transform)?;
    Ok(())
}

/// Appends the layer of the paths, if they are reported; so many arcs come before theirs.
fn push_path_layer<A: Allocator, B: Allocator + Copy>(
    text: &mut Vec<u8, A>,
    owners: &Owners<B>,
    others: usize,
    paths: Option<&[SegmentPath<B>]>,
) -> Result<(), AllocError>
    requires { others ≤ 9223372036854775807 }
    ensures { OnOk result (text.new.items ≡ text.old.items
        ++ path_layer (told_by owners.now) others (option_map (λ ps. paths_seen ps.now) paths.entry)) }
{
    let Some(paths) = paths else {
        return Ok(());
    };
    append!(text; b",\"paths\":" push_collection(owners, others, paths))
}

/// Appends a topology of these places, segments and, if they are reported, paths (TopoJSON 1.0, 2.1).
fn push_topology<A: Allocator, B: Allocator + Copy>(
    text: &mut Vec<u8, A>,
    transform: Option<&[u8]>,
    owners: &Owners<B>,
    places: &[Place],
    sides: &[Side],
    paths: Option<&[SegmentPath<B>]>,
) -> Result<(), AllocError>
    ensures { OnOk result (text.new.items ≡ text.old.items
        ++ topology_text (told_by owners.now) (option_map (λ t. t.now) transform.entry)
        places.now sides.now (option_map (λ ps. paths_seen ps.now) paths.entry)) }
{
    append!(text; b"{\"type\":\"Topology\"" push_transform(transform)
        b",\"objects\":{\"places\":" push_collection(owners, 0, places)
        b",\"segments\":" push_collection(owners, 0, sides)
        push_path_layer(owners, sides.len(), paths)
        b"},\"arcs\":" push_arcs(transform.is_some(), sides, paths) b"}")
}

/// The text of the places of what was found in these walks: a topology (TopoJSON 1.0) with the
/// positions of the map, and with its transform, whose text is given.
///
/// Its layer `places` has a point for each finding: at the first position of a walk of fewer than
/// three, unless it has none; at a position that a walk passes more than once; at a vertex on a
/// segment; and where two segments cross, rounded to the grid. Its layer `segments` has a line for
/// each segment that a vertex lies on, and for both of each pair that crosses. `kind` and `number`
/// say which finding of the report each belongs to, and `features` which features have the vertex,
/// the segment, or one of the two that cross. Where paths are given, a layer `paths` has a line for
/// each of them, with its `number`, and the `features` that have its segment.
pub fn text_of_places<A: Allocator + Copy>(
    alloc: A,
    transform: Option<&[u8]>,
    walks: &[Vec<Vec<Vec<Pos, A>, A>, A>],
    findings: &Findings<A>,
    paths: Option<&[SegmentPath<A>]>,
) -> Result<Vec<u8, A>, AllocError>
    requires { Found (features_seen walks.now) findings.now }
    ensures { IfOk result (λ text. IsPlaceText (option_map (λ t. t.now) transform.entry)
        (features_seen walks.now) findings.now (option_map (λ ps. paths_seen ps.now) paths.entry)
        text.items) }
{
    let places = places(alloc, walks, findings)?;
    let sides = sides(alloc, findings)?;
    let owners = owners_of(alloc, walks, findings, sides.as_slice(), paths)?;
    let (places, sides) = (places.as_slice(), sides.as_slice());
    let mut text = Vec::new(alloc);
    push_topology(&mut text, transform, &owners, places, sides, paths)?;
    Ok(text)
}
