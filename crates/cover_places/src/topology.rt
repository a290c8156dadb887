// The topology of places.
ghost use Rattle.std.specs.Prelude.{◌≡◌, ◌++◌, [], map, option_map, IfOk, OnOk};
ghost use Rattle.map_text.specs.Common.{arcs_text, commas};
ghost use Rattle.place_text.specs.Common.{collection_text, transform_member};
ghost use Rattle.cover_report.specs.Common.{faces_of, view_asked, view_looked};
ghost use Rattle.cover_places.specs.Places.{place_seen};
ghost use Rattle.cover_places.specs.Places as spec;
ghost use Rattle.cover_places.specs.Text.{borders_text, point_text, side_positions, sides_of, topology_text};

use crate::numbers::push_comma;
use crate::objects::{push_arc, push_border, push_point};
use crate::places::{Place, places_of};
use cover_report::{Asked, Looked};
use grid_geometry::Pos;
use std::alloc::{AllocError, Allocator};

/// Appends a collection of a point for each face (TopoJSON 1.0, 2.2.7).
fn push_points<A: Allocator, B: Allocator + Copy>(
    text: &mut Vec<u8, A>,
    places: &[Place<'_, B>],
) -> Result<(), AllocError>
    ensures { OnOk result (text.new.items
        ≡ text.old.items ++ collection_text (map point_text (map place_seen places.now))) }
{
    text.extend_from_slice(b"{\"type\":\"GeometryCollection\",\"geometries\":[")?;
    for (index, place) in places.iter().enumerate() {
        push_comma(text, index > 0)?;
        push_point(text, place)?;
    }
    append!(text; b"]}")
}

/// Appends the borders of faces, with commas between them. The sides of all become known.
fn push_listed<A: Allocator, B: Allocator + Copy>(
    text: &mut Vec<u8, A>,
    sides: &mut Vec<(Pos, Pos), B>,
    places: &[Place<'_, B>],
) -> Result<(), AllocError>
    requires { sides.old.items ≡ [] }
    ensures text { OnOk result (text.new.items
        ≡ text.old.items ++ commas (borders_text 0 (map place_seen places.now))) }
    ensures sides { OnOk result (sides.new.items ≡ sides_of (map place_seen places.now)) }
{
    for (index, place) in places.iter().enumerate() {
        push_comma(text, index > 0)?;
        push_border(text, sides.len(), place)?;
        sides.extend_from_slice(place.face.sides.as_slice())?;
    }
    Ok(())
}

/// Appends a collection of the borders of faces (TopoJSON 1.0, 2.2.7). Answers their sides, which are the arcs.
fn push_borders<A: Allocator, B: Allocator + Copy>(
    alloc: B,
    text: &mut Vec<u8, A>,
    places: &[Place<'_, B>],
) -> Result<Vec<(Pos, Pos), B>, AllocError>
    ensures text { OnOk result (text.new.items
        ≡ text.old.items ++ collection_text (borders_text 0 (map place_seen places.now))) }
    ensures sides { IfOk result (λ sides. sides.items ≡ sides_of (map place_seen places.now)) }
{
    let mut sides = Vec::new(alloc);
    text.extend_from_slice(b"{\"type\":\"GeometryCollection\",\"geometries\":[")?;
    push_listed(text, &mut sides, places)?;
    text.extend_from_slice(b"]}")?;
    Ok(sides)
}

/// Appends the list of the arcs: one for each side.
fn push_arcs<A: Allocator>(
    text: &mut Vec<u8, A>,
    delta: bool,
    sides: &[(Pos, Pos)],
) -> Result<(), AllocError>
    ensures { OnOk result
        (text.new.items ≡ text.old.items ++ arcs_text delta (map side_positions sides.now)) }
{
    text.extend_from_slice(b"[")?;
    for (index, side) in sides.iter().enumerate() {
        push_comma(text, index > 0)?;
        push_arc(text, delta, *side)?;
    }
    append!(text; b"]")
}

/// Appends the transform, where there is one.
fn push_transform<A: Allocator>(
    text: &mut Vec<u8, A>,
    transform: Option<&[u8]>,
) -> Result<(), AllocError>
    ensures { OnOk result (text.new.items
        ≡ text.old.items ++ transform_member (option_map (λ t. t.now) transform.entry)) }
{
    let Some(transform) = transform else {
        return Ok(());
    };
    text.extend_from_slice(b",\"transform\":")?;
    text.extend_from_slice(transform)?;
    Ok(())
}

/// Appends a topology of these faces (TopoJSON 1.0, 2.1).
fn push_topology<A: Allocator, B: Allocator + Copy>(
    alloc: B,
    text: &mut Vec<u8, A>,
    transform: Option<&[u8]>,
    places: &[Place<'_, B>],
) -> Result<(), AllocError>
    ensures { OnOk result (text.new.items ≡ text.old.items
        ++ topology_text (option_map (λ t. t.now) transform.entry) (map place_seen places.now)) }
{
    text.extend_from_slice(b"{\"type\":\"Topology\"")?;
    push_transform(text, transform)?;
    text.extend_from_slice(b",\"objects\":{\"places\":")?;
    push_points(text, places)?;
    text.extend_from_slice(b",\"borders\":")?;
    let sides = push_borders(alloc, text, places)?;
    append!(text; b"},\"arcs\":" push_arcs(transform.is_some(), sides.as_slice()) b"}")
}

/// The text of the places of what is told of the layers of a map that were looked at: a topology (TopoJSON 1.0) with the
/// positions of the map, and with its transform, whose text is given.
pub(crate) fn text_of_places<A: Allocator + Copy>(
    alloc: A,
    transform: Option<&[u8]>,
    asked: &Asked<'_>,
    looks: &[Looked<'_, A>],
) -> Result<Vec<u8, A>, AllocError>
    ensures { IfOk result (λ text. text.items ≡ topology_text (option_map (λ t. t.now) transform.entry)
        (spec.places_of (view_asked asked.now) (faces_of (map view_looked looks.now)))) }
{
    let places = places_of(alloc, asked, looks)?;
    let mut text = Vec::new(alloc);
    push_topology(alloc, &mut text, transform, places.as_slice())?;
    Ok(text)
}
