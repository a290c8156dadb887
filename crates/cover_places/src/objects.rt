// The objects of a topology of places, and its arcs, appended to a text.
ghost use Rattle.std.specs.Prelude.{◌≡◌, ◌≤◌, ◌++◌, OnOk};
ghost use Rattle.map_text.specs.Common.{arc_text};
ghost use Rattle.place_text.specs.Common.{features_text};
ghost use Rattle.cover_places.specs.Places.{place_seen};
ghost use Rattle.cover_places.specs.Text.{border_text, kind_text, line_text, lines_text, point_text, properties_text};
ghost use Rattle.cover_places.specs.Text.{side_positions};

use crate::numbers::{push_behind, push_comma, push_position};
use crate::places::Place;
use grid_geometry::Pos;
use layer_faces::Kind;
use place_text::push_number;
use std::alloc::{AllocError, Allocator};

/// Appends the name of a kind, as the value of a member.
fn push_kind<A: Allocator>(text: &mut Vec<u8, A>, kind: Kind) -> Result<(), AllocError>
    ensures { OnOk result (text.new.items ≡ text.old.items ++ kind_text kind) }
{
    match kind {
        Kind::Overlap => text.extend_from_slice(b"\"overlap\""),
        Kind::Twice => text.extend_from_slice(b"\"twice\""),
        Kind::Gap => text.extend_from_slice(b"\"gap\""),
        Kind::Lake => text.extend_from_slice(b"\"lake\""),
        Kind::Land => text.extend_from_slice(b"\"land\""),
        Kind::Outside => text.extend_from_slice(b"\"outside\""),
    }
}

/// Appends the numbers of features, as a further member.
fn push_features<A: Allocator>(text: &mut Vec<u8, A>, numbers: &[usize]) -> Result<(), AllocError>
    ensures { OnOk result (text.new.items ≡ text.old.items ++ features_text numbers.now) }
{
    text.extend_from_slice(b",\"features\":[")?;
    for (index, number) in numbers.iter().enumerate() {
        push_comma(text, index > 0)?;
        push_number(text, *number)?;
    }
    append!(text; b"]")
}

/// Appends what the report tells of a face, as the properties of an object.
fn push_properties<A: Allocator, B: Allocator + Copy>(
    text: &mut Vec<u8, A>,
    place: &Place<'_, B>,
) -> Result<(), AllocError>
    ensures { OnOk result
        (text.new.items ≡ text.old.items ++ properties_text (place_seen place.now)) }
{
    let face = place.face;
    append!(text; b"{\"kind\":" push_kind(face.kind) b",\"number\":" push_number(place.number)
        push_features(face.features.as_slice()) b",\"area\":" push_number(face.area)
        b",\"width\":" push_number(face.width) b"}")
}

/// Appends a point: the first position of the face's name (TopoJSON 1.0, 2.2.1).
pub(crate) fn push_point<A: Allocator, B: Allocator + Copy>(
    text: &mut Vec<u8, A>,
    place: &Place<'_, B>,
) -> Result<(), AllocError>
    ensures { OnOk result (text.new.items ≡ text.old.items ++ point_text (place_seen place.now)) }
{
    append!(text; b"{\"type\":\"Point\",\"properties\":" push_properties(place)
        b",\"coordinates\":" push_position(place.face.from) b"}")
}

/// Appends a line of an arc (TopoJSON 1.0, 2.2.3).
fn push_line<A: Allocator>(text: &mut Vec<u8, A>, index: usize) -> Result<(), AllocError>
    ensures { OnOk result (text.new.items ≡ text.old.items ++ line_text index) }
{
    append!(text; b"[" push_number(index) b"]")
}

/// Appends lines of so many arcs, of which the first has this index (TopoJSON 1.0, 2.2.4).
fn push_lines<A: Allocator>(
    text: &mut Vec<u8, A>,
    first: usize,
    count: usize,
) -> Result<(), AllocError>
    requires first { first ≤ 9223372036854775807 }
    requires count { count ≤ 9223372036854775807 }
    ensures { OnOk result (text.new.items ≡ text.old.items ++ lines_text first count) }
{
    text.extend_from_slice(b"[")?;
    for index in 0..count {
        push_comma(text, index > 0)?;
        push_line(text, first + index)?;
    }
    append!(text; b"]")
}

/// Appends the border of a face: a line for each of its sides, whose first arc has this index.
pub(crate) fn push_border<A: Allocator, B: Allocator + Copy>(
    text: &mut Vec<u8, A>,
    first: usize,
    place: &Place<'_, B>,
) -> Result<(), AllocError>
    requires { first ≤ 9223372036854775807 }
    ensures { OnOk result
        (text.new.items ≡ text.old.items ++ border_text first (place_seen place.now)) }
{
    append!(text; b"{\"type\":\"MultiLineString\",\"properties\":" push_properties(place)
        b",\"arcs\":" push_lines(first, place.face.sides.len()) b"}")
}

/// Appends a side, as an arc (TopoJSON 1.0, 2.1.3).
pub(crate) fn push_arc<A: Allocator>(
    text: &mut Vec<u8, A>,
    delta: bool,
    side: (Pos, Pos),
) -> Result<(), AllocError>
    ensures { OnOk result
        (text.new.items ≡ text.old.items ++ arc_text delta (side_positions side)) }
{
    let (from, to) = side;
    append!(text; b"[" push_position(from) b"," push_behind(delta, from, to) b"]")
}
