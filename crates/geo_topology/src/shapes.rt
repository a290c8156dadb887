// What is asked of values, and of the types of geometries (RFC 7946, 3.1).
ghost use Rattle.std.specs.Prelude.{◌≡◌};
ghost use Rattle.json_spans.specs.Common.{node};
ghost use Rattle.topo_outline.specs.Common.{is_list, is_object, are_lists, are_lists_of_lists};
ghost use Rattle.geo_topology.specs.Geometries.{has_shape, is_geometry_type, is_geometry_collection, value_word, value_name, other_word, object_front};

use crate::words::{GeoType, Word};
use json_spans::{Kind, Span, items, kind};

pub(crate) fn is_list(span: Span<'_>) -> bool
    ensures { result ≡ is_list (node span.entry) }
{
    kind(span) == Kind::List
}

pub(crate) fn is_object(span: Span<'_>) -> bool
    ensures { result ≡ is_object (node span.entry) }
{
    kind(span) == Kind::Object
}

/// Whether it is a list of lists.
fn are_lists(span: Span<'_>) -> bool
    ensures { result ≡ are_lists (node span.entry) }
{
    if !is_list(span) {
        return false;
    }
    for part in items(span) {
        if !is_list(part) {
            return false;
        }
    }
    true
}

/// Whether it is a list of lists of lists.
fn are_lists_of_lists(span: Span<'_>) -> bool
    ensures { result ≡ are_lists_of_lists (node span.entry) }
{
    if !is_list(span) {
        return false;
    }
    for part in items(span) {
        if !are_lists(part) {
            return false;
        }
    }
    true
}

/// Whether the value can be that of such a geometry: a list of rings, a list of polygons, or a list of
/// geometries. The coordinates of points and lines are not looked at.
pub(crate) fn has_shape(says: GeoType, value: Span<'_>) -> bool
    ensures { result ≡ has_shape says (node value.entry) }
{
    match says {
        GeoType::Polygon => are_lists(value),
        GeoType::MultiPolygon => are_lists_of_lists(value),
        GeoType::GeometryCollection => is_list(value),
        _ => true,
    }
}

pub(crate) fn is_geometry(says: GeoType) -> bool
    ensures { result ≡ is_geometry_type says }
{
    !matches!(
        says,
        GeoType::FeatureCollection | GeoType::Feature | GeoType::Other
    )
}

pub(crate) fn is_collection(says: GeoType) -> bool
    ensures { result ≡ is_geometry_collection says }
{
    matches!(says, GeoType::GeometryCollection)
}

/// The name of the member that such a geometry has its value in.
pub(crate) fn value_word(says: GeoType) -> Word
    ensures { result ≡ value_word says }
{
    if is_collection(says) {
        Word::Geometries
    } else {
        Word::Coordinates
    }
}

/// That name as a missing member is told by it.
pub(crate) fn value_name(says: GeoType) -> &'static [u8]
    ensures { result.now ≡ value_name says }
{
    if is_collection(says) {
        b"geometries"
    } else {
        b"coordinates"
    }
}

/// The name that only geometries of the other kind have (RFC 7946, 7.1).
pub(crate) fn other_word(says: GeoType) -> Word
    ensures { result ≡ other_word says }
{
    if is_collection(says) {
        Word::Coordinates
    } else {
        Word::Geometries
    }
}

/// How an object of the topology begins that is a geometry of this type.
pub(crate) fn opening(says: GeoType) -> &'static [u8]
    ensures { result.now ≡ object_front says }
{
    match says {
        GeoType::Point => b"{\"type\":\"Point\"",
        GeoType::MultiPoint => b"{\"type\":\"MultiPoint\"",
        GeoType::LineString => b"{\"type\":\"LineString\"",
        GeoType::MultiLineString => b"{\"type\":\"MultiLineString\"",
        GeoType::Polygon => b"{\"type\":\"Polygon\"",
        GeoType::MultiPolygon => b"{\"type\":\"MultiPolygon\"",
        GeoType::GeometryCollection => b"{\"type\":\"GeometryCollection\"",
        _ => b"{\"type\":null",
    }
}
