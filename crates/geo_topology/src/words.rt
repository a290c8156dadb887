// The words of the format, told by their decoded texts.
ghost use Rattle.std.specs.Prelude.{◌≡◌};
ghost use Rattle.geo_topology.specs.Words.{word_named, type_named};

/// A member's name that GeoJSON defines (RFC 7946, 3), GDAL's `name` of a collection, TopoJSON's `arcs`,
/// or any other.
#[derive(Clone, Copy)]
pub(crate) enum Word {
    Type,
    Features,
    Geometry,
    Geometries,
    Coordinates,
    Id,
    Properties,
    Bbox,
    Name,
    Arcs,
    Other,
}

/// What the value of `type` says of an object (RFC 7946, 1.4), or that it is none of GeoJSON.
#[derive(Clone, Copy)]
pub(crate) enum GeoType {
    FeatureCollection,
    Feature,
    Point,
    MultiPoint,
    LineString,
    MultiLineString,
    Polygon,
    MultiPolygon,
    GeometryCollection,
    Other,
}

/// The word that a decoded name is.
#[tactic(auto, unfolding(crate::specs::Words::word_named))]
pub(crate) fn word_of(text: &str) -> Word
    ensures { result ≡ word_named text.now }
{
    if text == "type" {
        Word::Type
    } else if text == "features" {
        Word::Features
    } else if text == "geometry" {
        Word::Geometry
    } else if text == "geometries" {
        Word::Geometries
    } else if text == "coordinates" {
        Word::Coordinates
    } else if text == "id" {
        Word::Id
    } else if text == "properties" {
        Word::Properties
    } else if text == "bbox" {
        Word::Bbox
    } else if text == "name" {
        Word::Name
    } else if text == "arcs" {
        Word::Arcs
    } else {
        Word::Other
    }
}

/// What a decoded `type` says.
#[tactic(auto, unfolding(crate::specs::Words::type_named))]
pub(crate) fn type_of(text: &str) -> GeoType
    ensures { result ≡ type_named text.now }
{
    if text == "FeatureCollection" {
        GeoType::FeatureCollection
    } else if text == "Feature" {
        GeoType::Feature
    } else if text == "Point" {
        GeoType::Point
    } else if text == "MultiPoint" {
        GeoType::MultiPoint
    } else if text == "LineString" {
        GeoType::LineString
    } else if text == "MultiLineString" {
        GeoType::MultiLineString
    } else if text == "Polygon" {
        GeoType::Polygon
    } else if text == "MultiPolygon" {
        GeoType::MultiPolygon
    } else if text == "GeometryCollection" {
        GeoType::GeometryCollection
    } else {
        GeoType::Other
    }
}
