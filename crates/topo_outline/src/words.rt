// The words of the format, told by their decoded texts.
ghost use Rattle.std.specs.Prelude.{◌≡◌};
ghost use Rattle.topo_outline.specs.Words.{word_of, geometry_of};

/// A member's name that the reader knows (TopoJSON 1.0, 2.1, 2.1.2 and 2.2), or any other.
#[derive(Clone, Copy, Debug, PartialEq, Eq)]
pub enum Word {
    Type,
    Transform,
    Objects,
    Arcs,
    Geometries,
    Id,
    Properties,
    Bbox,
    Scale,
    Translate,
    Other,
}

/// What the value of `type` says of an object (TopoJSON 1.0, 2.1 and 2.2).
#[derive(Clone, Copy, Debug, PartialEq, Eq)]
pub enum Geometry {
    Polygon,
    MultiPolygon,
    Collection,
    /// A point or several points.
    Point,
    Topology,
    /// `null` in the place of a string.
    Null,
    Other,
}

/// The word that a decoded name is.
#[tactic(auto, unfolding(crate::specs::Words::word_of))]
pub(crate) fn word_of(text: &str) -> Word
    ensures { result ≡ word_of text.now }
{
    if text == "type" {
        Word::Type
    } else if text == "transform" {
        Word::Transform
    } else if text == "objects" {
        Word::Objects
    } else if text == "arcs" {
        Word::Arcs
    } else if text == "geometries" {
        Word::Geometries
    } else if text == "id" {
        Word::Id
    } else if text == "properties" {
        Word::Properties
    } else if text == "bbox" {
        Word::Bbox
    } else if text == "scale" {
        Word::Scale
    } else if text == "translate" {
        Word::Translate
    } else {
        Word::Other
    }
}

/// What a decoded `type` says.
#[tactic(auto, unfolding(crate::specs::Words::geometry_of))]
pub(crate) fn geometry_of(text: &str) -> Geometry
    ensures { result ≡ geometry_of text.now }
{
    if text == "Polygon" {
        Geometry::Polygon
    } else if text == "MultiPolygon" {
        Geometry::MultiPolygon
    } else if text == "GeometryCollection" {
        Geometry::Collection
    } else if text == "Point" || text == "MultiPoint" {
        Geometry::Point
    } else if text == "Topology" {
        Geometry::Topology
    } else {
        Geometry::Other
    }
}
