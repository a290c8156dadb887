// What the root of a JSON text is.
ghost use Rattle.std.specs.Prelude.{◌≡◌, option_and_then, IfOk};
ghost use Rattle.json_spans.specs.Common.{node, decoded};
ghost use Rattle.geo_topology.specs.Words.{type_named};
ghost use Rattle.geo_topology.specs.Object.{object_of, geo_object};

use crate::shapes::is_object;
use crate::words::{GeoType, type_of};
use decimal_texts::value_in;
use json_spans::{Span, TextFault, text};
use std::alloc::{AllocError, Global};

/// A GeoJSON object (RFC 7946, 3), by its `type`.
#[derive(Clone, Copy)]
pub enum GeoObject {
    FeatureCollection,
    Feature,
    /// One of the seven types of geometries (RFC 7946, 1.4).
    Geometry,
}

/// The object that has such a type.
fn object_of(says: GeoType) -> Option<GeoObject>
    ensures { result ≡ object_of says }
{
    match says {
        GeoType::FeatureCollection => Some(GeoObject::FeatureCollection),
        GeoType::Feature => Some(GeoObject::Feature),
        GeoType::Other => None,
        _ => Some(GeoObject::Geometry),
    }
}

/// The object whose `type` has this value.
fn named_object(heap: Global, value: Span<'_>) -> Result<Option<GeoObject>, AllocError>
    ensures { IfOk result (λ o. o ≡ option_and_then (λ t. object_of (type_named t))
        (decoded (node value.entry).bytes)) }
{
    match text(heap, value) {
        Ok(says) => Ok(object_of(type_of(says.as_str()))),
        Err(TextFault::BadText) => Ok(None),
        Err(TextFault::OutOfMemory) => Err(AllocError),
    }
}

/// The GeoJSON object that the root of a text is by its first member `type`, and none where it is no
/// object, or of any other type. Its other members are not looked at. `Err` comes on allocation failure.
pub fn geo_object(heap: Global, root: Span<'_>) -> Result<Option<GeoObject>, AllocError>
    ensures { IfOk result (λ o. o ≡ geo_object (node root.entry)) }
{
    if !is_object(root) {
        return Ok(None);
    }
    match value_in(heap, "type", root)? {
        Some(value) => named_object(heap, value),
        None => Ok(None),
    }
}
