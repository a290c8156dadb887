//! The text of a topology, made of that of a GeoJSON object (RFC 7946).
//!
//! [`geo_object`] tells by the `type` of a JSON text's root whether it is a FeatureCollection, a Feature
//! or a geometry. [`topology_text`] makes the text of a topology of it, whose arcs are its rings, one
//! each, in order. No number is read: each coordinate, id, property and foreign member is a copy of its
//! bytes. Which parts are copies is kept, and [`MadeText::in_file`] tells of a place in one of them where
//! it stands in the file.
#![tactic(auto)]

// The value of a result, or a return of its fault: what `?` does where it converts nothing. The
// checker has no rule for the conversion of a fault that holds a position.
macro_rules! or_return {
    ($result:expr) => {
        match $result {
            Ok(value) => value,
            Err(fault) => return Err(fault),
        }
    };
}

mod arcs;
mod chunk;
mod entry;
mod features;
mod geometries;
mod made;
mod members;
mod object;
mod part;
mod putting;
mod shapes;
mod step;
mod words;

pub use made::MadeText;
pub use object::{GeoObject, geo_object};
pub use part::Part;
pub use step::topology_text;
