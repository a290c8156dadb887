//! The outline of a topology (TopoJSON 1.0, 2.1): its layers, its features, where their arcs stand.
//!
//! [`read_outline`] takes the root of a JSON text and answers the first fault in the order of the
//! text, or the outline. No position is read here, and no index of an arc.
#![tactic(auto)]

// The value of a result, or a return of its fault: what `?` does where it converts nothing. The
// checker has no rule for the conversion of a fault that holds a position.
macro_rules! or_return {
    ($result:expr) => {
        match $result {
            Ok(value) => value,
            Err(fault) => return Err(fault),
        }
    };
}

mod copying;
mod document;
mod entries;
mod fault;
mod geometries;
mod layer_names;
mod members;
mod places;
mod shape;
mod token;
mod words;

pub use document::{Form, Head, Item, KeptMember, Layers, RawFeature, RawLayer};
pub use entries::Entry;
pub use fault::{Limit, OpenFault, RingAt};
pub use members::Owner;
pub use places::Place;
pub use shape::{Outline, read_outline};
pub use token::Token;
pub use words::{Geometry, Word};
