//! A layer of a map as GeoJSON (RFC 7946): one line a Feature, every coordinate the exact decimal, the same in every
//! polygon that has the vertex.
//!
//! [`export`] reads a map and sends the text of one of its layers to a device, piece by piece. Ids, properties and
//! members that are not known stand in it as they do in the map, byte for byte. Outer rings turn to the left and holes to
//! the right (3.1.6), if that is asked for.
#![tactic(auto)]

// The value of a result, or a return of its fault: what `?` does where it converts nothing. The
// checker has no rule for the conversion of a fault that holds a position.
macro_rules! or_return {
    ($result:expr) => {
        match $result {
            Ok(value) => value,
            Err(fault) => return Err(fault),
        }
    };
}

mod asked;
mod exporting;
mod found;
mod front;
mod items;
mod layers;
mod lines;
mod longest;
mod progress;

pub use asked::Asked;
pub use exporting::{export, send_layer};
pub use geo_features::ExportFault;
