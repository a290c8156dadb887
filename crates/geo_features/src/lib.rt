//! The objects of one feature in GeoJSON (RFC 7946, 3.1 and 3.2): its geometry, its Feature, and the members of both.
//!
//! Each function appends to a text of bytes. Coordinates are the exact decimals of a grid, as a [`Style`] asks for them;
//! ids, properties and members that are not known stand as they do in the map, byte for byte. An [`ExportFault`] says
//! why what is asked for is not written; the text may then have a prefix of it.
#![tactic(auto)]

// The value of a result, or a return of its fault: what `?` does where it converts nothing. The
// checker has no rule for the conversion of a fault that holds a position.
macro_rules! or_return {
    ($result:expr) => {
        match $result {
            Ok(value) => value,
            Err(fault) => return Err(fault),
        }
    };
}

mod fault;
mod features;
mod members;
mod names;
mod points;
mod rings;
mod style;
mod texts;

pub use fault::ExportFault;
pub use features::{
    is_null, not_of_form, push_collection_begin, push_collection_end, push_feature_begin, push_own,
    push_point, push_shape,
};
pub use members::is_bare;
pub use names::{NOT_OF_FEATURE, Names, bad_member, first_of, is_one_of, names_of};
pub use points::Point;
pub use style::Style;
pub use texts::{push_comma, push_member, push_member_if, push_members};
