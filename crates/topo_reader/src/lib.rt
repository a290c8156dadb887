//! From the bytes of a topology to its rings, or to their walks, or the first fault.
#![tactic(auto)]

// The value of a result, or a return of its fault: what `?` does where it converts nothing. The
// checker has no rule for the conversion of a fault that holds a position.
macro_rules! or_return {
    ($result:expr) => {
        match $result {
            Ok(value) => value,
            Err(fault) => return Err(fault),
        }
    };
}

mod arcs;
mod document;
mod extent;
mod indexes;
mod limits;
mod plain_arc;
mod plain_list;
mod reading;
mod rings;

pub use document::RawDoc;
pub use reading::{read, read_walks, walks_along};
