//! From the bytes of a topology whose coordinates have decimals to its walks on a grid of whole
//! numbers, or the first fault.
#![tactic(auto)]

/// The value of a result, or a return of its fault: what `?` does where it converts nothing. The
/// checker has no rule for the conversion of a fault that holds a position.
#[macro_export]
macro_rules! or_return {
    ($result:expr) => {
        match $result {
            Ok(value) => value,
            Err(fault) => return Err(fault),
        }
    };
}

mod fine;
mod fine_pos;
mod grid;
mod kept_digits;
mod needs;
mod reading;
mod told;
mod transform;
mod wants;

pub use kept_digits::{PointGrid, point_grid};
pub use needs::PointNeeds;
pub use reading::{OnGrid, read_on_grid};
pub use told::Told;
pub use transform::Transform;
pub use wants::Wants;
