//! The features of a map that was read, as a picture of it needs them.
//!
//! [`shapes_of`] lists the features of a map in the order of its text: their numbers, texts and polygons.
//! Here is what can be said of them on the grid: bounds and windows, areas, names, how long a unit is, and
//! how the features and borders of two maps differ ([`changes_between`], [`borders_beyond`]). What pixels
//! and colours are is above this crate.
#![tactic(auto)]

mod amounts;
mod areas;
mod bounds;
mod changes;
mod conflicts;
mod extents;
mod lengths;
mod names;
mod quotients;
mod runs;
mod segments;
mod shapes;
mod sorted;
mod square_units;
mod straight;
mod units;
mod values;
mod window;

pub use amounts::percent;
pub use areas::area;
pub use bounds::Bounds;
pub use changes::{FeatureChange, changes_between};
pub use conflicts::Conflict;
pub use lengths::{Length, round_length};
pub use names::{feature_id, feature_name, feature_number, has_id, number_and_id};
pub use quotients::quotient;
pub use runs::{Run, borders_beyond};
pub use shapes::{Shape, bounds_of, by_size, shapes_of};
pub use straight::{Features, straight_features};
pub use units::{Unit, Units};
pub use values::shortened;
pub use window::Window;
