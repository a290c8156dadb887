//! Paths for segments that conflict, so that no two links of the paths do: lazy snap rounding.
//!
//! The tests on the unit squares around positions of the grid and the roundings to the grid are exact,
//! and take no memory: products of coordinates are computed in 128 bits.
#![tactic(auto)]

mod crossing;
mod fault;
mod link;
mod near;
mod path;
mod products;
mod round;
mod search;
mod stop;
mod ways;

pub use crossing::rounded_crossing;
pub use fault::PathFault;
pub use near::{along, is_near, meets_square};
pub use path::{SegmentPath, positions_between};
pub use search::find_paths;
