//! The rings that were read, laid in the tables of a map: a vertex under a key at each position, each
//! ring along its keys, and the segments in an index, with the first pair of them in conflict.
//! Before that the rings of features are taken into one list, and afterwards their numbers are put
//! into features again.
//!
//! It costs what the rings are long, and what an index does for each segment.
#![tactic(auto)]

mod filling;
mod flat;
mod junctions;
mod keyed;
mod laying;
mod opened;
mod opening;

pub use flat::{FlatRings, flattened, regrouped};
pub use opened::OpenedRings;
pub use opening::lay;
