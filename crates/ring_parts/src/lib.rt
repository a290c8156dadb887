//! Rings as lists of positions: begun at their least one, cut in two by a path, and joined along a
//! common run.
#![tactic(auto)]

mod counting;
mod cut;
mod edges;
mod joining;
mod membership;
mod paths;
mod polygons;
mod rotation;
mod same_sides;
mod shared_sides;
mod sides;
mod stretch;

pub use counting::{count_all, count_positions};
pub use cut::{first_cut, is_cut_by, is_wrong_side};
pub use joining::{join_polygons, joined};
pub use membership::Members;
pub use paths::{Path, has_twice, way_segments};
pub use polygons::both_parts;
pub use rotation::{begin_at_least, canonical};
pub use same_sides::{passed_alike, same_side};
pub use shared_sides::{SharedSides, common_else, has_common, runs};
pub use stretch::{first_part, second_part};
