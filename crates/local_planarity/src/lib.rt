//! Which segments an edit would put in conflict, and what it would sweep over, found among the
//! candidates that an index of segments gives. How many pairs are tested is counted.
#![tactic(auto)]

mod conflicts;
mod count;
mod filled;
mod leaving;
mod moving;
mod pairs;
mod span;
mod sweeps;

pub use conflicts::{first_conflict, first_conflict_near};
pub use count::TestCount;
pub use filled::fill;
pub use leaving::Leaving;
pub use moving::{move_sweeps, near_move};
pub use sweeps::{crosses_on_way, holds_end, holds_other};
