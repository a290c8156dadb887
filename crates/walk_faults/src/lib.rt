//! What keeps a map from opening, all of it. The rings of a map are given as walks: closed lists of
//! positions of any length, which may pass twice through a position.
//!
//! It costs a sort of all positions and segments, and what an index does for each of them.
#![tactic(auto)]

mod findings;
mod gathered;
mod meeting;
mod repeats;
mod search;
mod walks;

pub use findings::{Crossing, FindFault, Findings, Repeat, Touch};
pub use gathered::{push_segments, sort_segments};
pub use search::{MOST, find, find_at_most};
