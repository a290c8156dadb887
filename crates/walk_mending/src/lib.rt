//! Walks made rings: a walk is led along the paths of its segments, and a polygon whose walks are
//! not all rings is taken apart. Walks are closed lists of positions of any length, which may pass
//! twice through a position.
//!
//! It costs sorts of the positions and segments of the walks; the rings of a polygon that is taken
//! apart are compared with each other.
#![tactic(auto)]

mod bounding;
mod laying;
mod mending;
mod odd;
mod parts;
mod search;
mod segments;
mod simple;

pub use bounding::bounding_segments;
pub use laying::laid_walk;
pub use mending::mended_polygon;
pub use simple::all_simple;
