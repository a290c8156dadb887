//! The borders of the polygons of a layer, and which polygons hold each side of them.
#![tactic(auto)]

mod begun;
mod border;
mod borders;
mod ends;
mod faces;
mod fault;
mod flips;
mod holding;
mod sides;
mod standing;
mod sweep;
mod under;
mod vertices;

pub use border::Border;
pub use fault::SideFault;
pub use sides::{Sides, sides_of};
