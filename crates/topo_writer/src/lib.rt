//! The text of a map, as TopoJSON 1.0: each border once, and what was read and is not known as it
//! stood.
#![tactic(auto)]

mod arcs;
mod cutting;
mod fault;
mod items;
mod layers;
mod members;
mod rings;
mod shapes;
mod texts;
mod writing;

pub use arcs::Arcs;
pub use fault::WriteFault;
pub use texts::{push_comma, push_number, push_pair};
pub use writing::write;
