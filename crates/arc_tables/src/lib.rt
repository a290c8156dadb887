//! The tables of rings over shared arcs of vertex keys: each arc stands once, with the rings that use
//! it, a ring is a list of arcs, and a vertex knows the arcs that it stands in.
//!
//! A ring is found and laid through the arcs of its own vertices, and taken out through its own
//! arcs: no call walks all arcs.
#![tactic(auto)]

mod arc;
mod batch;
mod copying;
mod cutting;
mod editing;
mod laying;
mod place;
mod ring_users;
mod standing;
mod tables;
mod taking;

pub use arc::{Arc, Ring, Stand, Use};
pub use batch::Put;
pub use place::{Place, arcs_at};
pub use standing::mark_end;
pub use tables::Tables;
