//! The edits of one vertex: the named conditions of each, in their order, and then the change.
//!
//! Each edit begins a new count of tests, and keeps what takes it back. Where it is refused nothing
//! is to be taken back, and nothing else changes.
#![tactic(auto)]

mod insert;
mod moved;
mod remove;
mod thinning;

pub use insert::insert_vertex;
pub use moved::move_vertex;
pub use remove::remove_vertex;
pub use thinning::thin;
