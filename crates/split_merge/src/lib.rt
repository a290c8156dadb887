//! The edits of features: the named conditions of each, in their order, and then the change.
//!
//! Each edit begins a new count of tests. Where it is refused nothing else changes.
#![tactic(auto)]

mod deleting;
mod id_text;
mod merging;
mod outlines;
mod path_way;
mod renaming;
mod splitting;

pub use deleting::delete;
pub use merging::merge;
pub use renaming::rename;
pub use splitting::split;
