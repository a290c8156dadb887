//! Lines in, answers out: a script is run on a map, and what it makes of the map is saved.
#![tactic(auto)]

mod fault;
mod questions;
mod replies;
mod ring_lists;
mod runner;
mod running;
mod sending;
mod texts;

pub use edit_records::Command;
pub use fault::RunFault;
pub use runner::Summary;
pub use running::run;
pub use script_lines::{Line, LineFault, parse_line};
pub use undo_ring::Answer;
