//! The lines of a script: what a line of bytes asks for.
#![tactic(auto)]

mod ids;
mod lines;
mod numbers;
mod parsing;
mod paths;
mod words;

pub use lines::{Line, LineFault, without_return};
pub use parsing::parse_line;
