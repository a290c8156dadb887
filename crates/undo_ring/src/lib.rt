//! A map with its history: each command is a step of the machine, and the newest changes can be
//! taken back.
#![tactic(auto)]

mod answer;
mod answering;
mod editor;
mod near;

pub use answer::Answer;
pub use edit_records::Command;
pub use editor::{Editor, UndoFault};
