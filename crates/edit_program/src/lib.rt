//! What the words of the program ask for, how its script ends, and the list of the lines of a script that
//! were refused.
#![tactic(auto)]

mod asked;
mod command_line;
mod help;
mod listed;
mod noted_answers;
mod noted_script;
mod notes;
mod reasons;
mod refused_lines;
mod rows;
mod script_line;
mod script_tail;
mod taken;
mod why;

pub use asked::Words;
pub use command_line::words;
pub use listed::whole_rows;
pub use noted_answers::NotedAnswers;
pub use noted_script::NotedScript;
pub use refused_lines::{NotListed, RefusedLines};
pub use script_tail::ScriptTail;
