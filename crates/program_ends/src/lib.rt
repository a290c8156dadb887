//! How the programs end: what stops them before their work, their statuses, and the line on standard
//! error that says why. Each program has the endings of its own work beside these.
#![tactic(auto)]

mod advice;
mod diagnostic;
mod ending;
mod files;
mod naming;
mod replacing;
mod stop;
mod texts;

pub use advice::{Errors, Paths, Subject};
pub use diagnostic::Diagnostic;
pub use ending::Ending;
pub use files::{end, end_stopped, given_words, hash_seed, map_bytes};
pub use naming::{FileArgument, NamedFile, Role, check_apart, first_clash};
pub use replacing::replace_file;
pub use stop::Stop;
pub use texts::{copied, is_file};

/// The version of the programs.
pub const VERSION: &str = "1.0.0";
