//! The report of a map: all that keeps it from opening in the editor, a fact a line, and where; and
//! how it is mended, so that it opens. From bytes to texts: no file is known here.
//!
//! The text of a mended map is given once it is known to open: the map is built, written, and its text
//! read again. A map that opens in the editor as it is needs no more than that.
#![tactic(auto)]

// The value of a result, or a return of its fault: what `?` does where it converts nothing. The
// checker has no rule for the conversion of a fault that holds a position.
macro_rules! or_return {
    ($result:expr) => {
        match $result {
            Ok(value) => value,
            Err(fault) => return Err(fault),
        }
    };
}

// Appends words and what functions append in turn, as in
// `append!(text; b"lines " push_number(dropped) b"\n")`.
macro_rules! append {
    ($text:expr;) => {
        Ok(())
    };
    ($text:expr; $word:literal $($rest:tt)*) => {{
        $text.extend_from_slice($word)?;
        append!($text; $($rest)*)
    }};
    ($text:expr; $push:ident($($part:expr),+) $($rest:tt)*) => {{
        $push($text, $($part),+)?;
        append!($text; $($rest)*)
    }};
}

mod as_is;
mod asked;
mod lines;
mod looking;
mod remaking;
mod repair_fault;
mod report;
mod save_fault;
mod saving;
mod texts;

pub use as_is::{mend_as_is, report_as_is};
pub use asked::{Asked, Report};
pub use looking::LookFault;
pub use remaking::Remade;
pub use repair_fault::RepairFault;
pub use report::{Texts, is_open, mend_map, report_map};
pub use save_fault::SaveFault;
pub use saving::saved_text;
