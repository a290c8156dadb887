//! Where the overlaps and gaps of a map are, as a topology of points and lines (TopoJSON 1.0) on the grid of the map; and
//! the report of them with these places. From bytes to texts: no file is known here.
#![tactic(auto)]

// Appends words and what functions append in turn, as in
// `append!(text; b"[" push_number(index) b"]")`.
macro_rules! append {
    ($text:expr;) => {
        Ok(())
    };
    ($text:expr; $word:literal $($rest:tt)*) => {{
        $text.extend_from_slice($word)?;
        append!($text; $($rest)*)
    }};
    ($text:expr; $push:ident($($part:expr),+) $($rest:tt)*) => {{
        $push($text, $($part),+)?;
        append!($text; $($rest)*)
    }};
}

mod numbers;
mod objects;
mod places;
mod report;
mod topology;

pub use report::{Texts, tell_map};
