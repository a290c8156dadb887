//! The places of what keeps a map from opening, as a topology of points and lines (TopoJSON 1.0) on
//! the grid of the map.
#![tactic(auto)]

/// Appends words and what functions append in turn, as in
/// `append!(text; b"lines " push_number(dropped) b"\n")`.
#[macro_export]
macro_rules! append {
    ($text:expr;) => {
        Ok(())
    };
    ($text:expr; $word:literal $($rest:tt)*) => {{
        $text.extend_from_slice($word)?;
        $crate::append!($text; $($rest)*)
    }};
    ($text:expr; $push:ident($($part:expr),+) $($rest:tt)*) => {{
        $push($text, $($part),+)?;
        $crate::append!($text; $($rest)*)
    }};
}

mod numbers;
mod objects;
mod owners;
mod places;
mod sides;
mod tables;
mod topology;

pub use numbers::push_number;
pub use topology::text_of_places;
