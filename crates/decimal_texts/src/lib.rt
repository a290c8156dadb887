//! Numbers of a JSON text as exact decimals, and what is done in the text of a topology by them.
//!
//! [`decimal_of`] reads the parts of a number (RFC 8259, 6). [`Decimal::fine`] gives the units of
//! 10^-24 in it, rounded down: all of it where it has at most 24 decimals. [`decimals`] and
//! [`rounded`] take such units to fewer decimals, and [`push_shifted`] writes a number divided by a
//! power of ten. No floating-point number is made.
//!
//! [`without_lines`] leaves the lines of a topology out of its text: each becomes a geometry whose
//! `type` is `null`. The value of `type` becomes `null` and spaces, the member `arcs` becomes spaces,
//! and every other value keeps its place. [`rounded_points`] puts the points of a topology on a grid
//! of whole numbers: each coordinate of a Point or a MultiPoint becomes the whole number that it is
//! rounded to, and all else is as it stands, byte for byte; heights stay as they are. Both walk over
//! the geometries of the text by [`all_geometries`].
#![tactic(auto)]

mod decimal;
mod digits;
mod dropped;
mod fault;
mod fine;
mod geometries;
mod points;
mod reading;
mod rounding;
mod shifted;
mod splicing;
mod whole;

pub use decimal::Decimal;
pub use dropped::{Dropped, without_lines};
pub use fault::PointFault;
pub use fine::{decimals, is_rounded, rounded};
pub use geometries::{Shape, all_geometries, has_type, value_in};
pub use reading::decimal_of;
pub use shifted::push_shifted;
pub use whole::rounded_points;
