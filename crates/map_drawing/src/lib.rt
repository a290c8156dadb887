//! Pictures of a topology, and of what an edit did to it (SVG 1.1).
//!
//! [`draw_map`] and [`draw_change`] make a picture of what `topo_reader` read, whether or not it opens:
//! the map in parts of a pixel, above it a title and a scale bar, below it lines of text. All
//! numbers are whole, and the same maps give the same bytes. What can be said on the grid is in
//! `map_features`; here are pixels, labels, colours and elements.
#![tactic(auto)]

mod bar;
mod change_list;
mod change_picture;
mod corners;
mod cutting;
mod fineness;
mod labels;
mod layout;
mod map_picture;
mod marks;
mod outlines;
mod paths;
mod points;
mod rows;
mod seen;
mod styles;
mod view;

pub use change_picture::{Edit, draw_change};
pub use map_features::{Bounds, Conflict, Window};
pub use map_picture::draw_map;
pub use view::View;
