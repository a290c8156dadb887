//! The text of an SVG picture (SVG 1.1): whole numbers, escaped text and the few elements of a drawing,
//! appended to bytes.
//!
//! Each function appends a text that its contract names. If an allocation fails, the result is an error and
//! the contract says nothing of the bytes.
#![tactic(auto)]

mod elements;
mod escaping;
mod numbers;

pub use elements::{ElementBox, close_group, close_picture, open_picture, open_view, push_words};
pub use escaping::push_escaped;
pub use numbers::{push_attribute, push_number, push_pair};
