//! What a map is beside the positions of its rings: layers of collections, features and kept texts
//! (TopoJSON 1.0, 2.1.5 and 2.2), in which each ring stands by its number, with the changes of
//! features in it.
//!
//! A feature is found by its number, and a change costs what its own rings and texts cost: no call
//! walks the other features, but for the opening, a copy, and the features that stand in the place
//! of one that was opened.
#![tactic(auto)]

mod building;
mod changing;
mod copying;
mod feature;
mod items;
mod names;
mod reading;
mod tables;

pub use feature::{FeatureTexts, Id};
pub use items::{FrameView, ItemIter, ItemView};
pub use names::RingName;
pub use reading::FeatureView;
pub use tables::Frame;
