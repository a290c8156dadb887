//! What is asked of a map without a change, and the boxes of its rings, by which those that may hold a
//! position are found without a look along the whole map.
#![tactic(auto)]

mod area;
mod border;
mod boxes;
mod diagonal;
mod inside;
mod near;
mod numbers;
mod odd;
mod passed;
mod ring_boxes;
mod sharing;

pub use area::{NoFeature, area2_of};
pub use boxes::{add_boxes, boxes_of};
pub use inside::at;
pub use near::at_near;
pub use numbers::{At, Numbers};
pub use ring_boxes::RingBoxes;
pub use sharing::{QueryFault, neighbours};
