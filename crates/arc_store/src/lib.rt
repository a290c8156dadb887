//! A map kept as shared borders: each border stands once, however many rings have it, each vertex
//! under a key of its own, and the segments in an index that finds those near a place.
//!
//! An edit of a vertex costs what stands around it: the arcs and the rings at it, and the segments
//! near it. An edit of features costs what their rings are long, and what is near a path that comes.
//! No edit walks the map.
#![tactic(auto)]

mod begin;
mod build;
mod copying;
mod counts;
mod edit_record;
mod exchanging;
mod fault;
mod features;
mod map;
mod marked_map;
mod names;
mod near;
mod plan;
mod positions;
mod raw_delete;
mod raw_insert;
mod raw_merge;
mod raw_move;
mod raw_remove;
mod raw_rename;
mod raw_split;
mod raw_thin;
mod restore;
mod spot;

pub use edit_record::Record;
pub use edit_records::{IdText, Path};
pub use fault::{BuildFault, EditFault};
pub use feature_exchange::RingIter;
pub use map::Map;
pub use map_frame::{FeatureView, FrameView, ItemIter, ItemView, RingName};
pub use marked_map::MarkedMap;
pub use ring_store::Removal;
pub use spot::Spot;
