//! Features exchanged in the tables of a map: rings are laid and taken out, other rings come for
//! those of a feature, a feature goes, and the tables still belong together.
//!
//! A call costs what its rings are long, and what a look into arcs and cells costs; it never goes
//! through the whole map. It fails only on allocation failure, and then the map is as it was.
#![tactic(auto)]

mod change;
mod counting;
mod exchanging;
mod laid;
mod laying;
mod lonely;
mod marked_ring;
mod numbers;
mod reading;
mod ring_iter;
mod ring_laying;
mod taking;

pub use change::{Change, WholeFeature, one_change, one_polygon, two_changes};
pub use counting::count_changes;
pub use exchanging::exchange_features;
pub use laid::{LaidRing, gather_rings};
pub use marked_ring::{meetings, push_marked_ring};
pub use reading::read_polygons;
pub use ring_iter::RingIter;
pub use ring_laying::lay_rings;
pub use taking::take_out_rings;
