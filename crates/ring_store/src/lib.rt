//! The rings of a map: a vertex under a key at each position, each border once along the keys, and
//! the segments in an index. Of the borders the edges of each ring are seen; where they are cut can't
//! be seen. Vertices move, come between two that are joined, go from between two, and come back, and
//! the segments of a ring come into the index and go.
//!
//! A call costs what its rings are long, or what stands around its vertex, and what a look into arcs
//! and cells costs; it never goes through the whole map. It tests nothing. Only allocation failure
//! makes one fail, and then nothing has changed.
#![tactic(auto)]

mod borders;
mod changes;
mod neighbours;
mod removal;
mod ring_keys;
mod sides;
mod tables;

pub use arc_tables::{Place, Put};
pub use borders::Borders;
pub use changes::{
    Bridging, Moving, Parting, put_all, put_in, read_bridging, read_moving, read_parting, shift,
    take_out,
};
pub use neighbours::Neighbours;
pub use removal::Removal;
pub use ring_keys::RingKeys;
pub use sides::{add_sides, drop_sides, edge_at, key_ring, side};
pub use tables::{Counted, RingTables};
