use point_queries::{At, Numbers};
use std::alloc::{Allocator, Global};

/// What a command that was not refused is answered.
#[derive(Drop)]
pub enum Answer<A: Allocator + Copy = Global> {
    /// An edit was made.
    Done,
    /// So many vertices were left out.
    Thinned(u64),
    /// A feature was cut in two: the number of the new one.
    Made(u32),
    /// Twice the area of a feature.
    Area(i128),
    /// The features that hold a position, and those on whose borders it lies.
    At(At<A>),
    /// The features that have a segment in common with a feature.
    Neighbours(Numbers<A>),
}
