//! What tests of several crates share: an allocator that refuses one allocation, a seed by which
//! positions are hashed alike in each run, and maps.
#![tactic(auto)]

mod maps;
mod refusing;
mod seed;
#[cfg(test)]
mod tests;

pub use maps::{TWO_SQUARES, UNION_ABOVE};
pub use refusing::Refusing;
pub use seed::fixed_seed;
