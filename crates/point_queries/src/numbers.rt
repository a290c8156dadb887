// Numbers of features, and the features at a position.
ghost use Rattle.point_queries.specs.Users.{IsSorted};

use std::alloc::{Allocator, Global};
use std::marker::Model;

/// Numbers of features, ascending. Seen as their list.
#[derive(Drop)]
pub struct Numbers<A: Allocator + Copy = Global>(pub Vec<u32, A>);

impl<A: Allocator + Copy> Model for Numbers<A> {
    ghost use Rattle.std.specs.Prelude.{ℕ, List};

    ghost Value = { List ℕ };

    ghost view = { λ numbers. numbers.0.items };
}

/// The features at a position.
#[derive(Drop)]
pub struct At<A: Allocator + Copy = Global> {
    /// Those that hold it, off their borders.
    pub inside: Numbers<A>,
    /// Those on whose borders it lies.
    pub border: Numbers<A>,
}

/// The numbers ascending, each once.
pub(crate) fn sort_once<A: Allocator + Copy>(found: &mut Vec<u32, A>)
    ensures { IsSorted found.old.items found.new.items }
{
    found.sort_unstable();
    found.dedup();
}
