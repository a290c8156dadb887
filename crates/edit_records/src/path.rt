use grid_geometry::Pos;
use std::alloc::{Allocator, Global};
use std::marker::Model;

/// The positions of a path, from its first to its last.
#[derive(Debug, Drop)]
pub struct Path<A: Allocator = Global>(pub Vec<Pos, A>);

impl<A: Allocator> Model for Path<A> {
    ghost use Rattle.std.specs.Prelude.{List};
    ghost use Rattle.grid_geometry.specs.Position.{Position};

    ghost Value = { List Position };

    ghost view = { λ path. path.0.items };
}
