use std::alloc::{Allocator, Global};
use std::marker::Model;

/// The text of an id. A map holds the JSON string that `serde_json` writes for it (RFC 8259, 7).
#[derive(Debug, Drop)]
pub struct IdText<A: Allocator = Global>(pub String<A>);

impl<A: Allocator> Model for IdText<A> {
    ghost use Rattle.std.specs.Prelude.{ℕ, List, string_bytes};

    ghost Value = { List ℕ };

    ghost view = { λ id. string_bytes id.0 };
}
