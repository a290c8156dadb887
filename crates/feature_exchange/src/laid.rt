//! Rings that stand in the tables, by their numbers and keys.
ghost use Rattle.std.specs.Prelude.{◌≡◌, ℕ, IfOk, IsTrue, Some, Contains};
ghost use Rattle.std.specs.FinMap as table;
ghost use Rattle.arc_tables.specs.Common.{edges};
ghost use Rattle.ring_machine.specs.Common.{are_distinct};
ghost use Rattle.feature_exchange.specs.Laid.{numbers_of, AreThere};
ghost use Rattle.ring_store.specs.Common.{AllRound};

use ring_store::Borders;
use std::alloc::{AllocError, Allocator, Global};
use vertex_index::VertexKey;

/// A ring that was laid.
#[derive(Drop)]
pub struct LaidRing<A: Allocator + Copy = Global> {
    /// Its number in the borders.
    pub number: usize,
    /// The keys that it goes along, in order.
    pub keys: Vec<VertexKey, A>,
}

/// The keys of the ring with a number.
fn gather_ring<A: Allocator + Copy>(
    alloc: A,
    borders: &Borders<A>,
    number: usize,
) -> Result<LaidRing<A>, AllocError>
    requires round { AllRound borders.now }
    requires there { IsTrue (table.contains_key borders.now number) }
    ensures number { IfOk result (λ laid. laid.number ≡ number) }
    ensures along { IfOk result
        (λ laid. table.get borders.now number ≡ Some (edges laid.keys.items)) }
{
    let mut keys = Vec::new(alloc);
    borders.push_keys(number, &mut keys)?;
    Ok(LaidRing { number, keys })
}

/// The rings with these numbers, with their keys, so that they can be taken out later in no memory.
/// Fails only on allocation failure.
pub fn gather_rings<A: Allocator + Copy>(
    alloc: A,
    borders: &Borders<A>,
    numbers: &[usize],
) -> Result<Vec<LaidRing<A>, A>, AllocError>
    requires round { AllRound borders.now }
    requires there { (r : ℕ) → Contains numbers.now r
        → IsTrue (table.contains_key borders.now r) }
    requires different { IsTrue (are_distinct numbers.now) }
    ensures numbers { IfOk result (λ laid. numbers_of laid.items ≡ numbers.now) }
    ensures there { IfOk result (λ laid. AreThere borders.now laid.items) }
{
    let mut laid = Vec::new(alloc);
    for number in numbers {
        laid.push(gather_ring(alloc, borders, *number)?)?;
    }
    Ok(laid)
}
