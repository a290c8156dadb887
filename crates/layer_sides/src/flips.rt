// Numbers of polygons, ascending.
ghost use Rattle.std.specs.Prelude.{◌≡◌, ◌++◌, ℕ, not, Contains, IfOk, OnOk};
ghost use Rattle.std.specs.List.{filter};
ghost use Rattle.std.specs.List.Sorted.{IsStrictlySortedBy};
ghost use Rattle.std.specs.Ordering.{nat_cmp};
ghost use Rattle.grid_geometry.specs.Common.{xor};
ghost use Rattle.layer_sides.specs.Sweep.{has_number};
ghost use Rattle.layer_sides.specs.Under.{Ascends};

use std::alloc::{AllocError, Allocator};

/// Whether a number is among ascending ones.
fn has(numbers: &[u32], n: u32) -> bool
    requires { IsStrictlySortedBy nat_cmp numbers.now }
    ensures { result ≡ has_number n numbers.now }
{
    numbers.binary_search(&n).is_ok()
}

/// Appends the numbers that are not among the others, which ascend.
fn push_unshared<A: Allocator + Copy>(
    found: &mut Vec<u32, A>,
    numbers: &[u32],
    others: &[u32],
) -> Result<(), AllocError>
    requires { IsStrictlySortedBy nat_cmp others.now }
    ensures { OnOk result (found.new.items
        ≡ found.old.items ++ filter (λ n. not (has_number n others.now)) numbers.now) }
{
    for n in numbers {
        if !has(others, *n) {
            found.push(*n)?;
        }
    }
    Ok(())
}

/// The numbers ascending, each once.
fn sort_once<A: Allocator + Copy>(numbers: &mut Vec<u32, A>)
    ensures { Ascends nat_cmp (Contains numbers.old.items) numbers.new.items }
{
    numbers.sort_unstable();
    numbers.dedup();
}

/// The numbers, ascending, that are among one of two ascending lists and not among the other.
pub(crate) fn flipped<A: Allocator + Copy>(
    alloc: A,
    numbers: &[u32],
    others: &[u32],
) -> Result<Vec<u32, A>, AllocError>
    requires numbers { IsStrictlySortedBy nat_cmp numbers.now }
    requires others { IsStrictlySortedBy nat_cmp others.now }
    ensures either { IfOk result (λ found. (n : ℕ)
        → has_number n found.items ≡ xor (has_number n others.now) (has_number n numbers.now)) }
    ensures sorted { IfOk result (λ found. IsStrictlySortedBy nat_cmp found.items) }
{
    let mut found = Vec::new(alloc);
    push_unshared(&mut found, numbers, others)?;
    push_unshared(&mut found, others, numbers)?;
    sort_once(&mut found);
    Ok(found)
}
