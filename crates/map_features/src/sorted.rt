// What is in one list and not in another.
ghost use Rattle.std.specs.Prelude.{◌≡◌, IfOk};
ghost use Rattle.std.specs.List.{list_any};
ghost use Rattle.std.specs.List.Sorted.{IsSorted};
ghost use Rattle.map_features.specs.Missing.{missing_flags};

use std::alloc::{AllocError, Allocator};

/// Whether x is among these, which ascend.
fn has_sorted<T: Ord>(sorted: &[T], x: &T) -> bool
    requires { IsSorted T.cmp sorted.now }
    ensures { result ≡ list_any (λ y. T.eq y x.now) sorted.now }
{
    sorted.binary_search(x).is_ok()
}

/// By element, whether the others have none that is equal to it. The others ascend.
pub(crate) fn missing<T: Ord, A: Allocator>(
    alloc: A,
    these: &[T],
    others: &[T],
) -> Result<Vec<bool, A>, AllocError>
    requires { IsSorted T.cmp others.now }
    ensures { IfOk result (λ flags. flags.items ≡ missing_flags T.eq others.now these.now) }
{
    let mut flags = Vec::new(alloc);
    for x in these {
        flags.push(!has_sorted(others, x))?;
    }
    Ok(flags)
}
