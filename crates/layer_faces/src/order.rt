// The sides of borders in the order of their faces.
ghost use Rattle.std.specs.Prelude.{◌≡◌, ◌≤◌, ◌<◌, length, map, take, IfOk};
ghost use Rattle.std.specs.List.{range_with_len};
ghost use Rattle.std.specs.List.Sorted.{IsPermutation, IsSorted};
ghost use Rattle.layer_faces.specs.Order.{HaveOneLabel, labelled_cmp, side_of};

use std::alloc::{AllocError, Allocator};

/// A side of a border, and the label of its face. Ordered by the label, then by the side.
#[derive(Clone, Copy, Debug, PartialEq, Eq, PartialOrd, Ord)]
pub(crate) struct Labelled {
    pub(crate) label: u32,
    pub(crate) side: u32,
}

/// Each side with its label, of which there is one for each side.
fn with_labels<A: Allocator + Copy>(
    alloc: A,
    labels: &[u32],
) -> Result<Vec<Labelled, A>, AllocError>
    requires { length labels.now ≤ 8000000 }
    ensures { IfOk result
        (λ order. map side_of order.items ≡ range_with_len 0 (length labels.now)) }
{
    let mut order = Vec::new(alloc);
    for (side, label) in labels.iter().enumerate() {
        order.push(Labelled {
            label: *label,
            side: side as u32,
        })?;
    }
    Ok(order)
}

/// The sides in the order of their labels, and within a label ascending.
pub(crate) fn by_label<A: Allocator + Copy>(
    alloc: A,
    labels: &[u32],
) -> Result<Vec<Labelled, A>, AllocError>
    requires { length labels.now ≤ 8000000 }
    ensures all { IfOk result (λ order.
        IsPermutation (range_with_len 0 (length labels.now)) (map side_of order.items)) }
    ensures ascending { IfOk result (λ order. IsSorted labelled_cmp order.items) }
{
    let mut order = with_labels(alloc, labels)?;
    order.sort_unstable();
    Ok(order)
}

/// How many sides, from the first on, have its label.
pub(crate) fn run_length(order: &[Labelled]) -> usize
    ensures within { result ≤ length order.now }
    ensures some { 0 < length order.now → 0 < result }
    ensures same { HaveOneLabel (take result order.now) }
{
    let [first, rest @ ..] = order else {
        return 0;
    };
    let mut count = 1;
    for next in rest {
        if next.label != first.label {
            return count;
        }
        count += 1;
    }
    count
}

/// The sides alone.
pub(crate) fn sides_in<A: Allocator + Copy>(
    alloc: A,
    order: &[Labelled],
) -> Result<Vec<u32, A>, AllocError>
    ensures { IfOk result (λ sides. sides.items ≡ map side_of order.now) }
{
    order.iter().map(|next| next.side).collect(alloc)
}
