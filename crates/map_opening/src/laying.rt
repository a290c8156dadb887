// Rings laid one after the other along their keys.
ghost use Rattle.std.specs.Prelude.{◌≡◌, ◌≤◌, ◌+◌, ℕ, List, [], ◌∷◌, ◌++◌, length, OnOk, Contains};
ghost use Rattle.std.specs.List.{sum_by};
ghost use Rattle.ring_store.specs.Common.{IsRound};
ghost use Rattle.map_opening.specs.Flat.{lists_seen};
ghost use Rattle.map_opening.specs.Laying.{AreLaid};

use crate::filling::fill_ring;
use crate::opened::OpenedRings;
use segment_index::SegIndex;
use std::alloc::{AllocError, Allocator};
use vertex_index::VertexKey;

/// Lays the ring along these keys. Fails only on allocation failure.
fn lay_ring<I: SegIndex, A: Allocator + Copy>(
    opened: &mut OpenedRings<I, A>,
    keys: &[VertexKey],
) -> Result<(), AllocError>
    requires round { IsRound opened.old.tables.vertices keys.now }
    requires small { opened.old.positions + length keys.now ≤ 4000000 }
    ensures laid { OnOk result ((keyed : List (List ℕ)) → AreLaid keyed opened.old
        → AreLaid (keyed ++ keys.now ∷ []) opened.new) }
    ensures vertices { opened.new.tables.vertices ≡ opened.old.tables.vertices }
    ensures cells { opened.new.tables.index.cells ≡ opened.old.tables.index.cells }
{
    fill_ring(&mut opened.tables, &mut opened.first, keys)?;
    let number = opened.tables.borders.add_ring(keys)?;
    opened.numbers.push(number)?;
    opened.positions += keys.len();
    Ok(())
}

/// Lays the rings along these lists of keys, where none is laid yet. Fails only on allocation failure.
pub(crate) fn lay_all<I: SegIndex, A: Allocator + Copy>(
    opened: &mut OpenedRings<I, A>,
    keyed: &[Vec<VertexKey, A>],
) -> Result<(), AllocError>
    requires round { (keys : List ℕ) → Contains (lists_seen keyed.now) keys
        → IsRound opened.old.tables.vertices keys }
    requires small { sum_by length (lists_seen keyed.now) ≤ 4000000 }
    requires none { AreLaid [] opened.old }
    ensures laid { OnOk result (AreLaid (lists_seen keyed.now) opened.new) }
    ensures vertices { opened.new.tables.vertices ≡ opened.old.tables.vertices }
    ensures cells { opened.new.tables.index.cells ≡ opened.old.tables.index.cells }
{
    for keys in keyed {
        lay_ring(opened, keys.as_slice())?;
    }
    Ok(())
}
