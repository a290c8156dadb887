ghost use Rattle.std.specs.Prelude.{◌≡◌, ◌≤◌, ℕ, ◌+◌, ◌&&◌, not, true, false, is_some, if◌then◌else◌, OnOk, OnErr, IfOk, IsTrue, MatchOption};
ghost use Rattle.std.specs.Prelude.{int_le, pos, unsigned_abs};
ghost use Rattle.grid_geometry.specs.Common.{orientation};
ghost use Rattle.ring_machine.specs.Common.{Document, is_vertex, Proper};
ghost use Rattle.ring_machine.specs.Common.{KeepsSides, is_flat, thinned, thin_at};
ghost use Rattle.ring_machine.specs.Common.{is_junction, IsThinnedPart};
ghost use Rattle.segment_index.specs.Common.{times_by};
ghost use Rattle.arc_store.specs.Common.{IsThinning};
ghost use Rattle.edit_vertex.specs.Kept.{IsThinnedFrom, IsThinRecorded};
ghost use Rattle.edit_vertex.specs.Tested.{most_at, most_for_thin};

use arc_store::{EditFault, Map};
use grid_geometry::{Pos, orient};
use segment_index::SegIndex;
use std::alloc::{AllocError, Allocator};

/// Whether twice the area of the triangle is at most t.
fn is_flat_at(a: Pos, p: Pos, b: Pos, t: i128) -> bool
    ensures { result ≡ int_le (pos (unsigned_abs (orientation a p b))) t }
{
    0 <= t && orient(a, p, b).unsigned_abs() <= t.unsigned_abs()
}

/// Whether p is a vertex and no junction, and twice the area of the triangle with its neighbours is
/// at most t.
fn is_thin<'a, I: SegIndex, A: Allocator + Copy>(map: &Map<'a, I, A>, p: Pos, t: i128) -> bool
    requires proper { Proper map.now.doc }
    ensures { result
        ≡ (is_vertex map.now.doc p && (not (is_junction map.now.doc p) && is_flat t map.now.doc p)) }
{
    match map.between(p) {
        Some((a, b)) => is_flat_at(a, p, b, t),
        None => false,
    }
}

/// Leaves p out where it is flat by t, is no junction, and may be removed; tells whether it did.
fn thin_at<'a, I: SegIndex, A: Allocator + Copy>(
    map: &mut Map<'a, I, A>,
    t: i128,
    p: Pos,
) -> Result<bool, AllocError>
    requires proper { Proper map.old.doc }
    requires thinning { IsThinning map.old.last }
    ensures thinned { (n : ℕ) → IfOk result
        (λ gone. thin_at t (record { doc = map.old.doc; removed = n }) p
        ≡ record { doc = map.new.doc; removed = n + (if gone then 1 else 0) }) }
    ensures unchanged { OnErr result (map.new.doc ≡ map.old.doc) }
    ensures proper { Proper map.new.doc }
    ensures recorded { (start : Document)
        → IsThinnedFrom start map.old → IsThinnedFrom start map.new }
    ensures gone { IfOk result (λ gone. gone ≡ true → IsTrue (is_some map.new.last)) }
    ensures stays { IfOk result (λ gone. gone ≡ false → map.new.last ≡ map.old.last) }
    ensures still { OnErr result (map.new.last ≡ map.old.last) }
    ensures next { map.new.next ≡ map.old.next }
    ensures places { map.new.places ≡ map.old.places }
    ensures few { map.new.tests ≤ map.old.tests
        + most_at (times_by map.old.cells) t map.old.doc p }
    ensures cells { map.new.cells ≡ map.old.cells }
{
    let _ = map.next_number(); // it tells where numbers stand
    if !is_thin(map, p, t) {
        return Ok(false);
    }
    if map.is_bridged(p) {
        return Ok(false); // also where a ring of p has only three positions
    }
    match map.raw_thin(p) {
        Ok(()) => Ok(true),
        Err(fault) => match fault {
            EditFault::OutOfMemory => Err(AllocError),
            _ => Ok(false),
        },
    }
}

/// One pass over the vertices that the map has at the start, in ascending order: each is left out where
/// twice the area of the triangle with its neighbours is at most t, it is no junction, and its removal
/// would be accepted, as the map is then. Returns how many were. On allocation failure it stops on the
/// way, and what was left out so far stays out.
pub fn thin<'a, I: SegIndex, A: Allocator + Copy>(
    map: &mut Map<'a, I, A>,
    t: i128,
) -> Result<u64, AllocError>
    ensures count { IfOk result (λ n. n ≡ (thinned t map.old.doc).removed) }
    ensures thinned { OnOk result (map.new.doc ≡ (thinned t map.old.doc).doc) }
    ensures part { OnErr result (IsThinnedPart t map.old.doc map.new.doc) }
    ensures sides { KeepsSides map.old.doc map.new.doc }
    ensures recorded { IsThinRecorded map.old map.new }
    ensures some { IfOk result (λ n. MatchOption map.new.last (n ≡ 0) (λ made. 1 ≤ n)) }
    ensures next { map.new.next ≡ map.old.next }
    ensures places { map.new.places ≡ map.old.places }
    ensures few { map.new.tests ≤ most_for_thin (times_by map.old.cells) t map.old.doc }
    ensures cells { map.new.cells ≡ map.old.cells }
{
    map.begin_edit();
    let vertices = map.vertices()?;
    let ascending = vertices.as_slice();
    let mut removed = 0;
    for p in ascending {
        match thin_at(map, t, *p) {
            Ok(true) => removed += 1,
            Ok(false) => {}
            Err(error) => return Err(error),
        }
    }
    Ok(removed)
}
