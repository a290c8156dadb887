// The features at a position, by the segments that count for it as far as the boxes that have it.
ghost use Rattle.std.specs.Prelude.{◌≡◌, ◌≤◌, ◌⊎◌, true, int_le, unsigned_abs, Contains, IfOk, IsTrue};
ghost use Rattle.std.specs.Prelude.{OnOk, IfSome};
ghost use Rattle.std.specs.List.{filter, list_any};
ghost use Rattle.std.specs.List.Sorted.{IsPermutation};
ghost use Rattle.ring_machine.specs.Common.{rings, is_segment};
ghost use Rattle.ring_machine.specs.Query as query;
ghost use Rattle.point_queries.specs.Common.{CoversRings};
ghost use Rattle.point_queries.specs.Odd as odd;
ghost use Rattle.map_frame.specs.declared.names.RingName.{RingName};
ghost use Rattle.point_queries.specs.Near.{ray_to, ray_back, is_behind, AreBehind, ListsUnseen, Cancels, HaveOdd};
ghost use Rattle.point_queries.specs.Users.{AreSegments};

use crate::border::border_at;
use crate::inside::{inside_at, inside_of};
use crate::numbers::{At, Numbers};
use crate::odd::passed_rings;
use crate::ring_boxes::RingBoxes;
use arc_store::{Map, RingName};
use grid_geometry::{Pos, Rect, Seg, counts};
use segment_index::SegIndex;
use std::alloc::{AllocError, Allocator};

/// Where more rings than these may hold a position, the whole way to the right is asked, since names
/// are compared one by one.
const MANY: usize = 64;

/// The box of the ray from p to x.
fn ray_to(p: Pos, x: i64) -> Rect
    requires ahead { int_le p.x x ≡ true }
    requires range { unsigned_abs x ≤ 1000000000000 }
    ensures { result ≡ ray_to p x }
{
    Rect {
        x0: p.x(),
        y0: p.y(),
        x1: x,
        y1: p.y(),
    }
}

/// Sorts the names, so that those of one ring stand together.
fn sort_names<A: Allocator + Copy>(names: &mut Vec<RingName, A>)
    ensures { IsPermutation names.old.items names.new.items }
{
    names.sort_unstable_by_key(|name| (name.feature, name.polygon, name.ring));
}

/// Takes the name off the end where it stands there, and else puts it there.
fn cancel<A: Allocator + Copy>(
    names: &mut Vec<RingName, A>,
    name: RingName,
) -> Result<(), AllocError>
    ensures odds { OnOk result (Cancels name names.old.items names.new.items) }
    ensures among { OnOk result ((x : RingName) → Contains names.new.items x
        → (x ≡ name) ⊎ Contains names.old.items x) }
{
    match names.pop() {
        None => names.push(name)?,
        Some(last) if last == name => {}
        Some(last) => {
            names.push(last)?;
            names.push(name)?;
        }
    }
    Ok(())
}

/// The names that stand among these an odd number of times; each once, where those of one ring
/// stand together.
fn odd_names<A: Allocator + Copy>(
    alloc: A,
    names: &[RingName],
) -> Result<Vec<RingName, A>, AllocError>
    ensures { IfOk result (λ found. HaveOdd names.now found.items) }
{
    let mut found = Vec::new(alloc);
    for name in names {
        cancel(&mut found, *name)?;
    }
    Ok(found)
}

/// The box of the ray from p to the left, as far as x.
fn ray_back(p: Pos, x: i64) -> Rect
    requires behind { int_le x p.x ≡ true }
    requires range { unsigned_abs x ≤ 1000000000000 }
    ensures { result ≡ ray_back p x }
{
    Rect {
        x0: x,
        y0: p.y(),
        x1: p.x(),
        y1: p.y(),
    }
}

/// Whether a segment passes the level of p behind it: one end alone is above p, and it doesn't count.
fn is_behind(p: Pos, s: Seg) -> bool
    ensures { result ≡ is_behind p s }
{
    (p.y() < s.lo.y()) != (p.y() < s.hi.y()) && !counts(p, s.lo, s.hi)
}

/// Whether each of these names is among others.
fn has_each(others: &[RingName], names: &[RingName]) -> bool
    ensures { IsTrue result → (name : RingName) → Contains names.now name → Contains others.now name }
{
    for name in names {
        if !others.contains(name) {
            return false;
        }
    }
    true
}

/// Appends the rings that have a segment, unless each of the suspects is there already.
fn push_unseen<'a, I: SegIndex, A: Allocator + Copy>(
    map: &Map<'a, I, A>,
    s: Seg,
    suspects: &[RingName],
    names: &mut Vec<RingName, A>,
) -> Result<(), AllocError>
    requires { IsTrue (is_segment map.now.doc s) }
    ensures { OnOk result (ListsUnseen map.now.doc s suspects.now names.old.items names.new.items) }
{
    if has_each(names.as_slice(), suspects) {
        return Ok(());
    }
    map.push_rings_of(s, names)
}

/// The rings that have one of those of these segments which pass the level of p behind it, until
/// each of the suspects is among them.
fn rings_behind<'a, I: SegIndex, A: Allocator + Copy>(
    alloc: A,
    map: &Map<'a, I, A>,
    p: Pos,
    near: &[Seg],
    suspects: &[RingName],
) -> Result<Vec<RingName, A>, AllocError>
    requires { AreSegments map.now.doc near.now }
    ensures { IfOk result (λ names. AreBehind map.now.doc p suspects.now near.now names.items) }
{
    let mut names = Vec::new(alloc);
    for s in near {
        if is_behind(p, *s) {
            push_unseen(map, *s, suspects, &mut names)?;
        }
    }
    Ok(names)
}

/// Those of these names that are among others.
fn common<A: Allocator + Copy>(
    alloc: A,
    names: &[RingName],
    others: &[RingName],
) -> Result<Vec<RingName, A>, AllocError>
    ensures { IfOk result
        (λ found. found.items ≡ filter (λ name. list_any (λ other. odd.is_name other name) others.now) names.now) }
{
    let mut found = Vec::new(alloc);
    for name in names {
        if others.contains(name) {
            found.push(*name)?;
        }
    }
    Ok(found)
}

/// The rings that hold p, each once; `None` where many may. A ring that holds p lies in a box that has
/// p: so an odd number of its segments count for p on the ray to the end of these boxes, and behind p
/// it passes the level of p at least once. A ring that the end of the ray cuts may have an odd number
/// there too, but if it passes the level of p on both sides of it, then its own box has p and ends
/// there at the latest.
fn near_rings<'a, I: SegIndex, A: Allocator + Copy>(
    alloc: A,
    map: &Map<'a, I, A>,
    boxes: &RingBoxes<A>,
    p: Pos,
) -> Result<Option<Vec<RingName, A>>, AllocError>
    requires { CoversRings boxes.now (rings map.now.doc) }
    ensures { IfOk result (λ found. IfSome found
        (λ found. odd.TellsInside map.now.doc p found.items)) }
{
    let _ = map.frame(); // it tells that each ring is one
    let bounds = boxes.around(p)?;
    let mut names = passed_rings(alloc, map, p, ray_to(p, bounds.x1))?;
    sort_names(&mut names);
    let suspects = odd_names(alloc, names.as_slice())?;
    if suspects.len() > MANY {
        return Ok(None);
    }
    let mut near = Vec::new(alloc);
    map.candidates(ray_back(p, bounds.x0), &mut near)?;
    let behind = rings_behind(alloc, map, p, near.as_slice(), suspects.as_slice())?;
    let found = common(alloc, suspects.as_slice(), behind.as_slice())?;
    Ok(Some(found))
}

/// The numbers of the features that hold p, off the borders, which have p on those of these
/// features.
fn inside_near<'a, I: SegIndex, A: Allocator + Copy>(
    alloc: A,
    map: &Map<'a, I, A>,
    boxes: &RingBoxes<A>,
    p: Pos,
    border: &[u32],
) -> Result<Numbers<A>, AllocError>
    requires covers { CoversRings boxes.now (rings map.now.doc) }
    requires border { border.now ≡ query.border_at map.now.doc p }
    ensures { IfOk result (λ found. found ≡ query.inside_at map.now.doc p) }
{
    let _ = map.frame(); // it tells that no two features have one number
    match near_rings(alloc, map, boxes, p)? {
        Some(names) => inside_of(alloc, map, names.as_slice(), border),
        None => inside_at(alloc, map, p, border),
    }
}

/// The features at p, as `at` finds them: those that hold it by the even-odd rule, off their borders
/// (RFC 7946, 3.1.6), and those on whose borders it lies. Each ring of the map has to lie in one of the
/// boxes, as in those that `boxes_of` makes. Reads the cells at p and those from it to the right and to
/// the left as far as the boxes that have p, and goes round no ring; where more than 64 rings may hold
/// p, it reads the cells to the edge of the map, as `at` does. Fails only on allocation failure.
pub fn at_near<'a, I: SegIndex, A: Allocator + Copy>(
    alloc: A,
    map: &Map<'a, I, A>,
    boxes: &RingBoxes<A>,
    p: Pos,
) -> Result<At<A>, AllocError>
    requires { CoversRings boxes.now (rings map.now.doc) }
    ensures inside { IfOk result (λ at. at.inside ≡ query.inside_at map.now.doc p) }
    ensures border { IfOk result (λ at. at.border ≡ query.border_at map.now.doc p) }
{
    let border = border_at(alloc, map, p)?;
    let inside = inside_near(alloc, map, boxes, p, border.0.as_slice())?;
    Ok(At { inside, border })
}
