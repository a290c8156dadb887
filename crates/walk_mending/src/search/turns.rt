// On which segment a way goes on at each position, so that no two ways cross.
use grid_geometry::{Pos, Seg, orient};
use std::alloc::{AllocError, Allocator};
use std::cmp::Ordering;
use std::collections::BTreeMap;

/// By a position and the one before it on a way, the one after it.
pub(crate) type Turns<A> = BTreeMap<(Pos, Pos), Pos, A>;

/// A position of a walk, and its two neighbours there.
type Corner = (Pos, Seg);

/// Appends the corners of a walk, where the neighbours differ.
fn push_corners<A: Allocator>(
    corners: &mut Vec<Corner, A>,
    walk: &[Pos],
) -> Result<(), AllocError> {
    let before = walk.iter().rev().take(1).chain(walk);
    let after = walk.iter().skip(1).chain(walk);
    for ((before, at), after) in before.zip(walk).zip(after) {
        if let Some(neighbours) = Seg::new(*before, *after) {
            corners.push((*at, neighbours))?;
        }
    }
    Ok(())
}

/// The corners of walks, ascending.
fn corners<A: Allocator + Copy>(
    alloc: A,
    walks: &[Vec<Pos, A>],
) -> Result<Vec<Corner, A>, AllocError> {
    let mut corners = Vec::new(alloc);
    for walk in walks {
        push_corners(&mut corners, walk.as_slice())?;
    }
    corners.sort_unstable();
    Ok(corners)
}

/// Each segment from both of its ends, ascending.
fn spokes<A: Allocator + Copy>(alloc: A, odd: &[Seg]) -> Result<Vec<(Pos, Pos), A>, AllocError> {
    let mut spokes = Vec::new(alloc);
    for segment in odd {
        spokes.push((segment.lo, segment.hi))?;
        spokes.push((segment.hi, segment.lo))?;
    }
    spokes.sort_unstable();
    Ok(spokes)
}

/// Whether the other position is below this one, or as high and on its left.
fn is_low(at: Pos, other: Pos) -> bool {
    other.y() < at.y() || (other.y() == at.y() && other.x() < at.x())
}

/// The order in angle of two positions around a third one.
fn by_angle(at: Pos, p: Pos, q: Pos) -> Ordering {
    let halves = is_low(at, p).cmp(&is_low(at, q));
    halves.then(0.cmp(&orient(at, p, q)))
}

/// Whether two neighbours of a position are so on some walk.
fn is_corner(corners: &[Corner], at: Pos, p: Pos, q: Pos) -> bool {
    Seg::new(p, q).is_some_and(|neighbours| corners.binary_search(&(at, neighbours)).is_ok())
}

/// How many corners of walks are kept where neighbours are joined two by two.
fn count_kept(corners: &[Corner], at: Pos, around: &[Pos]) -> usize {
    let pairs = around.chunks(2);
    let kept = pairs.filter(|pair| matches!(pair, [p, q] if is_corner(corners, at, *p, *q)));
    kept.count()
}

/// Puts the neighbours of a position in the order in which they are joined two by two: in angle, so
/// that the joined ones do not cross; of the two ways the one that keeps more corners.
fn put_in_order<A: Allocator>(around: &mut Vec<Pos, A>, at: Pos, corners: &[Corner]) {
    around.sort_unstable_by(|p, q| by_angle(at, *p, *q));
    if around.is_empty() {
        return;
    }
    let kept = count_kept(corners, at, around.as_slice());
    around.rotate_left(1);
    if count_kept(corners, at, around.as_slice()) <= kept {
        around.rotate_right(1);
    }
}

/// Joins the neighbours of a position two by two.
fn join<A: Allocator + Copy>(
    turns: &mut Turns<A>,
    at: Pos,
    around: &[Pos],
) -> Result<(), AllocError> {
    for pair in around.chunks(2) {
        if let [p, q] = pair {
            turns.insert((at, *p), *q)?;
            turns.insert((at, *q), *p)?;
        }
    }
    Ok(())
}

/// The turns at a position, from which these spokes go out.
fn add_turns<A: Allocator + Copy>(
    alloc: A,
    turns: &mut Turns<A>,
    corners: &[Corner],
    spokes: &[(Pos, Pos)],
) -> Result<(), AllocError> {
    let [first, ..] = spokes else {
        return Ok(());
    };
    let at = first.0;
    let mut around = Vec::new(alloc);
    for spoke in spokes {
        around.push(spoke.1)?;
    }
    put_in_order(&mut around, at, corners);
    join(turns, at, around.as_slice())
}

/// The turns at all ends of these segments.
pub(crate) fn all_turns<A: Allocator + Copy>(
    alloc: A,
    walks: &[Vec<Pos, A>],
    odd: &[Seg],
) -> Result<Turns<A>, AllocError> {
    let corners = corners(alloc, walks)?;
    let spokes = spokes(alloc, odd)?;
    let mut turns = BTreeMap::new(alloc);
    for around in spokes.as_slice().chunk_by(|s, t| s.0 == t.0) {
        add_turns(alloc, &mut turns, corners.as_slice(), around)?;
    }
    Ok(turns)
}
