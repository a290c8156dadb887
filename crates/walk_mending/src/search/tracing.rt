// Closed ways along segments, cut where they come to a position again.
use crate::search::turns::{Turns, all_turns};
use crate::simple::LEAST;
use grid_geometry::{Pos, Seg};
use std::alloc::{AllocError, Allocator};
use std::collections::BTreeSet;

/// The closed way from an edge on, along segments that are left, which are taken out.
fn way_from<A: Allocator + Copy>(
    alloc: A,
    turns: &Turns<A>,
    left: &mut BTreeSet<Seg, A>,
    edge: (Pos, Pos),
) -> Result<Vec<Pos, A>, AllocError> {
    let mut way = Vec::new(alloc);
    let (mut from, mut to) = edge;
    let most = left.len();
    for _ in 0..most {
        if !Seg::new(from, to).is_some_and(|segment| left.remove(&segment)) {
            break;
        }
        way.push(from)?;
        let Some(next) = turns.get(&(to, from)) else {
            break;
        };
        from = to;
        to = *next;
    }
    Ok(way)
}

/// Takes off what follows this position: a closed way that begins there.
fn cut_off<A: Allocator + Copy>(
    alloc: A,
    stack: &mut Vec<Pos, A>,
    passed: &mut BTreeSet<Pos, A>,
    pos: Pos,
) -> Result<Vec<Pos, A>, AllocError> {
    let mut ring = Vec::new(alloc);
    while let Some(last) = stack.pop() {
        if last == pos {
            break;
        }
        passed.remove(&last);
        ring.push(last)?;
    }
    stack.push(pos)?;
    ring.push(pos)?;
    ring.reverse();
    Ok(ring)
}

/// Appends the closed ways of three positions or more into which one is cut where it comes to a
/// position again.
fn push_loops<A: Allocator + Copy>(
    alloc: A,
    ways: &mut Vec<Vec<Pos, A>, A>,
    way: &[Pos],
) -> Result<(), AllocError> {
    let mut stack = Vec::new(alloc);
    let mut passed = BTreeSet::new(alloc);
    for pos in way {
        if passed.insert(*pos)? {
            stack.push(*pos)?;
        } else {
            let ring = cut_off(alloc, &mut stack, &mut passed, *pos)?;
            if ring.len() >= LEAST {
                ways.push(ring)?;
            }
        }
    }
    if stack.len() >= LEAST {
        ways.push(stack)?;
    }
    Ok(())
}

/// Appends the closed ways that begin along a walk.
fn push_along<A: Allocator + Copy>(
    alloc: A,
    ways: &mut Vec<Vec<Pos, A>, A>,
    turns: &Turns<A>,
    left: &mut BTreeSet<Seg, A>,
    walk: &[Pos],
) -> Result<(), AllocError> {
    for (from, to) in walk.iter().zip(walk.iter().skip(1).chain(walk)) {
        let way = way_from(alloc, turns, left, (*from, *to))?;
        push_loops(alloc, ways, way.as_slice())?;
    }
    Ok(())
}

/// The segments as a set.
fn set_of<A: Allocator + Copy>(alloc: A, odd: &[Seg]) -> Result<BTreeSet<Seg, A>, AllocError> {
    let mut left = BTreeSet::new(alloc);
    for segment in odd {
        left.insert(*segment)?;
    }
    Ok(left)
}

/// Closed ways over these segments, each once, of which none passes a position twice and no two
/// cross. They begin along the walks, in their directions.
pub(crate) fn traced<A: Allocator + Copy>(
    alloc: A,
    walks: &[Vec<Pos, A>],
    odd: &[Seg],
) -> Result<Vec<Vec<Pos, A>, A>, AllocError> {
    let turns = all_turns(alloc, walks, odd)?;
    let mut left = set_of(alloc, odd)?;
    let mut ways = Vec::new(alloc);
    for walk in walks {
        push_along(alloc, &mut ways, &turns, &mut left, walk.as_slice())?;
    }
    Ok(ways)
}
