// Rings in their canonical rotation.
ghost use Rattle.std.specs.Prelude.{◌≡◌, ◌≤◌, IfOk, length, drop, take, ◌++◌};
ghost use Rattle.ring_machine.specs.Common.{before, canonical};

use grid_geometry::Pos;
use std::alloc::{AllocError, Allocator};

/// How many positions stand before the first one that is equal to `pos`.
#[tactic(auto, using(crate::proofs::Turning::before_turn, crate::proofs::Turning::before_done))]
pub(crate) fn count_before(pos: Pos, ring: &[Pos]) -> usize
    ensures value { result ≡ length (before pos ring.now) }
    ensures within { result ≤ length ring.now }
{
    let mut count = 0;
    for one in ring {
        if *one == pos {
            return count;
        }
        count += 1;
    }
    count
}

/// Turns a ring so that it begins at `place`, by three reversals, which need no room.
fn turn_left(ring: &mut [Pos], place: usize)
    requires { place ≤ length ring.old }
    ensures { ring.new ≡ drop place ring.old ++ take place ring.old }
{
    if place > 0 {
        ring[..place].reverse();
        ring[place..].reverse();
        ring.reverse();
    }
}

/// Turns a ring so that it begins at its least position, with its direction kept.
pub fn begin_at_least(ring: &mut [Pos])
    ensures { ring.new ≡ canonical ring.old }
{
    if let Some(least) = ring
        .iter()
        .copied()
        .reduce(|q, p| if p < q { p } else { q })
    {
        let place = count_before(least, ring);
        turn_left(ring, place);
    }
}

/// The ring begun at its least position, with its direction kept.
pub fn canonical<A: Allocator + Copy>(alloc: A, ring: &[Pos]) -> Result<Vec<Pos, A>, AllocError>
    ensures { IfOk result (λ turned. turned.items ≡ canonical ring.now) }
{
    let mut turned = Vec::from_slice(alloc, ring)?;
    begin_at_least(&mut turned);
    Ok(turned)
}
