//! Laying a ring along its keys: over the arcs that have its segments, and over new ones.
ghost use Rattle.std.specs.Prelude.{◌≡◌, ◌≢◌, ℕ, ◌<◌, ◌≤◌, ◌+◌, ◌-◌, OnOk, OnErr, IfOk, IfSome};
ghost use Rattle.std.specs.Prelude.{true, false, None, take, length, get_or, reverse};
ghost use Rattle.std.specs.Prelude.{[], ◌∷◌, ◌++◌, ◌==◌};
ghost use Rattle.std.specs.List.{list_any};
ghost use Rattle.slab.specs.Slab.{get, ContainsKey};
ghost use Rattle.arc_tables.specs.Ways.{Starts, Takes, times, links, Grows, Keeps, OpenAt, Spoils};
ghost use Rattle.arc_tables.specs.Sound.{HoldsOneMore};
ghost use Rattle.arc_tables.specs.Stores.{users_in, uses_in, uses_arc, path_of, store};
ghost use Rattle.arc_tables.specs.Stores.{Whole, Known, SamePaths, SameRings, SameUsers, SameKeys};
ghost use Rattle.arc_tables.specs.Stores.{Advances, WholeWith, Learns, IsPlace, IsOpen};

use crate::arc::{Arc, Ring, Use};
use crate::place::{Place, agreed, agreed_back};
use crate::standing::{list_arc, note};
use crate::tables::Tables;
use slab::Slab;
use smallvec::SmallVec;
use std::alloc::{AllocError, Allocator};
use vertex_index::VertexKey;

/// A new arc ends where it has so many keys.
const LONGEST: usize = 64;

/// How many keys an arc of two gets room for when it goes on.
const ROOM: usize = 14;

/// Whether some use is of arc `i`.
fn has_use(uses: &[Use], i: usize) -> bool
    ensures { result ≡ uses_arc i uses.now }
{
    for u in uses {
        if u.arc == i {
            return true;
        }
    }
    false
}

/// Whether arc `i` knows ring `r`, by the shorter list: that of the arc's rings or that of the ring's
/// uses.
fn is_known<A: Allocator + Copy>(
    arcs: &Slab<Arc<A>, A>,
    rings: &Slab<Ring<A>, A>,
    i: usize,
    r: usize,
) -> bool
    requires arc_there { ContainsKey arcs.now i }
    requires there { ContainsKey rings.now r }
    requires known { Known arcs.now rings.now }
    ensures { result ≡ list_any (λ k. k == r) (users_in (get arcs.now i)) }
{
    let users = arcs.get(i).unwrap().rings.as_slice();
    let uses = rings.get(r).unwrap().uses.as_slice();
    if uses.len() < users.len() {
        return has_use(uses, i);
    }
    users.contains(&r)
}

/// Arc `i` learns that ring `r` uses it, unless it knows.
fn learn<A: Allocator + Copy>(
    arcs: &mut Slab<Arc<A>, A>,
    i: usize,
    r: usize,
    known: bool,
) -> Result<(), AllocError>
    requires there { ContainsKey arcs.old i }
    requires known { known ≡ list_any (λ k. k == r) (users_in (get arcs.old i)) }
    ensures paths { SamePaths arcs.old arcs.new }
    ensures ok { OnOk result (Learns arcs.old arcs.new i r) }
    ensures err { OnErr result (SameUsers arcs.old arcs.new) }
{
    if known {
        return Ok(());
    }
    let arc = arcs.get_mut(i).unwrap();
    arc.rings.push(r)?;
    Ok(())
}

/// Appends the next key of an arc. Most arcs have two keys or several: so room for several is taken at
/// once, after the second.
fn push_key<A: Allocator + Copy>(
    keys: &mut Vec<VertexKey, A>,
    k: VertexKey,
) -> Result<(), AllocError>
    ensures ok { OnOk result (keys.new.items ≡ keys.old.items ++ k ∷ []) }
    ensures err { OnErr result (keys.new.items ≡ keys.old.items) }
{
    if keys.len() == 2 {
        keys.reserve(ROOM)?;
    }
    keys.push(k)?;
    Ok(())
}

/// How many keys a ring went on by, and the arc that is being made.
#[derive(Clone, Copy)]
pub(crate) struct Piece {
    keys: usize,
    making: Option<usize>,
}

impl<A: Allocator + Copy> Tables<A> {
    /// Ring `r` goes on along a new arc from `a` to `b`.
    fn start(&mut self, r: usize, a: VertexKey, b: VertexKey) -> Result<usize, AllocError>
        requires there { ContainsKey self.old.rings r }
        requires whole { Whole self.old }
        ensures ok { IfOk result (λ n. Starts r n a b (store self.old) (store self.new)) }
        ensures whole { Whole self.new }
        ensures new_there { IfOk result (λ n. ContainsKey self.new.arcs n) }
        ensures err { OnErr result (SamePaths self.old.arcs self.new.arcs) }
        ensures err_rings { OnErr result (SameRings self.old.rings self.new.rings) }
        ensures held { SameKeys self.old.rings self.new.rings }
    {
        self.arcs.reserve(1)?;
        let n = self.arcs.vacant_key();
        let keys = Vec::from_slice(self.alloc, &[a, b])?;
        note(self.heap, &mut self.stands, keys.as_slice(), n)?;
        let back = false;
        let ring = self.rings.get_mut(r).unwrap();
        ring.uses.push(Use { arc: n, back })?;
        let mut rings = SmallVec::new(self.heap);
        rings.push_reserved(r);
        self.arcs.insert_reserved(Arc { keys, rings });
        Ok(n)
    }

    /// Arc `n` goes on to `b`.
    fn extend(&mut self, n: usize, b: VertexKey) -> Result<(), AllocError>
        requires there { ContainsKey self.old.arcs n }
        requires whole { Whole self.old }
        ensures ok { OnOk result (path_of self.new n ≡ path_of self.old n ++ b ∷ []) }
        ensures others { (j : ℕ) → j ≢ n → get self.new.arcs j ≡ get self.old.arcs j }
        ensures err { OnErr result (SamePaths self.old.arcs self.new.arcs) }
        ensures rings { self.new.rings ≡ self.old.rings }
        ensures users { SameUsers self.old.arcs self.new.arcs }
        ensures whole { Whole self.new }
    {
        list_arc(self.heap, &mut self.stands, b, n)?;
        let arc = self.arcs.get_mut(n).unwrap();
        push_key(&mut arc.keys, b)?;
        Ok(())
    }

    /// Ring `r` goes on along the whole of arc `i`, or of its reverse.
    fn go_along(&mut self, r: usize, i: usize, back: bool) -> Result<(), AllocError>
        requires { WholeWith self.old r i }
        ensures ok { OnOk result (Takes r i back (store self.old) (store self.new)) }
        ensures whole { Whole self.new }
        ensures err { OnErr result (SamePaths self.old.arcs self.new.arcs) }
        ensures err_rings { OnErr result (SameRings self.old.rings self.new.rings) }
        ensures arcs_there { (j : ℕ) → ContainsKey self.old.arcs j → ContainsKey self.new.arcs j }
        ensures held { SameKeys self.old.rings self.new.rings }
    {
        let known = is_known(&self.arcs, &self.rings, i, r);
        let ring = self.rings.get_mut(r).unwrap();
        ring.uses.reserve(1)?;
        learn(&mut self.arcs, i, r, known)?;
        ring.uses.push_reserved(Use { arc: i, back });
        Ok(())
    }

    /// Ring `r` goes on along arc `i` as far as the arc agrees with these keys, and the arc is cut
    /// there.
    fn run(&mut self, r: usize, i: usize, keys: &[VertexKey]) -> Result<usize, AllocError>
        requires there { WholeWith self.old r i }
        requires arc_two { 2 ≤ length (path_of self.old i) }
        requires two { 2 ≤ length keys.now }
        requires agrees { take 2 (path_of self.old i) ≡ take 2 keys.now }
        ensures { Advances r keys.now result (λ m. m) self.old self.new }
    {
        let m = agreed(self.arcs.get(i).unwrap().keys.as_slice(), keys);
        self.end_at(i, m)?;
        self.go_along(r, i, false)?;
        Ok(m)
    }

    /// Ring `r` goes on along the reverse of arc `i` as far as both agree, and the arc is cut
    /// there.
    fn run_back(&mut self, r: usize, i: usize, keys: &[VertexKey]) -> Result<usize, AllocError>
        requires there { WholeWith self.old r i }
        requires arc_two { 2 ≤ length (path_of self.old i) }
        requires two { 2 ≤ length keys.now }
        requires agrees { take 2 (reverse (path_of self.old i)) ≡ take 2 keys.now }
        ensures { Advances r keys.now result (λ m. m) self.old self.new }
    {
        let path = self.arcs.get(i).unwrap().keys.as_slice();
        let len = path.len();
        let m = agreed_back(self.alloc, path, keys)?;
        let n = self.begin_at(i, len - m)?;
        self.go_along(r, n, true)?;
        Ok(m)
    }

    /// Ring `r` goes on along an arc that has the first segment of these keys, as far as both
    /// agree.
    fn go_shared(&mut self, r: usize, place: Place, keys: &[VertexKey]) -> Result<usize, AllocError>
        requires there { WholeWith self.old r place.arc }
        requires two { 2 ≤ length keys.now }
        requires place { IsPlace (path_of self.old place.arc) place.at false
            (get_or keys.now 0 0) (get_or keys.now 1 0) }
        ensures { Advances r keys.now result (λ m. m) self.old self.new }
    {
        let n = self.begin_at(place.arc, place.at)?;
        self.run(r, n, keys)
    }

    /// Ring `r` goes on along the reverse of an arc, as far as both agree.
    fn go_back(&mut self, r: usize, place: Place, keys: &[VertexKey]) -> Result<usize, AllocError>
        requires there { WholeWith self.old r place.arc }
        requires two { 2 ≤ length keys.now }
        requires place { IsPlace (path_of self.old place.arc) place.at true
            (get_or keys.now 0 0) (get_or keys.now 1 0) }
        ensures { Advances r keys.now result (λ m. m) self.old self.new }
    {
        self.end_at(place.arc, place.at + 2)?;
        self.run_back(r, place.arc, keys)
    }

    /// Ring `r` goes on from the first of these keys along a segment that is new.
    fn go_new(
        &mut self,
        r: usize,
        making: Option<usize>,
        a: VertexKey,
        b: VertexKey,
    ) -> Result<usize, AllocError>
        requires there { ContainsKey self.old.rings r }
        requires whole { Whole self.old }
        requires making { IsOpen self.old r making a }
        requires making_there { IfSome making (λ n. ContainsKey self.old.arcs n) }
        requires new { (j : ℕ) → times a b (links (path_of self.old j)) ≡ 0 }
        ensures advances { Advances r (a ∷ b ∷ []) result (λ n. 2) self.old self.new }
        ensures making { IfOk result (λ n. OpenAt (store self.new) r n b) }
        ensures making_there { IfOk result (λ n. ContainsKey self.new.arcs n) }
    {
        match making {
            Some(n) => {
                self.extend(n, b)?;
                Ok(n)
            }
            None => self.start(r, a, b),
        }
    }

    /// Arc `n`, which ends at `b`, where it may go on: it is not long, and new arcs do not end
    /// at `b`.
    fn left_open(&self, n: usize, b: VertexKey) -> Option<usize>
        ensures { IfSome result (λ m. m ≡ n) }
    {
        let len = self.arcs.get(n)?.keys.len();
        let is_end = self.ends.get(b.index()).is_some_and(|ends| *ends);
        if len < LONGEST && !is_end {
            Some(n)
        } else {
            None
        }
    }

    /// Ring `r` goes on by one piece along these keys.
    fn go_piece(
        &mut self,
        r: usize,
        making: Option<usize>,
        keys: &[VertexKey],
    ) -> Result<Piece, AllocError>
        requires there { ContainsKey self.old.rings r }
        requires whole { Whole self.old }
        requires two { 2 ≤ length keys.now }
        requires making { IsOpen self.old r making (get_or keys.now 0 0) }
        requires making_there { IfSome making (λ n. ContainsKey self.old.arcs n) }
        ensures advances { Advances r keys.now result (λ p. p.keys) self.old self.new }
        ensures making { IfOk result
            (λ p. IsOpen self.new r p.making (get_or keys.now (p.keys - 1) 0)) }
        ensures making_there { IfOk result
            (λ p. IfSome p.making (λ n. ContainsKey self.new.arcs n)) }
    {
        let (a, b) = (keys[0], keys[1]);
        match self.find(a, b) {
            Some(place) if place.back => Ok(Piece {
                keys: self.go_back(r, place, keys)?,
                making: None,
            }),
            Some(place) => Ok(Piece {
                keys: self.go_shared(r, place, keys)?,
                making: None,
            }),
            None => {
                let n = self.go_new(r, making, a, b)?;
                Ok(Piece {
                    keys: 2,
                    making: self.left_open(n, b),
                })
            }
        }
    }

    /// Lays ring `r`, which is empty, along these keys.
    pub(crate) fn lay(&mut self, r: usize, keys: &[VertexKey]) -> Result<(), AllocError>
        requires there { ContainsKey self.old.rings r }
        requires whole { Whole self.old }
        requires empty { uses_in (get self.old.rings r) ≡ [] }
        requires some { 1 ≤ length keys.now }
        ensures ok { OnOk result (Grows r (links keys.now) (store self.old) (store self.new)) }
        ensures err { OnErr result (Spoils r (store self.old) (store self.new)) }
        ensures whole { Whole self.new }
        ensures held { SameKeys self.old.rings self.new.rings }
    {
        let mut at = 0usize;
        let mut making = None;
        while at + 1 < keys.len() {
            let piece = self.go_piece(r, making, &keys[at..])?;
            at += piece.keys - 1;
            making = piece.making;
        }
        Ok(())
    }

    /// A new ring along these keys, the first of which comes again as the last. Fails only on
    /// allocation failure, and then no ring has changed.
    pub fn add_ring(&mut self, keys: &[VertexKey]) -> Result<usize, AllocError>
        requires whole { Whole self.old }
        requires some { 1 ≤ length keys.now }
        ensures vacant { IfOk result (λ r. get self.old.rings r ≡ None) }
        ensures ok { IfOk result (λ r. Grows r (links keys.now) (store self.old) (store self.new)) }
        ensures held { IfOk result (λ r. HoldsOneMore self.old.rings self.new.rings r) }
        ensures err { OnErr result (Keeps (store self.old) (store self.new)) }
        ensures err_held { OnErr result (SameKeys self.old.rings self.new.rings) }
        ensures whole { Whole self.new }
    {
        self.rings.reserve(1)?;
        let r = self.rings.insert_reserved(Ring {
            uses: Vec::new(self.alloc),
        });
        match self.lay(r, keys) {
            Ok(()) => Ok(r),
            Err(e) => {
                self.take_out(r);
                Err(e)
            }
        }
    }
}
