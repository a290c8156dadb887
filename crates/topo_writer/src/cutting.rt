//! Ways and rings, cut at junctions (TopoJSON 1.0, 2.1.3).
ghost use Rattle.std.specs.Prelude.{◌≡◌, ◌+◌, ◌-◌, ◌<◌, ◌≤◌, ◌||◌, ◌++◌, ◌∷◌, [], map, drop, take, length};
ghost use Rattle.std.specs.Prelude.{if◌then◌else◌, Bool, List, true, false, get_or, OnOk, IfOk};
ghost use Rattle.grid_geometry.specs.Common.{Position};
ghost use Rattle.map_text.specs.Common.{begun, pieces};
ghost use Rattle.topo_writer.specs.Ways.{cut_between, cut_after, is_done, Rising};

use grid_geometry::Pos;
use std::alloc::{AllocError, Allocator, Global};
use std::marker::Model;

/// A ring that is cut, which is seen as its pieces: a way round it, and the places of the way at
/// which it is cut, the first and the last one among them.
#[derive(Drop)]
pub(crate) struct CutRing<A: Allocator + Copy = Global> {
    way: Vec<Pos, A>,
    cuts: Vec<usize, A>,
}

impl<A: Allocator + Copy> Model for CutRing<A> {
    ghost use Rattle.std.specs.Prelude.{List, length};
    ghost use Rattle.std.specs.Coded.{coded_list};
    ghost use Rattle.grid_geometry.specs.Position.{Position};
    ghost use Rattle.vertex_index.specs.Placement.{position_code};

    ghost Value = { List (List Position) };

    ghost coded = { coded_list (coded_list position_code) };

    ghost use Rattle.topo_writer.specs.Ways.{cut_between, Rising};

    ghost view = { λ r. cut_between r.way.items r.cuts.items };

    ghost invariant = { λ r. Rising (length r.way.items) r.cuts.items };
}

impl<A: Allocator + Copy> CutRing<A> {
    /// How many pieces it has.
    pub(crate) fn len(&self) -> usize
        ensures { result ≡ length self.now }
    {
        self.cuts.len().saturating_sub(1)
    }

    /// The piece with this number.
    pub(crate) fn piece(&self, i: usize) -> &[Pos]
        requires { i < length self.now }
        ensures { result.now ≡ get_or self.now i result.now }
    {
        part(self.way.as_slice(), self.cuts[i], self.cuts[i + 1])
    }
}

/// The part of a way between two places, with both its ends.
fn part(way: &[Pos], from: usize, to: usize) -> &[Pos]
    requires rising { from ≤ to }
    requires there { to < length way.now }
    ensures { result.now ≡ take (to + 1 - from) (drop from way.now) }
{
    &way[from..to + 1]
}

/// Whether a piece of the way, which is marked at its junctions, ends at a place.
fn ends_at(way: &[Pos], marks: &[bool], i: usize) -> bool
    requires way { i < length way.now }
    requires marks { i < length marks.now }
    ensures { result ≡ (is_done (drop (i + 1) way.now) || get_or marks.now i false) }
{
    i + 1 == way.len() || marks[i]
}

/// Notes a place where a piece ends there.
fn note_end<A: Allocator + Copy>(
    cuts: &mut Vec<usize, A>,
    i: usize,
    ends: bool,
) -> Result<(), AllocError>
    ensures { OnOk result (cuts.new.items
        ≡ cuts.old.items ++ (if ends then (i ∷ []) else [])) }
{
    if ends {
        cuts.push(i)?;
    }
    Ok(())
}

/// The places at which a way is cut that is marked at its junctions.
fn cut_way<A: Allocator + Copy>(
    alloc: A,
    way: &[Pos],
    marks: &[bool],
) -> Result<Vec<usize, A>, AllocError>
    requires long { 2 ≤ length way.now }
    requires marks { length marks.now ≡ length way.now }
    ensures rising { IfOk result (λ cuts. Rising (length way.now) cuts.items) }
    ensures pieces { IfOk result (λ cuts. (junction : Position → Bool)
        → marks.now ≡ map junction way.now
        → cut_between way.now cuts.items ≡ cut_after junction (take 1 way.now) (drop 1 way.now)) }
{
    let mut cuts = Vec::new(alloc);
    cuts.push(0)?;
    for i in 1..way.len() {
        let ends = ends_at(way, marks, i);
        note_end(&mut cuts, i, ends)?;
    }
    Ok(cuts)
}

/// The place of the first mark; the first place where there is none.
fn first_mark(marks: &[bool]) -> usize
    requires { 0 < length marks.now }
    ensures within { result < length marks.now }
    ensures begun { (junction : Position → Bool) (ring : List Position)
        → marks.now ≡ map junction ring
        → begun junction ring ≡ drop result ring ++ take result ring }
{
    for i in 0..marks.len() {
        if marks[i] {
            return i;
        }
    }
    0
}

/// The way round a ring from one of its places, and back to it.
fn way_round<T: Copy, A: Allocator + Copy>(
    alloc: A,
    ring: &[T],
    start: usize,
) -> Result<Vec<T, A>, AllocError>
    requires { start < length ring.now }
    ensures { IfOk result (λ way. way.items
        ≡ (drop start ring.now ++ take start ring.now) ++ take 1 (drop start ring.now)) }
{
    let mut way = Vec::with_capacity(alloc, ring.len().saturating_add(1))?;
    way.extend_from_slice(&ring[start..])?;
    way.extend_from_slice(&ring[..start])?;
    way.push(ring[start])?;
    Ok(way)
}

/// The pieces of a ring that is marked at its junctions, from the first of these on.
pub(crate) fn cut_ring<A: Allocator + Copy>(
    alloc: A,
    ring: &[Pos],
    marks: &[bool],
) -> Result<CutRing<A>, AllocError>
    requires { length marks.now ≡ length ring.now }
    ensures { IfOk result (λ cut. (junction : Position → Bool) → marks.now ≡ map junction ring.now
        → cut ≡ pieces junction ring.now) }
{
    if ring.is_empty() {
        return Ok(CutRing {
            way: Vec::new(alloc),
            cuts: Vec::new(alloc),
        });
    }
    let start = first_mark(marks);
    let way = way_round(alloc, ring, start)?;
    let marks = way_round(alloc, marks, start)?;
    let cuts = cut_way(alloc, way.as_slice(), marks.as_slice())?;
    Ok(CutRing { way, cuts })
}
