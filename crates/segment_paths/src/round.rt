// A round of the search: what is put in where links conflict.
ghost use Rattle.std.specs.Prelude.{◌≡◌, ◌⊎◌, List, IsTrue, IfErr, IfOk, OnOk, length};
ghost use Rattle.std.specs.List.{All};
ghost use Rattle.grid_geometry.specs.Common.{Segment};
ghost use Rattle.grid_geometry.specs.Conflict as geometry;
ghost use Rattle.segment_paths.specs.Faults.{IsPathFault};
ghost use Rattle.segment_paths.specs.Paths.{PathOfSegment, IsKnown};
ghost use Rattle.segment_paths.specs.Stops.{IsStop, IsPiece, AreOwners, AreWays, IsRound};

use crate::fault::PathFault;
use crate::link::Piece;
use crate::stop::{Stop, push_stop, sort_stops};
use crate::ways::{Ways, paths_of, room_after};
use crate::{meets_square, rounded_crossing};
use grid_geometry::{Pos, Seg, conflict, cross};
use segment_index::SegIndex;
use std::alloc::{AllocError, Allocator};

/// What a round finds: stops, which part links that conflict, and two segments whose paths have
/// such links, if there are any.
#[derive(Drop)]
pub(crate) struct Round<A: Allocator + Copy> {
    pub(crate) stops: Vec<Stop, A>,
    pub(crate) conflict: Option<(Seg, Seg)>,
}

/// Leads the path of a piece over a position, where it comes between the ends of the link and the
/// segment meets its square; tells whether.
fn join_end<A: Allocator + Copy>(
    stops: &mut Vec<Stop, A>,
    piece: &Piece,
    end: Pos,
) -> Result<bool, AllocError>
    ensures { OnOk result ((ss : List Segment) (paths : List PathOfSegment)
        → All (IsStop ss) stops.old.items → IsPiece ss paths piece.now → IsKnown ss end
        → All (IsStop ss) stops.new.items) }
{
    if !meets_square(piece.owner, end) {
        return Ok(false);
    }
    push_stop(stops, piece, end)
}

/// The same for both ends of another piece; tells whether it is led over one of them.
fn join_ends<A: Allocator + Copy>(
    stops: &mut Vec<Stop, A>,
    piece: &Piece,
    other: &Piece,
) -> Result<bool, AllocError>
    ensures { OnOk result ((ss : List Segment) (paths : List PathOfSegment)
        → All (IsStop ss) stops.old.items → IsPiece ss paths piece.now
        → IsPiece ss paths other.now → All (IsStop ss) stops.new.items) }
{
    let lesser = join_end(stops, piece, other.link.lo)?;
    let greater = join_end(stops, piece, other.link.hi)?;
    Ok(lesser || greater)
}

/// Parts two pieces whose links conflict: by the ends of the one that the other can be led over, or
/// else by the crossing of both segments.
fn part<A: Allocator + Copy>(
    stops: &mut Vec<Stop, A>,
    one: &Piece,
    other: &Piece,
) -> Result<(), AllocError>
    ensures { OnOk result ((ss : List Segment) (paths : List PathOfSegment)
        → All (IsStop ss) stops.old.items → IsPiece ss paths one.now → IsPiece ss paths other.now
        → All (IsStop ss) stops.new.items) }
{
    let ends = join_ends(stops, one, other)?;
    let others = join_ends(stops, other, one)?;
    if !ends && !others && cross(one.owner, other.owner) {
        let crossing = rounded_crossing(one.owner, other.owner);
        push_stop(stops, one, crossing)?;
        push_stop(stops, other, crossing)?;
    }
    Ok(())
}

/// Parts a piece and each of the others.
fn part_from_each<A: Allocator + Copy>(
    stops: &mut Vec<Stop, A>,
    one: &Piece,
    others: &[Piece],
) -> Result<(), AllocError>
    ensures { OnOk result ((ss : List Segment) (paths : List PathOfSegment)
        → All (IsStop ss) stops.old.items → IsPiece ss paths one.now
        → All (IsPiece ss paths) others.now → All (IsStop ss) stops.new.items) }
{
    for other in others {
        part(stops, one, other)?;
    }
    Ok(())
}

/// Parts each piece and each of the others.
fn part_all<A: Allocator + Copy>(
    stops: &mut Vec<Stop, A>,
    ones: &[Piece],
    others: &[Piece],
) -> Result<(), AllocError>
    ensures { OnOk result ((ss : List Segment) (paths : List PathOfSegment)
        → All (IsStop ss) stops.old.items → All (IsPiece ss paths) ones.now
        → All (IsPiece ss paths) others.now → All (IsStop ss) stops.new.items) }
{
    for one in ones {
        part_from_each(stops, one, others)?;
    }
    Ok(())
}

/// The segments of the first pieces of both lists, in the place of an older pair; the older pair
/// where a list has none.
fn owners_of(old: Option<(Seg, Seg)>, ones: &[Piece], others: &[Piece]) -> Option<(Seg, Seg)>
    ensures one { length ones.now ≡ 0 → result ≡ old }
    ensures other { length others.now ≡ 0 → result ≡ old }
    ensures owners { (result ≡ old) ⊎ AreOwners ones.now others.now result }
{
    match (ones.first(), others.first()) {
        (Some(one), Some(other)) => Some((one.owner, other.owner)),
        _ => old,
    }
}

impl<A: Allocator + Copy> Round<A> {
    /// Parts the paths that have one of two links that conflict from those that have the other.
    fn part_links(
        &mut self,
        alloc: A,
        ways: &Ways<'_, A>,
        one: Seg,
        other: Seg,
    ) -> Result<(), AllocError>
        requires { IsTrue (geometry.conflict one other) }
        ensures { OnOk result (IsRound ways.now self.old → IsRound ways.now self.new) }
    {
        let ones = ways.pieces_of(alloc, one)?;
        let others = ways.pieces_of(alloc, other)?;
        self.conflict = owners_of(self.conflict, ones.as_slice(), others.as_slice());
        part_all(&mut self.stops, ones.as_slice(), others.as_slice())?;
        Ok(())
    }

    /// Parts the paths of a link from those of each link near it that conflicts with it.
    fn part_near(
        &mut self,
        alloc: A,
        ways: &Ways<'_, A>,
        link: Seg,
        near: &[Seg],
    ) -> Result<(), AllocError>
        ensures { OnOk result (IsRound ways.now self.old → IsRound ways.now self.new) }
    {
        for other in near {
            if conflict(link, *other) {
                self.part_links(alloc, ways, link, *other)?;
            }
        }
        Ok(())
    }

    /// Sorts the stops, where there are many; fails where paths over them alone put in more than
    /// `most` positions.
    fn keep_few(&mut self, alloc: A, most: usize) -> Result<(), PathFault>
        ensures stops { OnOk result ((ss : List Segment) → All (IsStop ss) self.old.stops.items
            → All (IsStop ss) self.new.stops.items) }
        ensures conflict { OnOk result (self.new.conflict ≡ self.old.conflict) }
        ensures fault { IfErr result (λ fault. (ss : List Segment)
            → All (IsStop ss) self.old.stops.items → IsPathFault ss most fault) }
    {
        if self.stops.len() / 4 <= most {
            return Ok(());
        }
        sort_stops(&mut self.stops);
        let paths = paths_of(alloc, self.stops.as_slice())?;
        match room_after(paths.as_slice(), most) {
            Some(_) => Ok(()),
            None => Err(PathFault::TooMany),
        }
    }
}

/// One round: parts the paths of each of these links from those of the links in the index that
/// conflict with it, and puts the link into the index. Fails where more than `most` positions would
/// be put in.
pub(crate) fn play<I: SegIndex, A: Allocator + Copy>(
    alloc: A,
    index: &mut I,
    ways: &Ways<'_, A>,
    fresh: &[Seg],
    most: usize,
) -> Result<Round<A>, PathFault>
    ensures round { IfOk result (IsRound ways.now) }
    ensures fault { IfErr result (λ fault. (ss : List Segment) → AreWays ss ways.now
        → IsPathFault ss most fault) }
{
    let mut round = Round {
        stops: Vec::new(alloc),
        conflict: None,
    };
    let mut near = Vec::new(alloc);
    for link in fresh {
        near.clear();
        index.candidates(link.rect(), &mut near)?;
        round.part_near(alloc, ways, *link, near.as_slice())?;
        if !near.contains(link) {
            index.add(*link)?;
        }
        round.keep_few(alloc, most)?;
    }
    Ok(round)
}

/// The links that come into a path which did not have them, ascending, each once. Such a link may
/// have been in another path before, and conflict only now.
pub(crate) fn fresh_links<A: Allocator + Copy>(
    alloc: A,
    old: &[Piece],
    new: &[Piece],
) -> Result<Vec<Seg, A>, AllocError> {
    let came = new
        .iter()
        .filter(|piece| old.binary_search(*piece).is_err());
    let mut fresh: Vec<Seg, A> = came.map(|piece| piece.link).collect(alloc)?;
    fresh.dedup();
    Ok(fresh)
}
