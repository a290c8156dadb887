// The paths so far.
ghost use Rattle.std.specs.Prelude.{◌≡◌, ◌≤◌, ◌<◌, ◌+◌, [], List, Contains, IsTrue, IfOk, OnOk};
ghost use Rattle.std.specs.Prelude.{length, take_while, ◌++◌, ◌∷◌, ◌<ℤ◌, MatchOption};
ghost use Rattle.std.specs.List.Sorted.{IsStrictlySortedBy};
ghost use Rattle.std.specs.List.{All};
ghost use Rattle.grid_geometry.specs.Common.{Segment, segment_cmp, segment_eq, segment_lt};
ghost use Rattle.segment_paths.specs.Near.{is_near, along};
ghost use Rattle.segment_paths.specs.Paths as spec;
ghost use Rattle.segment_paths.specs.Paths.{IsKnown, IsWay, ArePaths, segments_with_path};
ghost use Rattle.segment_paths.specs.Paths.{inner_positions};
ghost use Rattle.segment_paths.specs.Seen.{paths_seen};
ghost use Rattle.segment_paths.specs.Stops.{IsStop, IsPiece, IsLinkOf, AreWays};

use crate::link::{Piece, links_of, push_pieces};
use crate::path::{SegmentPath, positions_between};
use crate::stop::{Stop, sort_stops};
use crate::{along, is_near};
use grid_geometry::{Pos, Seg};
use std::alloc::{AllocError, Allocator};

/// The paths so far of ascending segments: the stops of all of them, sorted; the paths of the
/// segments that have stops, ascending; and the links of these paths, sorted.
#[derive(Drop)]
pub(crate) struct Ways<'s, A: Allocator + Copy> {
    pub(crate) segments: &'s [Seg],
    pub(crate) stops: Vec<Stop, A>,
    pub(crate) paths: Vec<SegmentPath<A>, A>,
    pub(crate) links: Vec<Piece, A>,
}

/// Whether a position is near the segment and comes between two others along it.
fn comes_next(segment: Seg, last: Pos, pos: Pos, end: Pos) -> bool
    ensures near { IsTrue result → IsTrue (is_near pos segment) }
    ensures after { IsTrue result → along segment last <ℤ along segment pos }
    ensures before { IsTrue result → along segment pos <ℤ along segment end }
{
    let at = along(segment, pos);
    if at <= along(segment, last) {
        return false;
    }
    at < along(segment, end) && is_near(pos, segment)
}

/// The positions of sorted stops of one segment, from its lesser end on.
fn inner_of<A: Allocator + Copy>(
    alloc: A,
    segment: Seg,
    stops: &[Stop],
) -> Result<Vec<Pos, A>, AllocError>
    ensures way { IfOk result (λ inner. 0 < length inner.items → IsWay segment inner.items) }
    ensures known { IfOk result (λ inner. (ss : List Segment) → All (IsStop ss) stops.now
        → All (IsKnown ss) inner.items) }
{
    let mut inner = Vec::new(alloc);
    let mut last = segment.lo;
    let end = segment.hi;
    for stop in stops {
        let pos = stop.pos;
        if comes_next(segment, last, pos, end) {
            inner.push(pos)?;
            last = pos;
        }
    }
    Ok(inner)
}

/// Whether s comes before t in the order of segments.
fn is_before(s: Seg, t: Seg) -> bool
    ensures { result ≡ segment_lt s t }
{
    s < t
}

/// Whether a segment comes after those of all paths, which ascend.
fn is_past<A: Allocator + Copy>(paths: &[SegmentPath<A>], segment: Seg) -> bool
    ensures { IsTrue result → IsStrictlySortedBy segment_cmp (segments_with_path (paths_seen paths.now))
        → IsStrictlySortedBy segment_cmp (segments_with_path (paths_seen paths.now) ++ segment ∷ []) }
{
    match paths.last() {
        Some(path) => is_before(path.segment, segment),
        None => true,
    }
}

/// Appends a path, where something is put in.
fn push_path<A: Allocator + Copy>(
    paths: &mut Vec<SegmentPath<A>, A>,
    segment: Seg,
    inner: Vec<Pos, A>,
) -> Result<(), AllocError>
    ensures { OnOk result ((ss : List Segment) → ArePaths ss (paths_seen paths.old.items)
        → Contains ss segment → (0 < length inner.items → IsWay segment inner.items)
        → All (IsKnown ss) inner.items → ArePaths ss (paths_seen paths.new.items)) }
{
    if !inner.is_empty() && is_past(paths.as_slice(), segment) {
        paths.push(SegmentPath { segment, inner })?;
    }
    Ok(())
}

/// How many of the stops are of the segment, before there is one of another.
fn run_of(segment: Seg, stops: &[Stop]) -> usize
    ensures value { result
        ≡ length (take_while (λ stop. segment_eq stop.segment segment) stops.now) }
    ensures within { result ≤ length stops.now }
{
    stops
        .iter()
        .take_while(|stop| stop.segment == segment)
        .count()
}

/// The paths over sorted stops.
pub(crate) fn paths_of<A: Allocator + Copy>(
    alloc: A,
    stops: &[Stop],
) -> Result<Vec<SegmentPath<A>, A>, AllocError>
    ensures { IfOk result (λ paths. (ss : List Segment) → All (IsStop ss) stops.now
        → ArePaths ss (paths_seen paths.items)) }
{
    let mut paths = Vec::new(alloc);
    let mut rest = stops;
    while let [first, ..] = rest {
        let segment = first.segment;
        let (of_it, others) = rest.split_at(run_of(segment, rest));
        let inner = inner_of(alloc, segment, of_it)?;
        push_path(&mut paths, segment, inner)?;
        rest = others;
    }
    Ok(paths)
}

/// The room that paths leave, where they put in no more than so many positions.
pub(crate) fn room_after<A: Allocator + Copy>(
    paths: &[SegmentPath<A>],
    most: usize,
) -> Option<usize>
    ensures { MatchOption result (most < inner_positions (paths_seen paths.now))
        (λ room. room + inner_positions (paths_seen paths.now) ≡ most) }
{
    let mut room = most;
    for path in paths {
        room = room.checked_sub(path.inner.len())?;
    }
    Some(room)
}

impl<'s, A: Allocator + Copy> Ways<'s, A> {
    /// The paths with more stops.
    pub(crate) fn with(&self, alloc: A, more: &[Stop]) -> Result<Ways<'s, A>, AllocError>
        ensures { IfOk result (λ ways. (ss : List Segment) → AreWays ss self.now
            → All (IsStop ss) more.now → AreWays ss ways) }
    {
        let mut stops = Vec::from_slice(alloc, self.stops.as_slice())?;
        stops.extend_from_slice(more)?;
        sort_stops(&mut stops);
        let paths = paths_of(alloc, stops.as_slice())?;
        let links = links_of(alloc, paths.as_slice())?;
        Ok(Ways {
            segments: self.segments,
            stops,
            paths,
            links,
        })
    }

    /// Whether it is one of the segments, and nothing is put into it: then it is its own link.
    fn is_whole(&self, link: Seg) -> bool
        ensures among { IsTrue result → Contains self.now.segments.now link }
        ensures alone { IsTrue result
            → IsStrictlySortedBy segment_cmp (segments_with_path (paths_seen self.now.paths.items))
            → Contains (spec.links_of (paths_seen self.now.paths.items) link) link }
    {
        match self.segments.binary_search(&link) {
            Ok(_) => positions_between(self.paths.as_slice(), link.lo, link.hi).is_empty(),
            Err(_) => false,
        }
    }

    /// The pieces of a link: one for each segment whose path has it.
    pub(crate) fn pieces_of(&self, alloc: A, link: Seg) -> Result<Vec<Piece, A>, AllocError>
        ensures pieces { IfOk result (λ found. (ss : List Segment) → AreWays ss self.now
            → All (IsPiece ss (paths_seen self.now.paths.items)) found.items) }
        ensures same { IfOk result (λ found. All (IsLinkOf link) found.items) }
        ensures whole { IfOk result (λ found. self.now.links.items ≡ [] → 0 < length found.items
            → Contains self.now.segments.now link) }
    {
        let mut found = Vec::new(alloc);
        if self.is_whole(link) {
            found.push(Piece { link, owner: link })?;
        }
        push_pieces(&mut found, self.links.as_slice(), link)?;
        Ok(found)
    }
}
