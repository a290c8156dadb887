// Links of paths.
ghost use Rattle.std.specs.Prelude.{◌≡◌, [], List, Contains, IfOk, OnOk};
ghost use Rattle.std.specs.List.{All};
ghost use Rattle.grid_geometry.specs.Common.{Segment, segment};
ghost use Rattle.segment_paths.specs.Paths as spec;
ghost use Rattle.segment_paths.specs.Paths.{PathOfSegment, IsKnown, ArePaths};
ghost use Rattle.segment_paths.specs.Seen.{paths_seen};
ghost use Rattle.segment_paths.specs.Stops.{IsPiece, IsLinkOf};

use crate::along;
use crate::path::SegmentPath;
use grid_geometry::{Pos, Seg};
use std::alloc::{AllocError, Allocator};

/// A link, from one position of a path to the next, and the segment whose path it is.
#[derive(Clone, Copy, PartialEq, Eq, PartialOrd, Ord)]
pub(crate) struct Piece {
    pub(crate) link: Seg,
    pub(crate) owner: Seg,
}

/// Whether a position comes between the ends of the link along the segment whose path it is.
pub(crate) fn comes_between(piece: &Piece, pos: Pos) -> bool {
    let from = along(piece.owner, piece.link.lo);
    let to = along(piece.owner, piece.link.hi);
    let at = along(piece.owner, pos);
    (from < at && at < to) || (to < at && at < from)
}

/// Appends the link between two positions.
fn push_link<A: Allocator + Copy>(
    links: &mut Vec<Piece, A>,
    owner: Seg,
    from: Pos,
    to: Pos,
) -> Result<(), AllocError>
    ensures { OnOk result ((ss : List Segment) (paths : List PathOfSegment)
        → All (IsPiece ss paths) links.old.items → Contains ss owner → IsKnown ss from
        → IsKnown ss to → Contains (spec.links_of paths owner) (segment from to)
        → All (IsPiece ss paths) links.new.items) }
{
    if let Some(link) = Seg::new(from, to) {
        links.push(Piece { link, owner })?;
    }
    Ok(())
}

/// Appends the links of a path.
fn push_links<A: Allocator + Copy>(
    links: &mut Vec<Piece, A>,
    owner: Seg,
    inner: &[Pos],
) -> Result<(), AllocError>
    ensures { OnOk result ((ss : List Segment) (paths : List PathOfSegment)
        → All (IsPiece ss paths) links.old.items → Contains ss owner → All (IsKnown ss) inner.now
        → spec.inner_of paths owner ≡ inner.now → All (IsPiece ss paths) links.new.items) }
{
    let mut from = owner.lo;
    for to in inner {
        push_link(links, owner, from, *to)?;
        from = *to;
    }
    push_link(links, owner, from, owner.hi)?;
    Ok(())
}

/// The links of paths, sorted.
pub(crate) fn links_of<A: Allocator + Copy>(
    alloc: A,
    paths: &[SegmentPath<A>],
) -> Result<Vec<Piece, A>, AllocError>
    ensures { IfOk result (λ links. (ss : List Segment) → ArePaths ss (paths_seen paths.now)
        → All (IsPiece ss (paths_seen paths.now)) links.items) }
{
    let mut links = Vec::new(alloc);
    for path in paths {
        push_links(&mut links, path.segment, path.inner.as_slice())?;
    }
    links.sort_unstable();
    Ok(links)
}

/// Appends the pieces of a link in a sorted list.
pub(crate) fn push_pieces<A: Allocator + Copy>(
    found: &mut Vec<Piece, A>,
    links: &[Piece],
    link: Seg,
) -> Result<(), AllocError>
    ensures kept { OnOk result ((ss : List Segment) (paths : List PathOfSegment)
        → All (IsPiece ss paths) found.old.items → All (IsPiece ss paths) links.now
        → All (IsPiece ss paths) found.new.items) }
    ensures same { OnOk result (All (IsLinkOf link) found.old.items → All (IsLinkOf link) found.new.items) }
    ensures none { OnOk result (links.now ≡ [] → found.new.items ≡ found.old.items) }
{
    let begin = links.partition_point(|piece| piece.link < link);
    let (_, run) = links.split_at(begin);
    for piece in run {
        if piece.link != link {
            break;
        }
        found.push(*piece)?;
    }
    Ok(())
}
