// Walks, led along the paths of their segments.
ghost use Rattle.std.specs.Prelude.{◌≡◌, ◌++◌, map, IfOk, OnOk};
ghost use Rattle.std.specs.List.Sorted.{IsStrictlySortedBy};
ghost use Rattle.grid_geometry.specs.Common.{segment_cmp};
ghost use Rattle.segment_paths.specs.Common.{path_of_segment};
ghost use Rattle.segment_paths.specs.Paths as spec;
ghost use Rattle.walk_mending.specs.Laid.{edge_along, laid, KeepsInOrder, GoesAlong};

use grid_geometry::Pos;
use segment_paths::SegmentPath;
use std::alloc::{AllocError, Allocator};

/// The positions between the ends of a segment on its path; none where it has none.
fn inner_of<'p, A: Allocator + Copy>(paths: &'p [SegmentPath<A>], lo: Pos, hi: Pos) -> &'p [Pos]
    requires { IsStrictlySortedBy segment_cmp (map (λ p. p.0) (map path_of_segment paths.now)) }
    ensures { result.now ≡ spec.inner_of (map path_of_segment paths.now) (record { lo = lo; hi = hi }) }
{
    match paths.binary_search_by_key(&(lo, hi), |path| (path.segment.lo, path.segment.hi)) {
        Ok(place) => paths[place].inner.as_slice(),
        Err(_) => &[],
    }
}

/// Appends the positions from where an edge begins up to its end, which is left out.
fn push_edge<A: Allocator + Copy>(
    alloc: A,
    found: &mut Vec<Pos, A>,
    paths: &[SegmentPath<A>],
    from: Pos,
    to: Pos,
) -> Result<(), AllocError>
    requires { IsStrictlySortedBy segment_cmp (map (λ p. p.0) (map path_of_segment paths.now)) }
    ensures { OnOk result (found.new.items
        ≡ found.old.items ++ edge_along (map path_of_segment paths.now) (from, to)) }
{
    found.push(from)?;
    if from < to {
        return found.extend_from_slice(inner_of(paths, from, to));
    }
    let mut turned = Vec::from_slice(alloc, inner_of(paths, to, from))?;
    turned.reverse();
    found.extend_from_slice(turned.as_slice())
}

/// The walk, led along the paths of its segments, which stand in the order of their segments, at most
/// one for each: between two neighbours come the positions of the path of their segment, in the
/// direction of the walk. Fails only on allocation failure.
pub fn laid_walk<A: Allocator + Copy>(
    alloc: A,
    paths: &[SegmentPath<A>],
    walk: &[Pos],
) -> Result<Vec<Pos, A>, AllocError>
    requires { IsStrictlySortedBy segment_cmp (map (λ p. p.0) (map path_of_segment paths.now)) }
    ensures laid { IfOk result (λ found. found.items ≡ laid (map path_of_segment paths.now) walk.now) }
    ensures kept { IfOk result (λ found. KeepsInOrder walk.now found.items) }
    ensures links { IfOk result (λ found.
        GoesAlong (map path_of_segment paths.now) walk.now found.items) }
{
    let mut found = Vec::new(alloc);
    let [first, rest @ ..] = walk else {
        return Ok(found);
    };
    let mut from = *first;
    for to in rest {
        push_edge(alloc, &mut found, paths, from, *to)?;
        from = *to;
    }
    push_edge(alloc, &mut found, paths, from, *first)?;
    Ok(found)
}
