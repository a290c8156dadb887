// All that keeps a map from opening.
ghost use Rattle.std.specs.Prelude.{◌≡◌, IfOk, IfErr};
ghost use Rattle.std.specs.FinSet as set;
ghost use Rattle.walk_faults.specs.Findings.{Found, AreAtMost, IsFindFault};
ghost use Rattle.walk_faults.specs.Seen.{features_seen};

use crate::findings::{FindFault, Findings};
use crate::gathered::{fill, segments, vertices};
use crate::meeting::{crossings, touches};
use crate::repeats::{repeats, short};
use crate::walks::walks;
use grid_geometry::Pos;
use segment_index::SegIndex;
use std::alloc::Allocator;

/// How many findings of one kind are listed at most.
pub const MOST: usize = 4_000_000;

/// All that keeps a map from opening. Its rings are given as walks, by feature, polygon and ring:
/// closed lists of positions of any length. The index is empty. Fails on allocation failure, and at
/// once where there are more than [`MOST`] findings of one kind.
pub fn find<I: SegIndex, A: Allocator + Copy>(
    alloc: A,
    index: I,
    polygons: &[Vec<Vec<Vec<Pos, A>, A>, A>],
) -> Result<Findings<A>, FindFault>
    requires empty { I.held index ≡ set.empty }
    ensures found { IfOk result (λ findings. Found (features_seen polygons.now) findings) }
    ensures few { IfOk result (λ findings. AreAtMost MOST findings) }
    ensures fault { IfErr result (IsFindFault MOST (features_seen polygons.now)) }
{
    find_at_most(alloc, index, polygons, MOST)
}

/// The same, where there are at most `most` findings of each kind; else it fails at once.
pub fn find_at_most<I: SegIndex, A: Allocator + Copy>(
    alloc: A,
    mut index: I,
    polygons: &[Vec<Vec<Vec<Pos, A>, A>, A>],
    most: usize,
) -> Result<Findings<A>, FindFault>
    requires empty { I.held index ≡ set.empty }
    ensures found { IfOk result (λ findings. Found (features_seen polygons.now) findings) }
    ensures few { IfOk result (λ findings. AreAtMost most findings) }
    ensures fault { IfErr result (IsFindFault most (features_seen polygons.now)) }
{
    let walks = walks(alloc, polygons)?;
    let short = short(alloc, walks.as_slice(), most)?;
    let repeats = repeats(alloc, walks.as_slice(), most)?;
    let vertices = vertices(alloc, walks.as_slice())?;
    let segments = segments(alloc, walks.as_slice())?;
    fill(&mut index, segments.as_slice())?;
    let touches = touches(alloc, &index, vertices.as_slice(), most)?;
    let crossings = crossings(alloc, &index, segments.as_slice(), most)?;
    Ok(Findings {
        short,
        repeats,
        touches,
        crossings,
    })
}
