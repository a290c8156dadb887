// The features that findings belong to.
ghost use Rattle.std.specs.Prelude.{◌≡◌, ◌++◌, List, map, option_map, All, IfOk, OnOk};
ghost use Rattle.std.specs.Prelude.{Contains};
ghost use Rattle.std.specs.Ordering.{nat_cmp};
ghost use Rattle.grid_geometry.specs.Common.{Position, position_cmp, Segment, segment_cmp};
ghost use Rattle.segment_paths.specs.Common.{paths_seen};
ghost use Rattle.walk_faults.specs.Common.{ListsAll, features_seen};
ghost use Rattle.place_text.specs.Places.{list_at};
ghost use Rattle.place_text.specs.Sides.{sides_of};
ghost use Rattle.place_text.specs.Owners.{pair_features};
ghost use Rattle.place_text.specs.Tables.{numbers_in, asked_with, touch_pos, side_segment};
ghost use Rattle.place_text.specs.Tables.{numbers_held, path_segment, told_paths, Answers, AnswersBoth};

use crate::sides::Side;
use crate::tables::{Table, Tables, ask, numbers_at, tell_all};
use grid_geometry::{Pos, Seg};
use segment_paths::SegmentPath;
use std::alloc::{AllocError, Allocator};
use std::collections::BTreeMap;
use walk_faults::{Crossing, Findings, Touch};

/// Of the vertices and segments that findings speak of the features that have them.
#[derive(Drop)]
pub(crate) struct Owners<A: Allocator + Copy> {
    pub(crate) tables: Tables<A>,
    /// By the number of a pair of segments that cross the features that have one of them.
    pairs: Vec<Vec<usize, A>, A>,
}

/// The vertices on segments are asked for.
fn ask_vertices<A: Allocator + Copy>(
    alloc: A,
    table: &mut Table<Pos, A>,
    touches: &[Touch],
) -> Result<(), AllocError>
    ensures { OnOk result ((p : Position) → numbers_in position_cmp table.new p
        ≡ asked_with position_cmp (map touch_pos touches.now) p (numbers_in position_cmp table.old p)) }
{
    for touch in touches {
        ask(alloc, table, touch.pos)?;
    }
    Ok(())
}

/// The segments of findings are asked for.
fn ask_sides<A: Allocator + Copy>(
    alloc: A,
    table: &mut Table<Seg, A>,
    sides: &[Side],
) -> Result<(), AllocError>
    ensures { OnOk result ((s : Segment) → numbers_in segment_cmp table.new s
        ≡ asked_with segment_cmp (map side_segment sides.now) s (numbers_in segment_cmp table.old s)) }
{
    for side in sides {
        ask(alloc, table, side.segment)?;
    }
    Ok(())
}

/// The segments of paths, if they are reported, are asked for.
fn ask_paths<A: Allocator + Copy>(
    alloc: A,
    table: &mut Table<Seg, A>,
    paths: Option<&[SegmentPath<A>]>,
) -> Result<(), AllocError>
    ensures { OnOk result ((s : Segment) → numbers_in segment_cmp table.new s
        ≡ asked_with segment_cmp
        (map path_segment (told_paths (option_map (λ ps. paths_seen ps.now) paths.entry))) s
        (numbers_in segment_cmp table.old s)) }
{
    let Some(paths) = paths else {
        return Ok(());
    };
    for path in paths {
        ask(alloc, table, path.segment)?;
    }
    Ok(())
}

/// The numbers of both lists, ascending, each once.
fn union<A: Allocator + Copy>(
    alloc: A,
    some: &[usize],
    others: &[usize],
) -> Result<Vec<usize, A>, AllocError>
    ensures { IfOk result (λ all. ListsAll nat_cmp (Contains (some.now ++ others.now)) all.items) }
{
    let mut all = Vec::from_slice(alloc, some)?;
    all.extend_from_slice(others)?;
    all.sort_unstable();
    all.dedup();
    Ok(all)
}

/// For each pair of segments that cross the features that have one of the two or both.
fn pairs<A: Allocator + Copy>(
    alloc: A,
    tables: &Tables<A>,
    crossings: &[Crossing],
) -> Result<Vec<Vec<usize, A>, A>, AllocError>
    ensures { IfOk result (λ pairs. (features : List (List (List (List Position)))) →
        All (AnswersBoth features tables.now.segments) crossings.now →
        map numbers_held pairs.items ≡ map (pair_features features) crossings.now) }
{
    let mut pairs = Vec::new(alloc);
    for pair in crossings {
        let first = numbers_at(&tables.segments, &pair.first);
        let second = numbers_at(&tables.segments, &pair.second);
        pairs.push(union(alloc, first, second)?)?;
    }
    Ok(pairs)
}

/// The features of the vertices and segments of findings, of which these are the segments, and of the
/// segments of paths, if they are reported.
pub(crate) fn owners_of<A: Allocator + Copy>(
    alloc: A,
    walks: &[Vec<Vec<Vec<Pos, A>, A>, A>],
    findings: &Findings<A>,
    sides: &[Side],
    paths: Option<&[SegmentPath<A>]>,
) -> Result<Owners<A>, AllocError>
    requires { sides.now ≡ sides_of findings.now }
    ensures tables { IfOk result (λ owners. Answers (features_seen walks.now)
        findings.now.touches.items sides.now
        (told_paths (option_map (λ ps. paths_seen ps.now) paths.entry)) owners.tables) }
    ensures pairs { IfOk result (λ owners. map numbers_held owners.pairs.items
        ≡ map (pair_features (features_seen walks.now)) findings.now.crossings.items) }
{
    let mut tables = Tables {
        vertices: BTreeMap::new(alloc),
        segments: BTreeMap::new(alloc),
    };
    ask_vertices(alloc, &mut tables.vertices, findings.touches.as_slice())?;
    ask_sides(alloc, &mut tables.segments, sides)?;
    ask_paths(alloc, &mut tables.segments, paths)?;
    tell_all(&mut tables, walks)?;
    let pairs = pairs(alloc, &tables, findings.crossings.as_slice())?;
    Ok(Owners { tables, pairs })
}

impl<A: Allocator + Copy> Owners<A> {
    /// The features that have a segment of the pair with this number.
    pub(crate) fn of_pair(&self, number: usize) -> &[usize]
        ensures { result.now ≡ list_at (map numbers_held self.now.pairs.items) number }
    {
        match self.pairs.get(number) {
            Some(features) => features.as_slice(),
            None => &[],
        }
    }
}
