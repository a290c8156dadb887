// The vertices of borders, in the order in which the sweep comes to them.
ghost use Rattle.std.specs.Prelude.{◌≡◌, [], map, length, Contains, IfOk, IsNone, OnOk};
ghost use Rattle.std.specs.List.{All, flat_map};
ghost use Rattle.grid_geometry.specs.Common.{position_cmp};
ghost use Rattle.layer_sides.specs.Under as spec;
ghost use Rattle.layer_sides.specs.Under.{AreSegments, AreVertices, Ascends, BegunAt};
ghost use Rattle.layer_sides.specs.Seen.{segments_seen, vertices_seen};

use crate::border::Border;
use crate::ends::{bottom_of, is_ordered, top_of};
use crate::fault::SideFault;
use grid_geometry::Pos;
use std::alloc::{AllocError, Allocator, Global};

/// For how many borders that begin at a vertex there is room at first, so that those of vertices that
/// follow on each other lie beside each other.
const ROOM: usize = 2;

/// A vertex of borders.
#[derive(Drop)]
pub(crate) struct Vertex<A: Allocator + Copy = Global> {
    /// Where it is.
    pub(crate) at: Pos,
    /// The places of the borders that begin there, ascending.
    pub(crate) begun: Vec<usize, A>,
}

/// The position turned by a quarter, so that the order of turned positions is that of levels.
fn turned(p: Pos) -> Pos
    ensures { result ≡ spec.turned p }
{
    Pos::new(p.y(), -p.x()).unwrap_or(p)
}

/// The position that is turned by a quarter to this one.
fn turned_back(p: Pos) -> Pos
    ensures { spec.turned result ≡ p }
{
    Pos::new(-p.y(), p.x()).unwrap_or(p)
}

/// The lesser end of a border whose ends are not in order; none in those of a layer.
pub(crate) fn disordered<A: Allocator + Copy>(borders: &[Border<A>]) -> Option<Pos>
    ensures { IsNone result → AreSegments (segments_seen borders.now) }
{
    for border in borders {
        if !is_ordered(border.segment) {
            return Some(border.segment.lo);
        }
    }
    None
}

/// The ends of the borders, turned.
fn turned_ends<A: Allocator + Copy>(
    alloc: A,
    borders: &[Border<A>],
) -> Result<Vec<Pos, A>, AllocError>
    ensures { IfOk result (λ found. found.items ≡ flat_map spec.turned_ends (segments_seen borders.now)) }
{
    let mut found = Vec::with_capacity(alloc, borders.len().saturating_mul(2))?;
    for border in borders {
        found.push(turned(bottom_of(border.segment)))?;
        found.push(turned(top_of(border.segment)))?;
    }
    Ok(found)
}

/// Sorts positions, each once.
fn sort_once<A: Allocator + Copy>(positions: &mut Vec<Pos, A>)
    ensures { Ascends position_cmp (Contains positions.old.items) positions.new.items }
{
    positions.sort_unstable();
    positions.dedup();
}

/// The vertices at these turned positions; at none of them a border begins.
fn bare<A: Allocator + Copy>(alloc: A, levels: &[Pos]) -> Result<Vec<Vertex<A>, A>, AllocError>
    ensures levels { IfOk result (λ found. map (λ v. spec.turned v.0) (vertices_seen found.items) ≡ levels.now) }
    ensures bare { IfOk result (λ found. All (λ v. v.1 ≡ []) (vertices_seen found.items)) }
{
    let mut found = Vec::with_capacity(alloc, levels.len())?;
    for level in levels {
        found.push(Vertex {
            at: turned_back(*level),
            begun: Vec::with_capacity(alloc, ROOM)?,
        })?;
    }
    Ok(found)
}

/// Where a border begins, turned, and its place. Ordered by level.
#[derive(Clone, Copy, PartialEq, Eq, PartialOrd, Ord)]
struct Start {
    level: Pos,
    place: usize,
}

/// Where the borders begin, by level.
fn starts_of<A: Allocator + Copy>(
    alloc: A,
    borders: &[Border<A>],
) -> Result<Vec<Start, A>, AllocError> {
    let mut starts = Vec::with_capacity(alloc, borders.len())?;
    for (place, border) in borders.iter().enumerate() {
        starts.push(Start {
            level: turned(bottom_of(border.segment)),
            place,
        })?;
    }
    starts.sort_unstable();
    Ok(starts)
}

/// The place of the first level, from one on, that is not before this one.
fn next_level(levels: &[Pos], from: usize, level: Pos) -> usize {
    for at in from..levels.len() {
        if level <= levels[at] {
            return at;
        }
    }
    levels.len()
}

/// Of each border the place of the level at which it begins. It is found by the order of both, and `note`
/// tests it.
fn level_places<A: Allocator + Copy>(
    alloc: A,
    levels: &[Pos],
    borders: &[Border<A>],
) -> Result<Vec<usize, A>, AllocError> {
    let starts = starts_of(alloc, borders)?;
    let mut places = vec![in alloc; 0; borders.len()]?;
    let mut at = 0;
    for start in starts.as_slice() {
        at = next_level(levels, at, start.level);
        if let Some(place) = places.get_mut(start.place) {
            *place = at;
        }
    }
    Ok(places)
}

/// Notes at this vertex that the border at this place begins there. Fails where it is not so.
fn note<A: Allocator + Copy>(
    vertices: &mut Vec<Vertex<A>, A>,
    vertex: usize,
    place: usize,
    at: Pos,
) -> Result<(), SideFault>
    ensures { OnOk result (spec.Notes place at (vertices_seen vertices.old.items) (vertices_seen vertices.new.items)) }
{
    if vertex < vertices.len() && vertices[vertex].at == at {
        vertices[vertex].begun.push(place)?;
        return Ok(());
    }
    Err(SideFault::Unswept(at))
}

/// Notes of each border where it begins: at which vertices, is known.
fn note_all<A: Allocator + Copy>(
    vertices: &mut Vec<Vertex<A>, A>,
    begins: &[usize],
    borders: &[Border<A>],
) -> Result<(), SideFault>
    requires rising { spec.AreRising (vertices_seen vertices.old.items) }
    requires bare { All (λ v. v.1 ≡ []) (vertices_seen vertices.old.items) }
    ensures same { OnOk result (map (λ v. v.0) (vertices_seen vertices.new.items)
        ≡ map (λ v. v.0) (vertices_seen vertices.old.items)) }
    ensures begun { OnOk result (All (BegunAt (segments_seen borders.now) (length (segments_seen borders.now))) (vertices_seen vertices.new.items)) }
{
    for (place, border) in borders.iter().enumerate() {
        let vertex = begins.get(place).copied().unwrap_or(0);
        note(vertices, vertex, place, bottom_of(border.segment))?;
    }
    Ok(())
}

/// The vertices of the borders by level, each with the borders that begin there.
pub(crate) fn vertices_of<A: Allocator + Copy>(
    alloc: A,
    borders: &[Border<A>],
) -> Result<Vec<Vertex<A>, A>, SideFault>
    ensures { IfOk result (λ found. AreVertices (segments_seen borders.now) (vertices_seen found.items)) }
{
    let mut levels = turned_ends(alloc, borders)?;
    sort_once(&mut levels);
    let begins = level_places(alloc, levels.as_slice(), borders)?;
    let mut found = bare(alloc, levels.as_slice())?;
    note_all(&mut found, begins.as_slice(), borders)?;
    Ok(found)
}
