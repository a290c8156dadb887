// What an edit of vertices reads and changes in the tables.
ghost use Rattle.std.specs.Prelude.{◌≡◌, false, IfOk, IsSomeAnd, OnOk, OnErr, true, ◌≢◌, ℕ, Some, None, [], ◌∷◌, ◌⊎◌, ◌<◌, ◌^◌, ◌||◌, List, ◌++◌};
ghost use Rattle.ring_store.specs.Common.{AreAround, AreKeyed, AreNew, ArePlaceable, ArePlaced, ArePutBack, Drops, Exchanges, GainsSegments, HasBridging, HasMoving, IsBridging, IsMoving, IsParting, Joined, PutBetween, Removal, TakenOut, comings, goings};
ghost use Rattle.segment_index.specs.Common.{AreAmong, AreSingle, has};
ghost use Rattle.arc_tables.specs.Common.{AreApart, users_of, gained};
ghost use Rattle.grid_geometry.specs.Common.{Segment, segment};
ghost use Rattle.vertex_index.specs.Common.{Placement, IsOccupied};
ghost use Rattle.arc_tables.specs.declared.batch.Put.{Put};
ghost use Rattle.ring_machine.specs.Ring as machine;
ghost use Rattle.ring_store.specs.Planned as planned;
ghost use Rattle.std.specs.FinMap as table;
ghost use Rattle.std.specs.FinSet as set;

use crate::borders::Borders;
use crate::neighbours::Neighbours;
use crate::removal::Removal;
use crate::tables::RingTables;
use arc_tables::Put;
use grid_geometry::{Pos, Seg};
use segment_index::SegIndex;
use std::alloc::{AllocError, Allocator};
use vertex_index::{VertexKey, Vertices};

/// Appends the segment of two positions that differ. Fails only on allocation failure.
fn push_segment<A: Allocator + Copy>(
    segments: &mut Vec<Seg, A>,
    a: Pos,
    b: Pos,
) -> Result<(), AllocError>
    requires { a ≢ b }
    ensures { OnOk result (segments.new.items ≡ segments.old.items ++ segment a b ∷ []) }
{
    if let Some(s) = Seg::new(a, b) {
        segments.push(s)?;
    }
    Ok(())
}

/// The segments from each of these to a position that is none of them. Fails only on allocation
/// failure.
pub(crate) fn spokes<A: Allocator + Copy>(
    alloc: A,
    p: Pos,
    around: &[Pos],
) -> Result<Vec<Seg, A>, AllocError>
    requires { machine.has around.now p ≡ false }
    ensures { IfOk result (λ found. found.items ≡ planned.spokes p around.now) }
{
    let mut segments = Vec::with_capacity(alloc, around.len())?;
    for x in around {
        push_segment(&mut segments, *x, p)?;
    }
    Ok(segments)
}

/// The positions of the vertices that are joined to one. Fails only on allocation failure.
pub(crate) fn positions_around<I: SegIndex, A: Allocator + Copy>(
    tables: &RingTables<I, A>,
    k: VertexKey,
) -> Result<Vec<Pos, A>, AllocError>
    requires { ArePlaced tables.now.vertices tables.now.borders k }
    ensures { IfOk result (λ around.
        AreAround tables.now.vertices tables.now.borders k around.items) }
{
    let mut keys = Vec::new(tables.alloc);
    tables.borders.push_neighbours(k, &mut keys)?;
    let mut around = Vec::with_capacity(tables.alloc, keys.len())?;
    for x in keys.as_slice() {
        around.push(tables.vertices.pos(*x))?;
    }
    Ok(around)
}

/// Takes segments that are held out of the index, each once.
pub(crate) fn discard_all<I: SegIndex>(index: &mut I, segments: &[Seg])
    requires held { AreAmong (I.held index.old) segments.now }
    requires once { AreSingle segments.now }
    ensures dropped { Drops (I.held index.old) segments.now (I.held index.new) }
    ensures cells { I.cells index.new ≡ I.cells index.old }
{
    for s in segments {
        index.discard(*s);
    }
}

/// Puts segments that are not held into the index, each once. Where that fails it holds what it
/// held.
pub(crate) fn add_all<I: SegIndex>(index: &mut I, segments: &[Seg]) -> Result<(), AllocError>
    requires new { AreNew (I.held index.old) segments.now }
    requires once { AreSingle segments.now }
    ensures gained { OnOk result (GainsSegments (I.held index.old) segments.now (I.held index.new)) }
    ensures unchanged { OnErr result (I.held index.new ≡ I.held index.old) }
    ensures cells { I.cells index.new ≡ I.cells index.old }
{
    for at in 0..segments.len() {
        if let Err(e) = index.add(segments[at]) {
            discard_all(index, &segments[..at]);
            return Err(e);
        }
    }
    Ok(())
}

/// A vertex that is to move.
#[derive(Drop)]
pub struct Moving<A: Allocator + Copy> {
    /// Its key.
    pub key: VertexKey,
    /// The positions of the vertices that are joined to it.
    pub around: Vec<Pos, A>,
    /// The segments to these from where it is.
    pub before: Vec<Seg, A>,
    /// The segments to these from where it goes.
    pub after: Vec<Seg, A>,
}

/// What a move of the vertex at p to q, where none is, changes in the tables. Fails only on allocation
/// failure.
pub fn read_moving<I: SegIndex, A: Allocator + Copy>(
    tables: &RingTables<I, A>,
    p: Pos,
    q: Pos,
) -> Result<Moving<A>, AllocError>
    requires { HasMoving tables.now.vertices tables.now.borders p q }
    ensures read { IfOk result (λ m. IsMoving tables.now.vertices tables.now.borders p q
        m.key m.around.items m.before.items m.after.items) }
{
    let key = tables.vertices.key_of(p).unwrap();
    let around = positions_around(tables, key)?;
    let before = spokes(tables.alloc, p, around.as_slice())?;
    let after = spokes(tables.alloc, q, around.as_slice())?;
    Ok(Moving {
        key,
        around,
        before,
        after,
    })
}

/// Moves vertex `k`, in the table of vertices and in the index. On allocation failure nothing has
/// changed.
pub fn shift<I: SegIndex, A: Allocator + Copy>(
    tables: &mut RingTables<I, A>,
    k: VertexKey,
    q: Pos,
    before: &[Seg],
    after: &[Seg],
) -> Result<(), AllocError>
    requires key { table.contains_key tables.old.vertices k ≡ true }
    requires new { AreNew tables.old.index.held after.now }
    requires after_once { AreSingle after.now }
    requires held { AreAmong tables.old.index.held before.now }
    requires before_once { AreSingle before.now }
    ensures moved { OnOk result (tables.new.vertices ≡ table.insert tables.old.vertices k q) }
    ensures exchanged { OnOk result
        (Exchanges tables.old.index.held after.now before.now tables.new.index.held) }
    ensures borders { tables.new.borders ≡ tables.old.borders }
    ensures unchanged { OnErr result (tables.new ≡ tables.old) }
    ensures cells { tables.new.index.cells ≡ tables.old.index.cells }
{
    add_all(&mut tables.index, after)?;
    if let Err(_) = tables.vertices.shift(k, q) {
        discard_all(&mut tables.index, after);
        return Err(AllocError);
    }
    discard_all(&mut tables.index, before);
    Ok(())
}

/// A segment that a vertex is to come into.
#[derive(Drop)]
pub struct Parting<A: Allocator + Copy> {
    /// The vertices at its ends.
    pub ends: (VertexKey, VertexKey),
    /// Itself.
    pub before: Seg,
    /// The segments from its ends to where the vertex comes.
    pub after: Vec<Seg, A>,
}

/// What a vertex at q between those at a and b changes in the tables. Fails only on allocation failure.
pub fn read_parting<I: SegIndex, A: Allocator + Copy>(
    tables: &RingTables<I, A>,
    a: Pos,
    b: Pos,
    q: Pos,
) -> Result<Parting<A>, AllocError>
    requires different { a ≢ b }
    requires first { (j : ℕ) × (table.get tables.now.vertices j ≡ Some a) }
    requires second { (k : ℕ) × (table.get tables.now.vertices k ≡ Some b) }
    requires apart { machine.has (a ∷ b ∷ []) q ≡ false }
    ensures read { IfOk result (λ r. IsParting tables.now.vertices a b q
        r.ends.0 r.ends.1 r.before r.after.items) }
{
    let first = tables.vertices.key_of(a).unwrap();
    let second = tables.vertices.key_of(b).unwrap();
    let before = Seg::new(a, b).unwrap();
    let after = spokes(tables.alloc, q, &[a, b])?;
    Ok(Parting {
        ends: (first, second),
        before,
        after,
    })
}

/// Puts a vertex at q between two that are joined, in the tables of vertices and of borders. On
/// allocation failure both are as they were.
fn put_between<A: Allocator + Copy>(
    vertices: &mut Vertices<A>,
    borders: &mut Borders<A>,
    a: VertexKey,
    b: VertexKey,
    q: Pos,
) -> Result<(), AllocError>
    requires unjoined { (k x : ℕ) → table.get vertices.old k ≡ None → ¬ Joined borders.old k x }
    requires apart { (k : ℕ) → table.get vertices.old k ≡ None → AreApart a b k }
    ensures put { OnOk result (PutBetween vertices.old vertices.new borders.old borders.new a b q) }
    ensures vertices { OnErr result (vertices.new ≡ vertices.old) }
    ensures borders { OnErr result (borders.new ≡ borders.old) }
{
    let Ok(k) = vertices.add(q) else {
        return Err(AllocError);
    };
    match borders.insert(a, b, k) {
        Ok(()) => Ok(()),
        Err(e) => {
            vertices.remove(k);
            Err(e)
        }
    }
}

/// Puts a vertex at q between two that are joined, where their segment goes and the added ones come,
/// and says how many rings have it. On allocation failure nothing has changed.
pub fn put_in<I: SegIndex, A: Allocator + Copy>(
    tables: &mut RingTables<I, A>,
    ends: (VertexKey, VertexKey),
    q: Pos,
    before: Seg,
    after: &[Seg],
) -> Result<usize, AllocError>
    requires unjoined { (k x : ℕ) → table.get tables.old.vertices k ≡ None
        → ¬ Joined tables.old.borders k x }
    requires apart { (k : ℕ) → table.get tables.old.vertices k ≡ None → AreApart ends.0 ends.1 k }
    requires held { set.contains tables.old.index.held before ≡ true }
    requires new { AreNew tables.old.index.held after.now }
    requires single { AreSingle after.now }
    ensures put { OnOk result (PutBetween tables.old.vertices tables.new.vertices
        tables.old.borders tables.new.borders ends.0 ends.1 q) }
    ensures exchanged { OnOk result
        (Exchanges tables.old.index.held after.now (before ∷ []) tables.new.index.held) }
    ensures rings { IfOk result (λ n. n ≡ users_of tables.old.borders ends.0 ends.1) }
    ensures unchanged { OnErr result (tables.new ≡ tables.old) }
    ensures cells { tables.new.index.cells ≡ tables.old.index.cells }
{
    let rings = tables.borders.uses(ends.0, ends.1);
    add_all(&mut tables.index, after)?;
    let (vertices, borders) = (&mut tables.vertices, &mut tables.borders);
    match put_between(vertices, borders, ends.0, ends.1, q) {
        Ok(()) => {
            tables.index.discard(before);
            Ok(rings)
        }
        Err(_) => {
            discard_all(&mut tables.index, after);
            Err(AllocError)
        }
    }
}

/// A vertex that is to go from between two.
#[derive(Clone, Copy, Debug)]
pub struct Bridging {
    /// Its key.
    pub key: VertexKey,
    /// The two vertices that are joined to it.
    pub ends: (VertexKey, VertexKey),
    /// The segments to these.
    pub before: (Seg, Seg),
    /// The segment of these.
    pub after: Seg,
}

/// What a removal of the vertex at p changes in the tables. It is no junction, and its neighbours are
/// not joined. Takes no memory.
pub fn read_bridging<I: SegIndex, A: Allocator + Copy>(
    tables: &RingTables<I, A>,
    p: Pos,
) -> Option<Bridging>
    requires { HasBridging tables.now.vertices tables.now.borders p }
    ensures { IsSomeAnd result (λ r. IsBridging tables.now.vertices tables.now.borders p
        r.key r.ends.0 r.ends.1 (r.before.0 ∷ r.before.1 ∷ []) r.after) }
{
    let key = tables.vertices.key_of(p).unwrap();
    let Neighbours::Two(i, j) = tables.borders.neighbours(key) else {
        return None;
    };
    let (a, b) = (tables.vertices.pos(i), tables.vertices.pos(j));
    let to_a = Seg::new(a, p).unwrap();
    let to_b = Seg::new(b, p).unwrap();
    let after = Seg::new(a, b).unwrap();
    Some(Bridging {
        key,
        ends: (i, j),
        before: (to_a, to_b),
        after,
    })
}

/// Takes vertex `k` out from between two, where its two segments go and one comes, and says how many
/// rings had it. On allocation failure nothing has changed.
pub fn take_out<I: SegIndex, A: Allocator + Copy>(
    tables: &mut RingTables<I, A>,
    k: VertexKey,
    ends: (VertexKey, VertexKey),
    before: &[Seg],
    after: Seg,
) -> Result<usize, AllocError>
    requires vertex { table.contains_key tables.old.vertices k ≡ true }
    requires between { (x : ℕ) → Joined tables.old.borders k x → (x ≡ ends.0) ⊎ (x ≡ ends.1) }
    requires unjoined { ¬ Joined tables.old.borders ends.0 ends.1 }
    requires apart { AreApart ends.0 ends.1 k }
    requires new { set.contains tables.old.index.held after ≡ false }
    requires held { AreAmong tables.old.index.held before.now }
    requires single { AreSingle before.now }
    ensures taken { OnOk result (TakenOut tables.old.vertices tables.new.vertices
        tables.old.borders tables.new.borders k ends.1) }
    ensures exchanged { OnOk result
        (Exchanges tables.old.index.held (after ∷ []) before.now tables.new.index.held) }
    ensures rings { IfOk result (λ n. n ≡ users_of tables.old.borders k ends.1) }
    ensures unchanged { OnErr result (tables.new ≡ tables.old) }
    ensures cells { tables.new.index.cells ≡ tables.old.index.cells }
{
    let rings = tables.borders.uses(k, ends.1);
    tables.index.add(after)?;
    match tables.borders.remove(k, ends.0, ends.1) {
        Ok(()) => {
            discard_all(&mut tables.index, before);
            tables.vertices.remove(k);
            Ok(rings)
        }
        Err(_) => {
            tables.index.discard(after);
            Err(AllocError)
        }
    }
}

/// The segments that come with these vertices, and those that go. Fails only on allocation failure.
fn exchanged_segments<A: Allocator + Copy>(
    alloc: A,
    removals: &[Removal],
) -> Result<(Vec<Seg, A>, Vec<Seg, A>), AllocError>
    requires { (places : Placement) × ArePlaceable places removals.now }
    ensures coming { IfOk result (λ found. found.0.items ≡ comings removals.now) }
    ensures going { IfOk result (λ found. found.1.items ≡ goings removals.now) }
{
    let mut coming = Vec::new(alloc);
    let mut going = Vec::new(alloc);
    for r in removals {
        push_segment(&mut coming, r.a, r.at)?;
        push_segment(&mut coming, r.b, r.at)?;
        push_segment(&mut going, r.a, r.b)?;
    }
    Ok((coming, going))
}

/// Puts a vertex where this one was left out, whose neighbours are vertices, and answers what it is
/// to come between. Where that fails nothing has changed.
fn place_one<A: Allocator + Copy>(vertices: &mut Vertices<A>, r: Removal) -> Result<Put, AllocError>
    requires first { IsOccupied vertices.old r.a }
    requires second { IsOccupied vertices.old r.b }
    ensures keyed { IfOk result (λ put. AreKeyed vertices.old (r ∷ []) (put ∷ []) vertices.new) }
    ensures unchanged { OnErr result (vertices.new ≡ vertices.old) }
{
    let a = vertices.key_of(r.a).unwrap();
    let b = vertices.key_of(r.b).unwrap();
    match vertices.add(r.at) {
        Ok(q) => Ok(Put { a, b, q }),
        Err(_) => Err(AllocError),
    }
}

/// The vertices of these puts are none again. Takes no memory.
fn forget_all<A: Allocator + Copy>(vertices: &mut Vertices<A>, puts: &[Put])
    requires { (places : Placement) × (rs : List Removal) × AreKeyed places rs puts.now vertices.old }
    ensures { (places : Placement) (rs : List Removal) → AreKeyed places rs puts.now vertices.old
        → vertices.new ≡ places }
{
    let mut left = puts.len();
    while left > 0 {
        left -= 1;
        vertices.remove(puts[left].q);
    }
}

/// Puts a vertex where each of these was left out, one after the other, and answers what they are to
/// come between. Where that fails nothing has changed.
fn place_all<A: Allocator + Copy>(
    alloc: A,
    vertices: &mut Vertices<A>,
    removals: &[Removal],
) -> Result<Vec<Put, A>, AllocError>
    requires placeable { ArePlaceable vertices.old removals.now }
    ensures keyed { IfOk result (λ puts.
        AreKeyed vertices.old removals.now puts.items vertices.new) }
    ensures unchanged { OnErr result (vertices.new ≡ vertices.old) }
{
    let mut placed = Vec::with_capacity(alloc, removals.len())?;
    for r in removals {
        match place_one(vertices, *r) {
            Ok(put) => placed.push_reserved(put),
            Err(e) => {
                forget_all(vertices, placed.as_slice());
                return Err(e);
            }
        }
    }
    Ok(placed)
}

/// Puts vertices back that were left out, one after the other, each between its two neighbours in every
/// ring that has their segment by then, and says how many positions the rings gain. On allocation
/// failure nothing has changed.
pub fn put_all<I: SegIndex, A: Allocator + Copy>(
    tables: &mut RingTables<I, A>,
    removals: &[Removal],
) -> Result<usize, AllocError>
    requires placeable { ArePlaceable tables.old.vertices removals.now }
    requires unjoined { (k x : ℕ) → table.get tables.old.vertices k ≡ None
        → ¬ Joined tables.old.borders k x }
    requires few { (puts : List Put) (places : Placement)
        → AreKeyed tables.old.vertices removals.now puts places
        → gained puts (table.values tables.old.borders) < 2 ^ 64 }
    requires new { AreNew tables.old.index.held (comings removals.now) }
    requires comings_once { AreSingle (comings removals.now) }
    requires held { (t : Segment) → has (goings removals.now) t ≡ true
        → (set.contains tables.old.index.held t || has (comings removals.now) t) ≡ true }
    requires goings_once { AreSingle (goings removals.now) }
    ensures put { IfOk result (λ n. ArePutBack tables.old.vertices tables.new.vertices
        tables.old.borders tables.new.borders removals.now n) }
    ensures exchanged { OnOk result (Exchanges tables.old.index.held
        (comings removals.now) (goings removals.now) tables.new.index.held) }
    ensures unchanged { OnErr result (tables.new ≡ tables.old) }
    ensures cells { tables.new.index.cells ≡ tables.old.index.cells }
{
    let (coming, going) = exchanged_segments(tables.alloc, removals)?;
    let coming = coming.as_slice();
    let puts = place_all(tables.alloc, &mut tables.vertices, removals)?;
    let placed = puts.as_slice();
    if let Err(e) = add_all(&mut tables.index, coming) {
        forget_all(&mut tables.vertices, placed);
        return Err(e);
    }
    match tables.borders.insert_all(placed) {
        Ok(count) => {
            discard_all(&mut tables.index, going.as_slice());
            Ok(count)
        }
        Err(e) => {
            discard_all(&mut tables.index, coming);
            forget_all(&mut tables.vertices, placed);
            Err(e)
        }
    }
}
