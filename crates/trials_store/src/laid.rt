//! Two squares with a common side, laid and taken out.
ghost use Rattle.std.specs.Prelude.{◌≡◌, IfOk, IsTrue, map};
ghost use Rattle.std.specs.List.{list_all};
ghost use Rattle.grid_geometry.specs.Position.{position};
ghost use Rattle.ring_machine.specs.Ring.{is_ring};
ghost use Rattle.feature_exchange.specs.Laid.{AreThere};
ghost use Rattle.ring_store.specs.Tables.{AreStanding};

use feature_exchange::{LaidRing, gather_rings, lay_rings, take_out_rings};
use grid_geometry::Pos;
use ring_store::{Borders, Counted, RingTables};
use segment_index::ListIndex;
use std::alloc::{AllocError, Global};
use std::hash::RandomState;
use std::process::Abort;
use test_aids::fixed_seed;
use vertex_index::{VertexKey, Vertices};

/// What a call that needs memory is expected to find.
const MEMORY: &str = "there is memory";

/// The position, which is in range.
fn at<R: Abort>(rt: &R, x: i64, y: i64) -> Pos
    ensures { result ≡ position x y }
{
    Pos::new(x, y).expect(rt, "in range")
}

/// Two squares side by side, each of four positions.
fn two_squares<R: Abort>(rt: &R, alloc: Global) -> Result<Vec<Vec<Pos>>, AllocError>
    ensures { IfOk result
        (λ rings. IsTrue (list_all is_ring (map (λ ring. ring.items) rings.items))) }
{
    let corner = at(rt, 10, 0);
    let above = at(rt, 10, 10);
    let left = vec![in alloc; at(rt, 0, 0), corner, above, at(rt, 0, 10)]?;
    let right = vec![in alloc; corner, at(rt, 20, 0), at(rt, 20, 10), above]?;
    let mut rings = Vec::new(alloc);
    rings.push(left)?;
    rings.push(right)?;
    Ok(rings)
}

/// The tables of a map, and the rings that were laid.
#[derive(Drop)]
struct Squares {
    tables: RingTables<ListIndex>,
    rings: Vec<LaidRing>,
}

impl Squares {
    /// No ring.
    fn new(alloc: Global, seed: RandomState) -> Self
        ensures { AreStanding result.tables }
    {
        Squares {
            tables: RingTables {
                alloc,
                vertices: Vertices::new(alloc, seed),
                borders: Borders::new(alloc, alloc),
                index: Counted::new(ListIndex::new(alloc), 0),
            },
            rings: Vec::new(alloc),
        }
    }

    /// Lays rings.
    fn lay(&mut self, rings: &[Vec<Pos>]) -> Result<(), AllocError>
        requires stand { AreStanding self.old.tables }
        requires rings { IsTrue (list_all is_ring (map (λ ring. ring.items) rings.now)) }
        ensures { AreStanding self.new.tables }
    {
        self.rings = lay_rings(&mut self.tables, rings)?;
        Ok(())
    }

    /// Lays both squares.
    fn lay_squares<R: Abort>(&mut self, rt: &R, alloc: Global)
        requires { AreStanding self.old.tables }
        ensures { AreStanding self.new.tables }
    {
        let rings = two_squares(rt, alloc).expect(rt, MEMORY);
        self.lay(rings.as_slice()).expect(rt, MEMORY);
    }

    /// The ring with a number, which stands.
    fn gather<R: Abort>(&self, rt: &R, alloc: Global, number: usize) -> Vec<LaidRing>
        requires { AreStanding self.now.tables }
        ensures { AreThere self.now.tables.borders result.items }
    {
        assert!(rt; self.tables.borders.holds(number));
        gather_rings(alloc, &self.tables.borders, &[number]).expect(rt, MEMORY)
    }

    /// Takes out the ring with a number, which stands.
    fn take_out<R: Abort>(&mut self, rt: &R, alloc: Global, number: usize)
        requires { AreStanding self.old.tables }
        ensures { AreStanding self.new.tables }
    {
        let rings = self.gather(rt, alloc, number);
        take_out_rings(&mut self.tables, rings.as_slice());
    }

    /// The key of the vertex at a position, which stands.
    fn key<R: Abort>(&self, rt: &R, x: i64, y: i64) -> VertexKey {
        self.tables
            .vertices
            .key_of(at(rt, x, y))
            .expect(rt, "a vertex stands there")
    }

    /// How many rings, vertices and segments there are.
    fn counts(&self) -> (usize, usize, usize) {
        (
            self.rings.len(),
            self.tables.vertices.len(),
            self.tables.index.len(),
        )
    }
}

/// Lays both squares, and counts how often their sides are used.
fn share_a_side<R: Abort>(rt: &R, alloc: Global, squares: &mut Squares)
    requires { AreStanding squares.old.tables }
{
    squares.lay_squares(rt, alloc);
    let (corner, above) = (squares.key(rt, 10, 0), squares.key(rt, 10, 10));
    let origin = squares.key(rt, 0, 0);
    let borders = &squares.tables.borders;
    let are_used = borders.uses(corner, above) == 2 && borders.uses(corner, origin) == 1;
    assert!(rt; squares.counts() == (2, 6, 7));
    assert!(rt; are_used && borders.uses(origin, above) == 0);
}

#[test]
fn squares_share_a_side(rt: HostRuntime) {
    let seed = fixed_seed().expect(&rt, "a seed");
    share_a_side(&rt, rt.alloc(), &mut Squares::new(rt.alloc(), seed));
}

/// The numbers of the two rings that were laid.
fn numbers<R: Abort>(rt: &R, squares: &Squares) -> (usize, usize) {
    let [left, right] = squares.rings.as_slice() else {
        panic!(rt; "two rings");
    };
    (left.number, right.number)
}

/// There is one ring, the right square with this number.
fn see_right<R: Abort>(rt: &R, squares: &Squares, laid: &[LaidRing], number: usize) {
    let [ring] = laid else {
        panic!(rt; "one ring");
    };
    let want = [
        squares.key(rt, 10, 0),
        squares.key(rt, 20, 0),
        squares.key(rt, 20, 10),
        squares.key(rt, 10, 10),
    ];
    assert!(rt; ring.number == number && ring.keys.as_slice() == want.as_slice());
}

/// Lays both squares, and gathers the right one.
fn gather_right<R: Abort>(rt: &R, alloc: Global, squares: &mut Squares)
    requires { AreStanding squares.old.tables }
{
    squares.lay_squares(rt, alloc);
    let (_, right) = numbers(rt, squares);
    let laid = squares.gather(rt, alloc, right);
    see_right(rt, squares, laid.as_slice(), right);
}

// in the order in which they were given, each from its first position on
#[test]
fn rings_are_gathered_by_number(rt: HostRuntime) {
    let seed = fixed_seed().expect(&rt, "a seed");
    gather_right(&rt, rt.alloc(), &mut Squares::new(rt.alloc(), seed));
}

/// Whether there are so many vertices and segments.
fn has_counts(squares: &Squares, vertices: usize, segments: usize) -> bool {
    squares.tables.vertices.len() == vertices && squares.tables.index.len() == segments
}

/// The right square stands alone.
fn see_right_alone<R: Abort>(rt: &R, squares: &Squares) {
    let origin = squares.tables.vertices.key_of(at(rt, 0, 0));
    assert!(rt; has_counts(squares, 4, 4) && origin.is_none());
    let (corner, above) = (squares.key(rt, 10, 0), squares.key(rt, 10, 10));
    assert!(rt; squares.tables.borders.uses(corner, above) == 1);
}

/// Lays both squares, and takes out the left one and then the right one.
fn take_both_out<R: Abort>(rt: &R, alloc: Global, squares: &mut Squares)
    requires { AreStanding squares.old.tables }
{
    squares.lay_squares(rt, alloc);
    let (left, right) = numbers(rt, squares);
    squares.take_out(rt, alloc, left);
    see_right_alone(rt, squares);
    squares.take_out(rt, alloc, right);
    assert!(rt; has_counts(squares, 0, 0));
}

// the other square keeps its sides and corners, until it goes too
#[test]
fn squares_taken_out(rt: HostRuntime) {
    let seed = fixed_seed().expect(&rt, "a seed");
    take_both_out(&rt, rt.alloc(), &mut Squares::new(rt.alloc(), seed));
}
