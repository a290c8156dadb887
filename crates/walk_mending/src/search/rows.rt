// Edges of rings in rows, so that who looks along a height sees few of them.
ghost use Rattle.std.specs.Prelude.{◌≤◌};

use grid_geometry::Pos;
use std::alloc::{AllocError, Allocator};

/// An edge of a ring, with the ring's place among the rings.
#[derive(Clone, Copy)]
pub(crate) struct Edge {
    pub(crate) ring: usize,
    pub(crate) from: Pos,
    pub(crate) to: Pos,
}

impl Edge {
    fn low(&self) -> i64 {
        self.from.y().min(self.to.y())
    }

    fn high(&self) -> i64 {
        self.from.y().max(self.to.y())
    }
}

/// Appends the edges of a ring that are not level.
pub(crate) fn push_edges<A: Allocator>(
    edges: &mut Vec<Edge, A>,
    ring: usize,
    positions: &[Pos],
) -> Result<(), AllocError> {
    let next = positions.iter().skip(1).chain(positions);
    for (from, to) in positions.iter().zip(next) {
        if from.y() != to.y() {
            edges.push(Edge {
                ring,
                from: *from,
                to: *to,
            })?;
        }
    }
    Ok(())
}

/// The least and the greatest height of edges.
fn reach(edges: &[Edge]) -> (i64, i64) {
    let (mut low, mut high) = (i64::MAX, i64::MIN);
    for edge in edges {
        low = low.min(edge.low());
        high = high.max(edge.high());
    }
    (low, high)
}

/// How far edges rise on average.
fn mean_rise(edges: &[Edge]) -> u64 {
    let mut sum = 0u128;
    for edge in edges {
        sum = sum.saturating_add(u128::from(edge.low().abs_diff(edge.high())));
    }
    let mean = sum.checked_div(edges.len() as u128).unwrap_or(0);
    u64::try_from(mean).unwrap_or(u64::MAX)
}

/// Edges in rows of one height, each in every row that it reaches: some twice as many as there are.
#[derive(Drop)]
pub(crate) struct Rows<A: Allocator + Copy> {
    low: i64,
    height: u64,
    rows: Vec<Vec<Edge, A>, A>,
    ghost are_high: { 1 ≤ height },
}

impl<A: Allocator + Copy> Rows<A> {
    /// These edges in rows, of which there are no more than edges.
    pub(crate) fn new(alloc: A, edges: &[Edge]) -> Result<Rows<A>, AllocError> {
        let (low, high) = reach(edges);
        let least = low.abs_diff(high) / (edges.len() as u64).max(1);
        let height = mean_rise(edges).max(least).saturating_add(1);
        let mut rows = Rows {
            low,
            height,
            rows: Vec::new(alloc),
        };
        rows.fill(alloc, edges)?;
        Ok(rows)
    }

    /// The row of a height.
    fn row_of(&self, y: i64) -> usize {
        (self.low.abs_diff(y) / self.height) as usize
    }

    /// Puts edges into their rows.
    fn fill(&mut self, alloc: A, edges: &[Edge]) -> Result<(), AllocError> {
        for edge in edges {
            self.make_up_to(alloc, self.row_of(edge.high()))?;
            self.put(*edge)?;
        }
        Ok(())
    }

    /// Makes the rows up to this one that are not there.
    fn make_up_to(&mut self, alloc: A, last: usize) -> Result<(), AllocError> {
        for _ in self.rows.len()..=last {
            self.rows.push(Vec::new(alloc))?;
        }
        Ok(())
    }

    /// Puts an edge into each row that it reaches.
    fn put(&mut self, edge: Edge) -> Result<(), AllocError> {
        for row in self.row_of(edge.low())..=self.row_of(edge.high()) {
            if let Some(row) = self.rows.get_mut(row) {
                row.push(edge)?;
            }
        }
        Ok(())
    }

    /// The edges of the row of a height, among them each that reaches it.
    pub(crate) fn at(&self, y: i64) -> &[Edge] {
        match self.rows.get(self.row_of(y)) {
            Some(row) => row.as_slice(),
            None => &[],
        }
    }
}
