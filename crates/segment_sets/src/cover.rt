use std::marker::Model;

/// A block of cells: the columns from left up to below right, the rows from low up to below high.
#[derive(Clone, Copy)]
pub struct Cover {
    pub left: usize,
    pub right: usize,
    pub low: usize,
    pub high: usize,
}

impl Model for Cover {
    ghost use Rattle.segment_sets.specs.Covers.{Cover as Cells};

    ghost Value = { Cells };

    ghost view = { λ c. record { left = c.left; right = c.right; low = c.low; high = c.high } };

    ghost inverse = { λ c. record { left = c.left; right = c.right; low = c.low; high = c.high } };
}
