use grid_geometry::Pos;

/// A vertex that was left out, and the two that it stood between.
#[derive(Clone, Copy)]
pub struct Removal {
    pub at: Pos,
    pub a: Pos,
    pub b: Pos,
}
