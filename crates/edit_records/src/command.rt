use crate::id_text::IdText;
use crate::path::Path;
use grid_geometry::Pos;

/// An edit or a query of a map.
#[derive(Debug, Drop)]
pub enum Command {
    /// `move x y x y`: the second position takes the place of the first in every ring.
    Move(Pos, Pos),
    /// `insert x y x y x y`: the third position goes between the other two, in every ring in which
    /// they are neighbours.
    Insert(Pos, Pos, Pos),
    /// `remove x y`: the vertex is left out of every ring.
    Remove(Pos),
    /// `thin t`: one pass over the vertices leaves out those that are flat, where twice the area of
    /// the triangle with their neighbours is at most t.
    Thin(i128),
    /// `split f id x y x y ..`: a polygon of a feature is cut along a path; the part from the last
    /// position of the path on along the outer ring becomes a new feature, which has this id.
    Split(u32, IdText, Path),
    /// `merge f g`: the second feature becomes a part of the first.
    Merge(u32, u32),
    /// `rename f id`: a feature has this id from then on.
    Rename(u32, IdText),
    /// `delete f`: a feature is taken out.
    Delete(u32),
    /// `area f`: twice the area of a feature.
    Area(u32),
    /// `at x y`: the features that hold a position, and those on whose borders it lies.
    At(Pos),
    /// `neighbours f`: the other features that have a segment in common with a feature.
    Neighbours(u32),
}
