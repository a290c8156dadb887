// A number, and the feature that it has or is to have.
ghost use Rattle.std.specs.Prelude.{◌≡◌, ◌∷◌, [], IfOk};

use grid_geometry::Pos;
use map_frame::FeatureTexts;
use std::alloc::{AllocError, Allocator};

/// A feature with its rings as positions, each list of a polygon beginning with its outer ring.
#[derive(Drop)]
pub struct WholeFeature<'a, A: Allocator + Copy> {
    pub texts: FeatureTexts<'a, A>,
    pub polygons: Vec<Vec<Vec<Pos, A>, A>, A>,
}

/// A number, and the feature that it has or is to have, or none.
#[derive(Drop)]
pub struct Change<'a, A: Allocator + Copy> {
    pub number: u32,
    pub was: Option<WholeFeature<'a, A>>,
}

/// A list of one polygon, of these rings.
pub fn one_polygon<A: Allocator + Copy>(
    alloc: A,
    rings: Vec<Vec<Pos, A>, A>,
) -> Result<Vec<Vec<Vec<Pos, A>, A>, A>, AllocError>
    ensures { IfOk result (λ polygons. polygons.items ≡ rings ∷ []) }
{
    let mut polygons = Vec::new(alloc);
    polygons.push(rings)?;
    Ok(polygons)
}

/// A list of this change.
pub fn one_change<'a, A: Allocator + Copy>(
    alloc: A,
    change: Change<'a, A>,
) -> Result<Vec<Change<'a, A>, A>, AllocError>
    ensures { IfOk result (λ list. list.items ≡ change.entry ∷ []) }
{
    let mut list = Vec::new(alloc);
    list.push(change)?;
    Ok(list)
}

/// A list of these two changes.
pub fn two_changes<'a, A: Allocator + Copy>(
    alloc: A,
    first: Change<'a, A>,
    second: Change<'a, A>,
) -> Result<Vec<Change<'a, A>, A>, AllocError>
    ensures { IfOk result (λ list. list.items ≡ first.entry ∷ second.entry ∷ []) }
{
    let mut list = Vec::new(alloc);
    list.push(first)?;
    list.push(second)?;
    Ok(list)
}
