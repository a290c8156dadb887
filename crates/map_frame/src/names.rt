// By a ring's number where it stands.
ghost use Rattle.std.specs.Prelude.{◌≡◌, ◌<◌, ◌≤◌, ℕ, length, map, Some, OnOk, IfOk, slice_get};
ghost use Rattle.std.specs.List.{flat_map};
ghost use Rattle.map_frame.specs.Common.{AllNamed, Gain, HasRoom, IsNumberOf, Loss, SameNames, element, feature_numbers};
ghost use Rattle.map_frame.specs.Common.{polygon_numbers};

use std::alloc::{AllocError, Allocator};

/// A ring of a map: of the feature with this number the polygon, and of that the ring, where the
/// outer ring is the first one.
#[derive(Clone, Copy, Debug, PartialEq, Eq)]
pub struct RingName {
    pub feature: u32,
    pub polygon: usize,
    pub ring: usize,
}

/// Makes room for the name of ring `r`.
fn reach<A: Allocator + Copy>(
    names: &mut Vec<Option<RingName>, A>,
    r: usize,
) -> Result<(), AllocError>
    ensures same { SameNames names.old.items names.new.items }
    ensures longer { length names.old.items ≤ length names.new.items }
    ensures room { OnOk result (r < length names.new.items) }
{
    while names.len() <= r {
        names.push(None)?;
    }
    Ok(())
}

/// Makes room for the names of these rings. Fails only on allocation failure.
pub(crate) fn make_room<A: Allocator + Copy>(
    names: &mut Vec<Option<RingName>, A>,
    rings: &[usize],
) -> Result<(), AllocError>
    ensures same { SameNames names.old.items names.new.items }
    ensures longer { length names.old.items ≤ length names.new.items }
    ensures room { OnOk result (HasRoom rings.now names.new.items) }
{
    for r in rings {
        reach(names, *r)?;
    }
    Ok(())
}

/// Keeps a name for each ring of a polygon.
pub(crate) fn name_polygon<A: Allocator + Copy>(
    names: &mut Vec<Option<RingName>, A>,
    feature: u32,
    polygon: usize,
    rings: &[usize],
)
    requires { HasRoom rings.now names.old.items }
    ensures gained { Gain names.old.items names.new.items (λ o k.
        (o.feature ≡ feature) × (o.polygon ≡ polygon) × (slice_get rings.now o.ring ≡ Some k)) }
    ensures len { length names.new.items ≡ length names.old.items }
{
    for ring in 0..rings.len() {
        let name = RingName {
            feature,
            polygon,
            ring,
        };
        names[rings[ring]] = Some(name);
    }
}

/// Keeps a name for each ring of a feature, where there is room.
pub(crate) fn name_polygons<A: Allocator + Copy>(
    names: &mut Vec<Option<RingName>, A>,
    feature: u32,
    polygons: &[Vec<usize, A>],
)
    requires { HasRoom (flat_map polygon_numbers polygons.now) names.old.items }
    ensures gained { Gain names.old.items names.new.items (λ o k. (o.feature ≡ feature)
        × (element (slice_get (map polygon_numbers polygons.now) o.polygon) o.ring ≡ Some k)) }
    ensures len { length names.new.items ≡ length names.old.items }
{
    for polygon in 0..polygons.len() {
        name_polygon(names, feature, polygon, polygons[polygon].as_slice());
    }
}

/// Keeps a name for each ring of a feature. Fails only on allocation failure.
fn name_feature<A: Allocator + Copy>(
    names: &mut Vec<Option<RingName>, A>,
    feature: u32,
    polygons: &[Vec<usize, A>],
) -> Result<(), AllocError>
    ensures { OnOk result (Gain names.old.items names.new.items (λ o k. (o.feature ≡ feature)
        × (element (slice_get (map polygon_numbers polygons.now) o.polygon) o.ring ≡ Some k))) }
{
    for polygon in 0..polygons.len() {
        let rings = polygons[polygon].as_slice();
        make_room(names, rings)?;
        name_polygon(names, feature, polygon, rings);
    }
    Ok(())
}

/// The name of each ring by its number, where these are the numbers of the rings of all features. Fails
/// only on allocation failure.
pub(crate) fn name_all<A: Allocator + Copy>(
    alloc: A,
    features: &[Vec<Vec<usize, A>, A>],
) -> Result<Vec<Option<RingName>, A>, AllocError>
    requires few { length features.now ≤ 200000 }
    ensures { IfOk result (λ names. AllNamed names.items (map feature_numbers features.now)) }
{
    let mut names = Vec::new(alloc);
    for feature in 0..features.len() {
        name_feature(&mut names, feature as u32, features[feature].as_slice())?;
    }
    Ok(names)
}

/// Takes out the names of the rings with these numbers.
pub(crate) fn forget_polygon<A: Allocator + Copy>(
    names: &mut Vec<Option<RingName>, A>,
    rings: &[usize],
)
    ensures lost { Loss names.old.items names.new.items (IsNumberOf rings.now) }
    ensures len { length names.new.items ≡ length names.old.items }
{
    for r in rings {
        if let Some(name) = names.get_mut(*r) {
            *name = None;
        }
    }
}

/// Takes out the names of the rings of these polygons.
pub(crate) fn forget_feature<A: Allocator + Copy>(
    names: &mut Vec<Option<RingName>, A>,
    polygons: &[Vec<usize, A>],
)
    ensures lost { Loss names.old.items names.new.items (λ r. (p i : ℕ)
        × (element (slice_get (map polygon_numbers polygons.now) p) i ≡ Some r)) }
    ensures len { length names.new.items ≡ length names.old.items }
{
    for polygon in polygons {
        forget_polygon(names, polygon.as_slice());
    }
}
