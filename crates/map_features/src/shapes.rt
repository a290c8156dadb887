// The features of a map.
ghost use Rattle.std.specs.Prelude.{◌≡◌, ◌++◌, drop, flat_map, length, map, IfOk, IfSome, OnOk};
ghost use Rattle.std.specs.List.{All};
ghost use Rattle.grid_geometry.specs.Common.{Position};
ghost use Rattle.map_features.specs.Windows.{IsWithin, AreWithin, ArePolygonsShown};
ghost use Rattle.topo_outline.specs.Common.{view_item, view_layer};
ghost use Rattle.map_features.specs.Shapes.{ShapeIn, features_described, heads_in, description_of, descriptions_from, heads_of};

use crate::areas::area;
use crate::bounds::Bounds;
use crate::extents::with_polygons;
use crate::window::Window;
use grid_geometry::Pos;
use std::alloc::{AllocError, Allocator};
use topo_outline::{Item, RawLayer};
use topo_reader::RawDoc;

/// A feature of a map, whose texts and polygons stay with the map.
#[derive_where(Clone, Copy)]
pub struct Shape<'r, A: Allocator + Copy> {
    /// Its number, in the order of the text.
    pub number: usize,
    /// The text of its `id`.
    pub id: Option<&'r [u8]>,
    /// The text of its `properties`.
    pub properties: Option<&'r [u8]>,
    /// Its polygons.
    pub polygons: &'r [Vec<Vec<Pos, A>, A>],
}

/// What two features are compared by: their ids, and then their rings.
pub(crate) type Key<'r, A> = (Option<&'r [u8]>, &'r [Vec<Vec<Pos, A>, A>]);

impl<'r, A: Allocator + Copy> Shape<'r, A> {
    /// What it is compared by.
    pub(crate) fn key(&self) -> Key<'r, A> {
        (self.id, self.polygons)
    }

    /// The least and the greatest coordinates of its rings.
    pub fn bounds(&self) -> Option<Bounds>
        ensures { AreWithin result self.now.polygons.now }
    {
        with_polygons(None, self.polygons)
    }

    /// The part of the grid about it; none where it has no ring.
    pub fn surroundings(&self) -> Option<Window>
        ensures { IfSome result (λ window. ArePolygonsShown window self.now.polygons.now) }
    {
        let bounds = self.bounds()?;
        Some(Window::near(bounds))
    }
}

/// Appends the feature that an item of a layer is, if it is one.
fn push_leaf<'r, A: Allocator + Copy>(
    shapes: &mut Vec<Shape<'r, A>, A>,
    item: &'r Item<'_, A>,
    polygons: &'r [Vec<Vec<Vec<Pos, A>, A>, A>],
) -> Result<(), AllocError>
    ensures { OnOk result (map description_of shapes.new.items ≡ map description_of shapes.old.items
        ++ descriptions_from (length shapes.old.items) (heads_in (view_item item.now))
        (drop (length shapes.old.items) (map (λ p. p.items) polygons.now))) }
{
    let number = shapes.len();
    if let Item::Leaf(feature) = item
        && let Some(polygons) = polygons.get(number)
    {
        shapes.push(Shape {
            number,
            id: feature.head.id,
            properties: feature.head.properties,
            polygons: polygons.as_slice(),
        })?;
    }
    Ok(())
}

/// Appends the features among the items of a layer.
fn push_leaves<'r, A: Allocator + Copy>(
    shapes: &mut Vec<Shape<'r, A>, A>,
    items: &'r [Item<'_, A>],
    polygons: &'r [Vec<Vec<Vec<Pos, A>, A>, A>],
) -> Result<(), AllocError>
    ensures { OnOk result (map description_of shapes.new.items ≡ map description_of shapes.old.items
        ++ descriptions_from (length shapes.old.items) (flat_map heads_in (map view_item items.now))
        (drop (length shapes.old.items) (map (λ p. p.items) polygons.now))) }
{
    for item in items {
        push_leaf(shapes, item, polygons)?;
    }
    Ok(())
}

/// Appends the features of layers.
fn push_layers<'r, A: Allocator + Copy>(
    shapes: &mut Vec<Shape<'r, A>, A>,
    layers: &'r [RawLayer<'_, A>],
    polygons: &'r [Vec<Vec<Vec<Pos, A>, A>, A>],
) -> Result<(), AllocError>
    ensures { OnOk result (map description_of shapes.new.items ≡ map description_of shapes.old.items
        ++ descriptions_from (length shapes.old.items) (heads_of (map view_layer layers.now))
        (drop (length shapes.old.items) (map (λ p. p.items) polygons.now))) }
{
    for layer in layers {
        push_leaves(shapes, layer.items.as_slice(), polygons)?;
    }
    Ok(())
}

/// The features of a map in the order of its text, with these polygons.
pub fn shapes_of<'r, A: Allocator + Copy>(
    alloc: A,
    raw: &'r RawDoc<'_, A>,
    polygons: &'r [Vec<Vec<Vec<Pos, A>, A>, A>],
) -> Result<Vec<Shape<'r, A>, A>, AllocError>
    ensures { IfOk result (λ shapes. map description_of shapes.items
        ≡ features_described raw.now polygons.now) }
{
    let mut shapes = Vec::new(alloc);
    push_layers(&mut shapes, raw.layers.values().as_slice(), polygons)?;
    Ok(shapes)
}

/// The least and the greatest coordinates of features.
pub fn bounds_of<A: Allocator + Copy>(
    before: Option<Bounds>,
    shapes: &[Shape<'_, A>],
) -> Option<Bounds>
    ensures new { All (ShapeIn result) shapes.now }
    ensures kept { (p : Position) → IsWithin before p → IsWithin result p }
{
    let mut bounds = before;
    for shape in shapes {
        bounds = with_polygons(bounds, shape.polygons);
    }
    bounds
}

/// The features, the one with the largest area first.
pub fn by_size<'r, A: Allocator + Copy>(
    alloc: A,
    shapes: &[Shape<'r, A>],
) -> Result<Vec<Shape<'r, A>, A>, AllocError> {
    let mut sized = Vec::new(alloc);
    for shape in shapes {
        let area = area(shape.polygons).unwrap_or(0);
        sized.push((0i128.saturating_sub(area), shape.number, *shape))?;
    }
    sized.sort_unstable_by_key(|(size, number, _)| (*size, *number));
    let mut found = Vec::new(alloc);
    for (_, _, shape) in &sized {
        found.push(*shape)?;
    }
    Ok(found)
}
