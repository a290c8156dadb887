// The arcs that the rings use (TopoJSON 1.0, 2.1.4).
ghost use Rattle.std.specs.Prelude.{◌≡◌, map, option_map, slice_get, reverse, pos, negsuc, ◌<ℤ◌, ◌≤ℤ◌};
ghost use Rattle.json_spans.specs.Common.{node};
ghost use Rattle.topo_outline.specs.Common.{each, Gives, form_of, view_place};
ghost use Rattle.topo_reader.specs.Indexes.{arc_named, index, ring, polygon, polygons, uses_of};
ghost use Rattle.topo_reader.specs.Uses.{arc_of, ring_uses, polygon_uses, feature_uses, positions_of};

use grid_geometry::Pos;
use json_spans::{NotWhole, Span, at, items, whole};
use std::alloc::Allocator;
use topo_outline::{Form, OpenFault, Place};

/// An arc as a ring uses it: as it stands, or in reverse.
#[derive(Clone, Copy)]
pub struct Use<'b> {
    pub arc: &'b [Pos],
    pub reversed: bool,
}

fn nth<'b, A: Allocator + Copy>(arcs: &'b [Vec<Pos, A>], at: usize) -> Option<&'b [Pos]>
    ensures { option_map (λ s. s.now) result ≡ slice_get (map positions_of arcs.now) at }
{
    match arcs.get(at) {
        Some(arc) => Some(arc.as_slice()),
        None => None,
    }
}

fn complement(index: i64) -> usize
    requires { index <ℤ pos 0 }
    ensures { negsuc result ≡ index }
{
    (-1 - index) as usize
}

fn plain(index: i64) -> usize
    requires { pos 0 ≤ℤ index }
    ensures { pos result ≡ index }
{
    index as usize
}

fn forward<'b>(arc: Option<&'b [Pos]>) -> Option<Use<'b>>
    ensures { option_map arc_of result ≡ option_map (λ s. s.now) arc.entry }
{
    match arc {
        Some(arc) => Some(Use {
            arc,
            reversed: false,
        }),
        None => None,
    }
}

fn backward<'b>(arc: Option<&'b [Pos]>) -> Option<Use<'b>>
    ensures { option_map arc_of result ≡ option_map reverse (option_map (λ s. s.now) arc.entry) }
{
    match arc {
        Some(arc) => Some(Use {
            arc,
            reversed: true,
        }),
        None => None,
    }
}

/// The arc under an index, in reverse under the ones' complement.
#[tactic(auto, using(crate::proofs::Named::under_plain, crate::proofs::Named::under_complement))]
fn named<'b, A: Allocator + Copy>(arcs: &'b [Vec<Pos, A>], index: i64) -> Option<Use<'b>>
    ensures { option_map arc_of result ≡ arc_named (map positions_of arcs.now) index }
{
    if index < 0 {
        backward(nth(arcs, complement(index)))
    } else {
        forward(nth(arcs, plain(index)))
    }
}

fn index<'a, 'b, A: Allocator + Copy>(
    arcs: &'b [Vec<Pos, A>],
    part: Span<'a>,
) -> Result<Use<'b>, OpenFault<'a>>
    ensures { Gives arc_of result (index (map positions_of arcs.now) (node part.entry)) }
{
    match whole(part) {
        Ok(z) => named(arcs, z).ok_or(OpenFault::BadArcIndex { place: at(part) }),
        Err(NotWhole::Form) => Err(OpenFault::NotWhole { place: at(part) }),
        Err(NotWhole::Huge) => Err(OpenFault::BadArcIndex { place: at(part) }),
    }
}

#[tactic(auto, unfolding(crate::specs::Indexes::ring))]
fn ring<'a, 'b, A: Allocator + Copy>(
    alloc: A,
    arcs: &'b [Vec<Pos, A>],
    span: Span<'a>,
) -> Result<Vec<Use<'b>, A>, OpenFault<'a>>
    ensures { Gives ring_uses result (ring (map positions_of arcs.now) (node span.entry)) }
{
    let mut found = Vec::new(alloc);
    for part in items(span) {
        found.push(or_return!(index(arcs, part)))?;
    }
    Ok(found)
}

#[tactic(auto, unfolding(crate::specs::Indexes::polygon))]
fn polygon<'a, 'b, A: Allocator + Copy>(
    alloc: A,
    arcs: &'b [Vec<Pos, A>],
    span: Span<'a>,
) -> Result<Vec<Vec<Use<'b>, A>, A>, OpenFault<'a>>
    ensures { Gives polygon_uses result (polygon (map positions_of arcs.now) (node span.entry)) }
{
    let mut found = Vec::new(alloc);
    for part in items(span) {
        found.push(or_return!(ring(alloc, arcs, part)))?;
    }
    Ok(found)
}

#[tactic(auto, unfolding(crate::specs::Indexes::polygons))]
fn polygons<'a, 'b, A: Allocator + Copy>(
    alloc: A,
    arcs: &'b [Vec<Pos, A>],
    form: Form,
    span: Span<'a>,
) -> Result<Vec<Vec<Vec<Use<'b>, A>, A>, A>, OpenFault<'a>>
    ensures { Gives feature_uses result
        (polygons (map positions_of arcs.now) (form_of form) (node span.entry)) }
{
    let mut found = Vec::new(alloc);
    match form {
        Form::Null => {}
        Form::Polygon => found.push(or_return!(polygon(alloc, arcs, span)))?,
        Form::MultiPolygon => {
            for part in items(span) {
                found.push(or_return!(polygon(alloc, arcs, part)))?;
            }
        }
    }
    Ok(found)
}

/// The arcs that the rings use, by feature, polygon and ring.
#[tactic(auto, unfolding(crate::specs::Indexes::uses_of))]
pub(crate) fn uses<'a, 'b, A: Allocator + Copy>(
    alloc: A,
    arcs: &'b [Vec<Pos, A>],
    places: &[Place<'a>],
) -> Result<Vec<Vec<Vec<Vec<Use<'b>, A>, A>, A>, A>, OpenFault<'a>>
    ensures { Gives (λ v. map feature_uses v.items) result
        (each (uses_of (map positions_of arcs.now)) (map view_place places.now)) }
{
    let mut found = Vec::new(alloc);
    for place in places {
        found.push(or_return!(polygons(alloc, arcs, place.form, place.arcs)))?;
    }
    Ok(found)
}
