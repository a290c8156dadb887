//! The polygons of a feature, in the text.
ghost use Rattle.std.specs.Prelude.{◌≡◌, ◌++◌, Some, true, option_map, OnOk};
ghost use Rattle.ring_machine.specs.Common.{Feature, feature, Proper, fits_form};
ghost use Rattle.topo_outline.specs.Common.{form_of};
ghost use Rattle.map_frame.specs.Common.{shown};
ghost use Rattle.map_text.specs.Common.{type_text};
ghost use Rattle.topo_writer.specs.ByTable.{text_of_feature, text_of_polygons, text_of_shape};
ghost use Rattle.topo_writer.specs.Reading.{all_rings_at, AreRingsOf};
ghost use Rattle.topo_writer.specs.Tables.{FindsArcs, HasRoom, TakesPolygons};

use crate::arcs::Arcs;
use crate::members::{push_kept, push_member_if};
use crate::rings::push_polygon_of;
use crate::texts::push_comma;
use arc_store::{FeatureView, MarkedMap};
use segment_index::SegIndex;
use std::alloc::{AllocError, Allocator};
use topo_outline::Form;

/// Appends the polygons of the feature with this number, with commas between them.
pub(crate) fn push_polygons_of<'a, I: SegIndex, A: Allocator + Copy>(
    map: &MarkedMap<'_, 'a, I, A>,
    arcs: &mut Arcs<A>,
    text: &mut Vec<u8, A>,
    view: &FeatureView<'_, 'a, A>,
    n: u32,
) -> Result<(), AllocError>
    requires proper { Proper map.now }
    requires seen { Some view.now ≡ option_map shown (feature map.now n) }
    requires there { AreRingsOf map.now (all_rings_at map.now n) }
    requires table { FindsArcs map.now arcs.old }
    requires few { HasRoom map.now arcs.old (all_rings_at map.now n) }
    ensures table { OnOk result (FindsArcs map.now arcs.new) }
    ensures arcs { OnOk result (TakesPolygons map.now arcs.old arcs.new n) }
    ensures text { OnOk result (text.new.items
        ≡ text.old.items ++ text_of_polygons map.now arcs.new n) }
{
    for polygon in 0..view.polygon_count() {
        push_comma(text, polygon > 0)?;
        push_polygon_of(map, arcs, text, n, polygon, view.ring_count(polygon))?;
    }
    Ok(())
}

/// Appends the member `arcs` of the feature with this number, after a comma: its one polygon, or
/// the list of its polygons, or nothing (TopoJSON 1.0, 2.2).
fn push_shape<'a, I: SegIndex, A: Allocator + Copy>(
    map: &MarkedMap<'_, 'a, I, A>,
    arcs: &mut Arcs<A>,
    text: &mut Vec<u8, A>,
    view: &FeatureView<'_, 'a, A>,
    n: u32,
) -> Result<(), AllocError>
    requires proper { Proper map.now }
    requires seen { Some view.now ≡ option_map shown (feature map.now n) }
    requires fits { (f : Feature) → feature map.now n ≡ Some f → fits_form f ≡ true }
    requires there { AreRingsOf map.now (all_rings_at map.now n) }
    requires table { FindsArcs map.now arcs.old }
    requires few { HasRoom map.now arcs.old (all_rings_at map.now n) }
    ensures table { OnOk result (FindsArcs map.now arcs.new) }
    ensures arcs { OnOk result (TakesPolygons map.now arcs.old arcs.new n) }
    ensures text { OnOk result (text.new.items
        ≡ text.old.items ++ text_of_shape map.now arcs.new view.now.form n) }
{
    match view.form() {
        Form::Polygon => {
            text.extend_from_slice(b",\"arcs\":")?;
            push_polygon_of(map, arcs, text, n, 0, view.ring_count(0))?;
        }
        Form::MultiPolygon => {
            text.extend_from_slice(b",\"arcs\":[")?;
            push_polygons_of(map, arcs, text, view, n)?;
            text.extend_from_slice(b"]")?;
        }
        Form::Null => {}
    }
    Ok(())
}

/// The value of `type` (TopoJSON 1.0, 2.2).
fn type_token(form: Form) -> &'static [u8]
    ensures { result.now ≡ type_text (form_of form) }
{
    match form {
        Form::Polygon => b"\"Polygon\"",
        Form::MultiPolygon => b"\"MultiPolygon\"",
        Form::Null => b"null",
    }
}

/// Appends the feature with this number, by the indexes of its rings' arcs. A piece that is no arc
/// yet becomes the next one.
pub(crate) fn push_feature<'a, I: SegIndex, A: Allocator + Copy>(
    map: &MarkedMap<'_, 'a, I, A>,
    arcs: &mut Arcs<A>,
    text: &mut Vec<u8, A>,
    view: &FeatureView<'_, 'a, A>,
    n: u32,
) -> Result<(), AllocError>
    requires proper { Proper map.now }
    requires seen { Some view.now ≡ option_map shown (feature map.now n) }
    requires fits { (f : Feature) → feature map.now n ≡ Some f → fits_form f ≡ true }
    requires there { AreRingsOf map.now (all_rings_at map.now n) }
    requires table { FindsArcs map.now arcs.old }
    requires few { HasRoom map.now arcs.old (all_rings_at map.now n) }
    ensures table { OnOk result (FindsArcs map.now arcs.new) }
    ensures arcs { OnOk result (TakesPolygons map.now arcs.old arcs.new n) }
    ensures text { OnOk result ((f : Feature) → feature map.now n ≡ Some f
        → text.new.items ≡ text.old.items ++ text_of_feature map.now arcs.new f) }
{
    text.extend_from_slice(b"{\"type\":")?;
    text.extend_from_slice(type_token(view.form()))?;
    push_member_if(text, b"\"id\"", view.id())?;
    push_member_if(text, b"\"properties\"", view.properties())?;
    push_shape(map, arcs, text, view, n)?;
    push_kept(text, view.members())?;
    text.extend_from_slice(b"}")?;
    Ok(())
}
