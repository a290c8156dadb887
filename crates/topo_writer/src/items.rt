//! The items of a layer, sent to a device one after another.
ghost use Rattle.std.specs.Prelude.{◌≡◌, ℤ, List, ◌++◌, [], ◌∷◌, Some, true, false, OnOk, IfOk};
ghost use Rattle.device_io.specs.Common.{Sends};
ghost use Rattle.ring_machine.specs.Common.{Close, feature, Proper, WellFormed};
ghost use Rattle.map_frame.specs.Common.{Stands, view_item_view};
ghost use Rattle.map_text.specs.Common.{comma_if, items_text};
ghost use Rattle.topo_writer.specs.Faults.{of_device};
ghost use Rattle.topo_writer.specs.Items.{feature_or_bare, items_written, leaf_text, open_heads};
ghost use Rattle.topo_writer.specs.Items.{written, IsThere, ShowsLayer};
ghost use Rattle.topo_writer.specs.Opened.{more_after, open_after};
ghost use Rattle.topo_writer.specs.Tables.{FindsArcs, Leads, TakesFeature, TakesItem, TakesItems};

use crate::arcs::Arcs;
use crate::fault::WriteFault;
use crate::members::{push_closing, push_opening};
use crate::shapes::push_feature;
use crate::texts::push_comma;
use arc_store::{ItemIter, ItemView, MarkedMap};
use device_io::{Sink, put_all};
use segment_index::SegIndex;
use std::alloc::{AllocError, Allocator};
use topo_outline::Head;

/// Appends the end of the innermost collection that is open; nothing where none is.
fn push_close<'m, 'a, A: Allocator + Copy>(
    text: &mut Vec<u8, A>,
    heads: &mut Vec<&'m Head<'a, A>, A>,
) -> Result<(), AllocError>
    ensures text { OnOk result (text.new.items
        ≡ text.old.items ++ items_text (open_heads heads.old.items) true (Close ∷ [])) }
    ensures heads { OnOk result (open_heads heads.new.items
        ≡ open_after {R = List ℤ} (open_heads heads.old.items) (Close ∷ [])) }
{
    let Some(head) = heads.pop() else {
        return Ok(());
    };
    push_closing(text, head)
}

/// Appends the feature with this number.
fn push_leaf<'a, I: SegIndex, A: Allocator + Copy>(
    map: &MarkedMap<'_, 'a, I, A>,
    arcs: &mut Arcs<A>,
    text: &mut Vec<u8, A>,
    more: bool,
    n: u32,
) -> Result<(), AllocError>
    requires proper { Proper map.now }
    requires formed { WellFormed map.now }
    requires there { feature map.now n ≡ Some (feature_or_bare map.now n) }
    requires table { FindsArcs map.now arcs.old }
    requires leads { Leads map.now arcs.old (Stands n ∷ []) }
    ensures table { OnOk result (FindsArcs map.now arcs.new) }
    ensures arcs { OnOk result (TakesFeature map.now arcs.old arcs.new n) }
    ensures text { OnOk result (text.new.items
        ≡ text.old.items ++ (comma_if more ++ leaf_text map.now n)) }
{
    let Some(view) = map.feature(n) else {
        return Ok(());
    };
    push_comma(text, more)?;
    push_feature(map, arcs, text, &view, n)?;
    Ok(())
}

/// Appends an item into the innermost of these collections, after a comma where something stands
/// there already. Whether something stands before what follows.
fn push_item<'m, 'a, I: SegIndex, A: Allocator + Copy>(
    map: &MarkedMap<'_, 'a, I, A>,
    arcs: &mut Arcs<A>,
    text: &mut Vec<u8, A>,
    heads: &mut Vec<&'m Head<'a, A>, A>,
    more: bool,
    item: ItemView<'m, 'a, A>,
) -> Result<bool, AllocError>
    requires proper { Proper map.now }
    requires formed { WellFormed map.now }
    requires there { IsThere map.now (view_item_view item) }
    requires table { FindsArcs map.now arcs.old }
    requires leads { Leads map.now arcs.old (view_item_view item ∷ []) }
    ensures table { OnOk result (FindsArcs map.now arcs.new) }
    ensures arcs { OnOk result (TakesItem map.now arcs.old arcs.new item.entry) }
    ensures text { OnOk result (text.new.items ≡ text.old.items
        ++ items_text (open_heads heads.old.items) more (written map.now item.entry)) }
    ensures heads { OnOk result (open_heads heads.new.items
        ≡ open_after (open_heads heads.old.items) (written map.now item.entry)) }
    ensures more { IfOk result (λ after. after ≡ more_after more (written map.now item.entry)) }
{
    match item {
        ItemView::Open(head) => {
            push_comma(text, more)?;
            push_opening(text, head)?;
            heads.push(head)?;
            Ok(false)
        }
        ItemView::Close => {
            push_close(text, heads)?;
            Ok(true)
        }
        ItemView::Leaf(n) => {
            push_leaf(map, arcs, text, more, n)?;
            Ok(true)
        }
        ItemView::Kept(kept) => {
            push_comma(text, more)?;
            text.extend_from_slice(kept)?;
            Ok(true)
        }
    }
}

/// Sends the items of a layer of the map, by the indexes of their rings' arcs in the text of the
/// whole map, one after another. A piece that is no arc yet becomes the next one.
pub(crate) fn send_items<'m, 'a, I: SegIndex, A: Allocator + Copy, W: Sink>(
    map: &MarkedMap<'_, 'a, I, A>,
    arcs: &mut Arcs<A>,
    items: ItemIter<'m, 'a, A>,
    text: &mut Vec<u8, A>,
    out: &mut W,
) -> Result<(), WriteFault>
    requires working { W.has_failed out.old ≡ false }
    requires proper { Proper map.now }
    requires formed { WellFormed map.now }
    requires shows { ShowsLayer map.now items }
    requires table { FindsArcs map.now arcs.old }
    requires leads { Leads map.now arcs.old items }
    ensures table { OnOk result (FindsArcs map.now arcs.new) }
    ensures arcs { OnOk result (TakesItems map.now arcs.old arcs.new items.entry) }
    ensures sends { Sends W.Sink of_device out.old out.new result
        (items_text [] false (items_written map.now items.entry)) }
{
    let mut heads = Vec::new(*text.allocator());
    let mut more = false;
    for item in items {
        text.clear();
        more = push_item(map, arcs, text, &mut heads, more, item)?;
        put_all(out, text.as_slice())?;
    }
    Ok(())
}
