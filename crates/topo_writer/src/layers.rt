//! The layers of a map, sent to a device one after another.
ghost use Rattle.std.specs.Prelude.{◌≡◌, ◌+◌, ◌<◌, ◌++◌, [], codes, length, nat_lt, false, OnOk};
ghost use Rattle.device_io.specs.Common.{Sends};
ghost use Rattle.map_text.specs.Common.{arcs_of, comma_if};
ghost use Rattle.topo_writer.specs.Faults.{of_device};
ghost use Rattle.topo_writer.specs.Sections.{arcs_after, layer_at, layer_text, layers_text};
ghost use Rattle.topo_writer.specs.Sections.{IsMapFrame};
ghost use Rattle.topo_writer.specs.Tables.{arcs_in, FindsArcs};

use crate::arcs::Arcs;
use crate::fault::WriteFault;
use crate::items::send_items;
use crate::texts::push_comma;
use arc_store::{FrameView, MarkedMap};
use device_io::{Sink, put_all};
use segment_index::SegIndex;
use std::alloc::{AllocError, Allocator};

/// Appends the name of a layer and a colon, after a comma where something stands before.
fn push_name<A: Allocator + Copy>(
    text: &mut Vec<u8, A>,
    more: bool,
    name: &[u8],
) -> Result<(), AllocError>
    ensures { OnOk result (text.new.items
        ≡ text.old.items ++ (comma_if more ++ (name.now ++ codes ":"))) }
{
    push_comma(text, more)?;
    text.extend_from_slice(name)?;
    text.extend_from_slice(b":")
}

/// Sends the layer with this number, and a comma where something stands before. A piece that is no
/// arc yet becomes the next one.
fn send_layer<'m, 'a, I: SegIndex, A: Allocator + Copy, W: Sink>(
    map: &MarkedMap<'_, 'a, I, A>,
    frame: &FrameView<'m, 'a, A>,
    i: usize,
    arcs: &mut Arcs<A>,
    text: &mut Vec<u8, A>,
    out: &mut W,
) -> Result<(), WriteFault>
    requires working { W.has_failed out.old ≡ false }
    requires frame { IsMapFrame map.now frame.now }
    requires there { i < length map.now.layers }
    requires table { FindsArcs map.now arcs.old }
    requires arcs { arcs_in map.now arcs.old ≡ arcs_after map.now i }
    ensures table { OnOk result (FindsArcs map.now arcs.new) }
    ensures arcs { OnOk result (arcs_in map.now arcs.new ≡ arcs_after map.now (i + 1)) }
    ensures sends { Sends W.Sink of_device out.old out.new result
        (comma_if (nat_lt 0 i) ++ layer_text map.now (layer_at map.now i)) }
{
    let Some(name) = frame.layer_name(i) else {
        return Ok(());
    };
    let Some(items) = frame.items(i) else {
        return Ok(());
    };
    text.clear();
    push_name(text, i > 0, name)?;
    put_all(out, text.as_slice())?;
    send_items(map, arcs, items, text, out)?;
    Ok(())
}

/// Sends the layers, with commas between them, and takes their arcs into the table.
pub(crate) fn send_layers<'m, 'a, I: SegIndex, A: Allocator + Copy, W: Sink>(
    map: &MarkedMap<'_, 'a, I, A>,
    frame: &FrameView<'m, 'a, A>,
    arcs: &mut Arcs<A>,
    text: &mut Vec<u8, A>,
    out: &mut W,
) -> Result<(), WriteFault>
    requires working { W.has_failed out.old ≡ false }
    requires frame { IsMapFrame map.now frame.now }
    requires table { FindsArcs map.now arcs.old }
    requires none { arcs.old.rings.items ≡ [] }
    ensures table { OnOk result (FindsArcs map.now arcs.new) }
    ensures arcs { OnOk result (arcs_in map.now arcs.new ≡ arcs_of map.now) }
    ensures sends { Sends W.Sink of_device out.old out.new result (layers_text map.now) }
{
    for i in 0..frame.layer_count() {
        send_layer(map, frame, i, arcs, text, out)?;
    }
    Ok(())
}
