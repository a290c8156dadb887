//! The text of a whole map, sent to a device.
ghost use Rattle.std.specs.Prelude.{◌≡◌, ◌++◌, false, map, option_map, OnOk};
ghost use Rattle.device_io.specs.Common.{Sends};
ghost use Rattle.map_text.specs.Common.{Saved, text_of};
ghost use Rattle.topo_outline.specs.Common.{view_kept};
ghost use Rattle.topo_writer.specs.Faults.{of_device};
ghost use Rattle.topo_writer.specs.Sections.{begin_text, end_text, IsMapFrame};

use crate::arcs::Arcs;
use crate::fault::WriteFault;
use crate::layers::send_layers;
use crate::members::{push_kept, push_member_if};
use arc_store::{FrameView, Map, MarkedMap};
use device_io::{Sink, put_all};
use segment_index::SegIndex;
use std::alloc::{AllocError, Allocator};
use topo_outline::KeptMember;

/// Appends the begin of the text, up to the first layer (TopoJSON 1.0, 2.1).
fn push_begin<A: Allocator + Copy>(
    text: &mut Vec<u8, A>,
    transform: Option<&[u8]>,
) -> Result<(), AllocError>
    ensures { OnOk result (text.new.items
        ≡ text.old.items ++ begin_text (option_map (λ t. t.now) transform.entry)) }
{
    text.extend_from_slice(b"{\"type\":\"Topology\"")?;
    push_member_if(text, b"\"transform\"", transform)?;
    text.extend_from_slice(b",\"objects\":{")?;
    Ok(())
}

/// Appends the end of the text, from the last arc on.
fn push_end<A: Allocator + Copy>(
    text: &mut Vec<u8, A>,
    members: &[KeptMember<'_>],
) -> Result<(), AllocError>
    ensures { OnOk result (text.new.items
        ≡ text.old.items ++ end_text (map view_kept members.now)) }
{
    text.extend_from_slice(b"]")?;
    push_kept(text, members)?;
    text.extend_from_slice(b"}")
}

/// How many bytes the pair of a vertex takes in most texts, at the most.
const PAIR_BYTES: usize = 24;

/// Sends the text of a map that has this frame; there is to be room for arcs of so many bytes.
fn send_map<'m, 'a, I: SegIndex, A: Allocator + Copy, W: Sink>(
    alloc: A,
    room: usize,
    map: &MarkedMap<'_, 'a, I, A>,
    frame: &FrameView<'m, 'a, A>,
    out: &mut W,
) -> Result<(), WriteFault>
    requires working { W.has_failed out.old ≡ false }
    requires frame { IsMapFrame map.now frame.now }
    ensures { Sends W.Sink of_device out.old out.new result (text_of map.now) }
{
    let mut text = Vec::new(alloc);
    let delta = frame.transform().is_some();
    let mut arcs = Arcs::with_room(alloc, room, map.seed(), delta)?;
    push_begin(&mut text, frame.transform())?;
    put_all(out, text.as_slice())?;
    send_layers(map, frame, &mut arcs, &mut text, out)?;
    put_all(out, b"},\"arcs\":[")?;
    put_all(out, arcs.listed.as_slice())?;
    text.clear();
    push_end(&mut text, frame.members())?;
    put_all(out, text.as_slice())?;
    Ok(())
}

/// Writes the text of a map (TopoJSON 1.0): its layers by name, each border in one arc, and the members
/// that were kept. The map is not changed. Where the writer fails in this call, the fault is `Device`,
/// and where memory for a piece of the text is refused, `OutOfMemory`; a prefix of the text may have
/// been taken then.
pub fn write<'a, I: SegIndex, A: Allocator + Copy, W: Sink>(
    alloc: A,
    map: &Map<'a, I, A>,
    out: &mut W,
) -> Result<(), WriteFault>
    requires { W.has_failed out.old ≡ false }
    ensures sends { Sends W.Sink of_device out.old out.new result (text_of map.now.doc) }
    ensures saved { Saved (text_of map.now.doc) map.now.doc }
{
    let frame = map.frame();
    let marked = map.marked()?;
    let room = map.vertex_count().saturating_mul(PAIR_BYTES);
    send_map(alloc, room, &marked, &frame, out)
}
