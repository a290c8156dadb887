// From a map of rings to its text.
ghost use Rattle.std.specs.Prelude.{◌≡◌, IfOk, IfErr, OnOk};
ghost use Rattle.map_text.specs.Common.{Saved, text_of};
ghost use Rattle.ring_machine.specs.Common.{Proper};
ghost use Rattle.topo_reader.specs.Common.{document_of, IsOfRings, view_raw};
ghost use Rattle.mend_report.specs.Unsaved.{IsUnsaved, DoesNotOpen, unbuilt};
ghost use Rattle.mend_report.specs.Opens.{OpensAgain, IsRead};

use crate::save_fault::SaveFault;
use arc_store::{BuildFault, Map};
use device_io::ToWriter;
use segment_index::TreeIndex;
use std::alloc::{Allocator, Global};
use std::hash::RandomState;
use topo_outline::OpenFault;
use topo_reader::{RawDoc, read};
use topo_writer::write;

/// Why a map that is not built is not saved.
fn unbuilt(fault: BuildFault) -> SaveFault
    ensures { result ≡ unbuilt fault }
{
    match fault {
        BuildFault::Conflict { s, t } => SaveFault::Conflict { s, t },
        BuildFault::OutOfMemory => SaveFault::OutOfMemory,
    }
}

/// The text of a map whose segments do not conflict.
fn written<'a, A: Allocator + Copy>(
    alloc: A,
    heap: Global,
    seed: RandomState,
    raw: RawDoc<'a, A>,
) -> Result<Vec<u8, A>, SaveFault>
    requires { IsOfRings (view_raw raw) }
    ensures text { IfOk result (λ text. text.items ≡ text_of (document_of (view_raw raw.entry))) }
    ensures saved { IfOk result (λ text. Saved text.items (document_of (view_raw raw.entry))) }
    ensures proper { OnOk result (Proper (document_of (view_raw raw.entry))) }
    ensures fault { IfErr result (IsUnsaved (document_of (view_raw raw.entry))) }
{
    let index = TreeIndex::new(heap, raw.extent());
    let map = match Map::build(alloc, heap, seed, raw, index) {
        Ok(map) => map,
        Err(fault) => return Err(unbuilt(fault)),
    };
    let mut out = ToWriter::new(Vec::new(alloc));
    match write(alloc, &map, &mut out) {
        Ok(()) => Ok(out.writer),
        // A list of bytes fails only on allocation failure.
        Err(_) => Err(SaveFault::OutOfMemory),
    }
}

/// Reads a text again, and lets go what was read.
fn read_again<A: Allocator + Copy>(
    alloc: A,
    heap: Global,
    seed: RandomState,
    text: &[u8],
) -> Result<(), SaveFault>
    ensures read { OnOk result (IsRead text.now) }
    ensures fault { IfErr result (DoesNotOpen text.now) }
{
    match read(alloc, heap, seed, text) {
        Ok(raw) => {
            drop(raw);
            Ok(())
        }
        Err(fault) => match fault {
            OpenFault::OutOfMemory => Err(SaveFault::OutOfMemory),
            _ => Err(SaveFault::Unopened),
        },
    }
}

/// The text of a map of rings, in which each border stands once. It opens as the same map but for the
/// numbers of its features: it has been read again, and its segments are those of the map. Fails with
/// `Conflict` where two segments conflict, with `Unopened` where the text is over a limit, and on
/// allocation failure.
///
/// The text and what is read of it lie in `alloc`, the index and long lists of arcs in `heap`.
pub fn saved_text<'a, A: Allocator + Copy>(
    alloc: A,
    heap: Global,
    seed: RandomState,
    raw: RawDoc<'a, A>,
) -> Result<Vec<u8, A>, SaveFault>
    requires { IsOfRings (view_raw raw) }
    ensures text { IfOk result (λ text. text.items ≡ text_of (document_of (view_raw raw.entry))) }
    ensures saved { IfOk result (λ text. Saved text.items (document_of (view_raw raw.entry))) }
    ensures proper { OnOk result (Proper (document_of (view_raw raw.entry))) }
    ensures opens { IfOk result
        (λ text. OpensAgain text.items (document_of (view_raw raw.entry))) }
    ensures fault { IfErr result (IsUnsaved (document_of (view_raw raw.entry))) }
{
    let text = written(alloc, heap, seed, raw)?;
    read_again(alloc, heap, seed, text.as_slice())?;
    Ok(text)
}
