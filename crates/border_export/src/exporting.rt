//! From the bytes of a map to the text of a layer.
ghost use Rattle.std.specs.Prelude.{◌≡◌, [], IfErr, IfOk};
ghost use Rattle.geo_text.specs.Common.{IsRefused};
ghost use Rattle.border_export.specs.Asked.{wants_of};
ghost use Rattle.border_export.specs.Written.{IsLayerText};

use crate::arguments::Arguments;
use device_io::ToWriter;
use geo_text::{ExportFault, export};
use std::alloc::Global;
use std::hash::RandomState;

/// An empty text, with room for twice a map's length where there is so much memory.
fn room_for_text(heap: Global, length: usize) -> Vec<u8>
    ensures { result.items ≡ [] }
{
    let mut text = Vec::new(heap);
    let _ = text.reserve(length.saturating_mul(2));
    text
}

/// The text of the layer that the arguments ask for, of the map that the bytes are.
pub(crate) fn layer_text<'a>(
    heap: Global,
    seed: RandomState,
    bytes: &'a [u8],
    arguments: &Arguments,
) -> Result<Vec<u8>, ExportFault<'a>>
    ensures written { IfOk result (λ text.
        IsLayerText (wants_of arguments.now) bytes.now text.items) }
    ensures refused { IfErr result (IsRefused (wants_of arguments.now) bytes.now) }
{
    let mut text = ToWriter::new(room_for_text(heap, bytes.len()));
    match export(heap, heap, seed, bytes, arguments.asked(), &mut text) {
        Ok(()) => Ok(text.writer),
        Err(fault) => Err(fault),
    }
}
