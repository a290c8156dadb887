ghost use Rattle.std.specs.Prelude.{◌≡◌, OnOk};
ghost use Rattle.ring_machine.specs.Common.{renamed, first_of, feature_refusals};
ghost use Rattle.arc_store.specs.Common.{Edits, edit_begun, IsRecorded};
ghost use Rattle.edit_records.specs.Common.{string_text};

use crate::id_text::json_string;
use arc_store::{EditFault, Map};
use edit_records::IdText;
use segment_index::SegIndex;
use std::alloc::Allocator;

/// Gives feature f another id. Refused where no feature has the number, or on allocation failure.
pub fn rename<'a, I: SegIndex, A: Allocator + Copy>(
    map: &mut Map<'a, I, A>,
    f: u32,
    id: IdText<A>,
) -> Result<(), EditFault>
    ensures edits { Edits (edit_begun map.old) map.new result
        (first_of (feature_refusals map.old.doc f))
        (record map.old { doc = renamed map.old.doc f (string_text id); last = map.new.last }) }
    ensures recorded { OnOk result (IsRecorded map.old map.new) }
    ensures untested { map.new.tests ≡ 0 }
{
    map.begin_edit();
    if !map.has_feature(f) {
        return Err(EditFault::NoFeature);
    }
    let text = json_string(&id)?;
    map.raw_rename(f, text);
    Ok(())
}
