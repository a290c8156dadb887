ghost use Rattle.std.specs.Prelude.{◌≡◌, OnOk};
ghost use Rattle.ring_machine.specs.Common.{take_out, first_of, feature_refusals};
ghost use Rattle.arc_store.specs.Common.{Edits, edit_begun, IsRecorded};

use arc_store::{EditFault, Map};
use segment_index::SegIndex;
use std::alloc::Allocator;

/// Takes feature f out of its collection; one that is itself the geometry of a layer becomes an empty
/// collection (TopoJSON 1.0, 2.2.7). Refused where no feature has the number, or on allocation failure.
pub fn delete<'a, I: SegIndex, A: Allocator + Copy>(
    map: &mut Map<'a, I, A>,
    f: u32,
) -> Result<(), EditFault>
    ensures edits { Edits (edit_begun map.old) map.new result
        (first_of (feature_refusals map.old.doc f))
        (record map.old { doc = take_out map.old.doc f; last = map.new.last }) }
    ensures recorded { OnOk result (IsRecorded map.old map.new) }
    ensures untested { map.new.tests ≡ 0 }
{
    map.begin_edit();
    if !map.has_feature(f) {
        return Err(EditFault::NoFeature);
    }
    map.raw_delete(f)
}
