// The answers to questions that no editor is asked, and their texts.
ghost use Rattle.std.specs.Prelude.{◌≡◌, ◌++◌, OnOk, IfOk};
ghost use Rattle.ring_machine.specs.Common.{Count};
ghost use Rattle.script_runner.specs.Answers.{numbers_text};
ghost use Rattle.script_runner.specs.Replies.{IsShown};

use crate::texts::push_number;
use arc_store::Map;
use segment_index::TreeIndex;
use std::alloc::{AllocError, Allocator};

/// Appends how many features, vertices and segments there are.
fn push_counts<A: Allocator + Copy>(
    text: &mut Vec<u8, A>,
    features: usize,
    vertices: usize,
    segments: usize,
) -> Result<(), AllocError>
    ensures { OnOk result (text.new.items
        ≡ text.old.items ++ numbers_text features vertices segments) }
{
    text.extend_from_slice(b"features ")?;
    push_number(text, features)?;
    text.extend_from_slice(b" vertices ")?;
    push_number(text, vertices)?;
    text.extend_from_slice(b" segments ")?;
    push_number(text, segments)
}

/// Appends the counts of the map. Answers that it was not refused.
pub(crate) fn reply_to_count<A: Allocator + Copy>(
    map: &Map<'_, TreeIndex<A>, A>,
    text: &mut Vec<u8, A>,
) -> Result<bool, AllocError>
    ensures { IfOk result (λ refuses.
        IsShown map.now.doc Count text.old.items text.new.items refuses) }
{
    push_counts(
        text,
        map.feature_count(),
        map.vertex_count(),
        map.segment_count(),
    )?;
    Ok(false)
}
