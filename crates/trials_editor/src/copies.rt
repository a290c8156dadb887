//! Copies of a map: an edit of one leaves the map as it was, and so does a copy in which an allocation
//! fails, each in turn.
use crate::answers::Said;
use crate::jobs::DEPTH;
use crate::maps::{GridEditor, GridMap};
use crate::refused::{Tally, Usual};
use crate::stage::Stage;
use undo_ring::Editor;

/// Whether the editor of a copy edits it, and the map stays.
fn stands_alone(stage: &Stage<'_>, other: &mut Stage<'_>, edit: &Usual) -> bool {
    let is_copy = other.is_in(&edit.before);
    let is_made = other.take(&edit.step()).is_wanted();
    let is_edited = other.is_in(&edit.after);
    let stays = stage.is_in(&edit.before);
    is_copy & is_made & is_edited & stays
}

/// The same of this editor.
fn is_edited_alone<'h>(stage: &Stage<'h>, editor: GridEditor<'h>, edit: &Usual) -> bool {
    let mut other = Stage {
        alloc: stage.alloc,
        heap: stage.heap,
        calm: stage.calm,
        editor,
        is_calm: stage.is_calm,
    };
    let is_alone = stands_alone(stage, &mut other, edit);
    drop(other);
    is_alone
}

/// The same of an editor of this map.
fn has_editor<'h>(stage: &Stage<'h>, copy: GridMap<'h>, edit: &Usual) -> bool {
    match Editor::new(stage.calm, copy, DEPTH) {
        Ok(editor) => is_edited_alone(stage, editor, edit),
        Err(copy) => {
            drop(copy);
            false
        }
    }
}

/// Whether a copy has the counts of the map.
fn is_alike(map: &GridMap<'_>, copy: &GridMap<'_>) -> bool {
    let (tests, next) = (map.tests(), map.next_number());
    (copy.tests() == tests) & (copy.next_number() == next)
}

/// Whether a copy is as the map, and stands for itself.
fn is_copy<'h>(stage: &Stage<'h>, copy: GridMap<'h>, edit: &Usual) -> bool {
    let is_same = is_alike(stage.editor.map(), &copy);
    has_editor(stage, copy, edit) & is_same
}

/// Whether the map can be copied, and the copy is as the map and stands for itself.
fn is_copied_well(stage: &Stage<'_>, edit: &Usual) -> bool {
    match stage.editor.map().copy() {
        Ok(copy) => is_copy(stage, copy, edit),
        Err(_) => false,
    }
}

/// Whether there is memory for a copy.
fn is_copied(map: &GridMap<'_>) -> bool {
    match map.copy() {
        Ok(copy) => {
            drop(copy);
            true
        }
        Err(_) => false,
    }
}

/// Copies the map; whether it is as before where an allocation failed, and a copy is made then.
fn copy_twice(stage: &Stage<'_>, edit: &Usual) -> Option<Tally> {
    if is_copied(stage.editor.map()) {
        return Some([0, 0, 0]);
    }
    let was_same = stage.is_in(&edit.before);
    let is_copy = is_copied_well(stage, edit);
    if was_same & is_copy {
        Some([1, 0, 0])
    } else {
        None
    }
}

/// Gives the first of two lines to the editor, and the second to that of a copy of its map, where the
/// copy was refused an allocation. Counts that.
pub(crate) fn copy_again(stage: &mut Stage<'_>, usuals: &[Usual]) -> Option<Tally> {
    let [first, edit] = usuals else {
        return None;
    };
    match stage.take(&first.step()) {
        Said::Wanted => copy_twice(stage, edit),
        Said::NoMemory => Some([0, 0, 0]),
        Said::Other => None,
    }
}
