//! The list of refused lines once the run has ended.
ghost use Rattle.std.specs.Prelude.{◌≡◌, false, IsSome};
ghost use Rattle.edit_program.specs.Keeping.{is_cut, is_short};

use crate::noted_answers::NotedAnswers;
use crate::noted_script::NotedScript;
use crate::refused_lines::RefusedLines;
use std::cell::RefCell;

impl RefusedLines {
    ghost use Rattle.std.specs.Prelude.{◌≡◌, true, false, ◌||◌, IfSome, IfNone, IsSome};
    ghost use Rattle.edit_program.specs.Keeping.{is_cut, is_short};
    ghost use Rattle.edit_program.specs.Listing.{rows_of};

    /// Takes the rows of a list that lacks nothing of this script and of these answers. A list that lacks something
    /// has none to be written.
    fn take_whole<R, W>(
        &mut self,
        script: &NotedScript<'_, R>,
        answers: &NotedAnswers<'_, W>,
    ) -> Option<Vec<u8>>
        ensures rows { IfSome result (λ rows. rows.items ≡ rows_of self.old) }
        ensures script { IsSome result → is_short script.now ≡ false }
        ensures answers { IsSome result → is_cut answers.now ≡ false }
        ensures none { IfNone result ((is_short script.now || is_cut answers.now) ≡ true) }
    {
        if script.is_short() || answers.is_short() {
            None
        } else {
            Some(self.take_rows())
        }
    }
}

/// The rows for FILE2: those of a list that lacks nothing of this script and of these answers. A list that lacks
/// something has none.
pub fn whole_rows<R, W>(
    lines: &RefCell<RefusedLines>,
    script: &NotedScript<'_, R>,
    answers: &NotedAnswers<'_, W>,
) -> Option<Vec<u8>>
    ensures script { IsSome result → is_short script.now ≡ false }
    ensures answers { IsSome result → is_cut answers.now ≡ false }
{
    match lines.try_borrow_mut() {
        Ok(mut lines) => lines.take_whole(script, answers),
        Err(_) => None,
    }
}
