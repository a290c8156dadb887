// The text in which each coordinate has its new text.
ghost use Rattle.std.specs.Prelude.{◌≡◌, ◌++◌, map, drop, IfOk, OnOk};
ghost use Rattle.std.specs.Fmt.{signed_decimal};
ghost use Rattle.decimal_texts.specs.Rounded.{bytes_between, spliced};
ghost use Rattle.decimal_texts.specs.Changes.{change};

use crate::rounding::Change;
use itoa::Buffer;
use std::alloc::{AllocError, Allocator};

/// The bytes from a place on.
fn behind(bytes: &[u8], from: usize) -> &[u8]
    ensures { result.now ≡ drop from bytes.now }
{
    &bytes[from.min(bytes.len())..]
}

/// The bytes from one place up to another.
fn between(bytes: &[u8], from: usize, to: usize) -> &[u8]
    ensures { result.now ≡ bytes_between from to bytes.now }
{
    let left = behind(bytes, from);
    &left[..to.saturating_sub(from).min(left.len())]
}

/// Appends the new text of a coordinate.
fn push_number<A: Allocator>(text: &mut Vec<u8, A>, new: Change<'_>) -> Result<(), AllocError>
    ensures { OnOk result (text.new.items ≡ text.old.items ++ signed_decimal new.entry.number) }
{
    let mut buffer = Buffer::new();
    text.extend_from_slice(buffer.format(new.number).as_bytes())?;
    Ok(())
}

/// The text in which each of these coordinates is its whole number.
#[tactic(auto, using(crate::proofs::NewTexts::spliced_end))]
pub(crate) fn spliced<A: Allocator + Copy>(
    alloc: A,
    bytes: &[u8],
    changes: &[Change<'_>],
) -> Result<Vec<u8, A>, AllocError>
    ensures { IfOk result (λ text. text.items ≡ spliced bytes.now 0 (map change changes.now)) }
{
    let mut text = Vec::new(alloc);
    let mut from = 0;
    for change in changes {
        text.extend_from_slice(between(bytes, from, change.span.at))?;
        push_number(&mut text, *change)?;
        from = change.span.at + change.span.text.len();
    }
    text.extend_from_slice(behind(bytes, from))?;
    Ok(text)
}
