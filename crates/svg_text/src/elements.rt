// The elements of a drawing (SVG 1.1, 5.1, 5.2, 7.7 and 10.4).
ghost use Rattle.std.specs.Prelude.{◌≡◌, ◌++◌, codes, OnOk};
ghost use Rattle.svg_text.specs.Elements.{view_box_text, box_attributes, opened_picture_text, opened_view_text, text_element};

use crate::escaping::push_escaped;
use crate::numbers::{push_attribute, push_pair};
use std::alloc::{AllocError, Allocator};

/// The box of an element: `x`, `y`, `width` and `height` (SVG 1.1, 5.1.2).
#[derive(Clone, Copy, Debug, PartialEq, Eq)]
pub struct ElementBox {
    /// How far its left side is from the left.
    pub x: i64,
    /// How far its upper side is from the top.
    pub y: i64,
    /// How wide it is.
    pub width: i64,
    /// How high it is.
    pub height: i64,
}

/// Appends the attribute `viewBox` (SVG 1.1, 7.7).
fn push_view_box<A: Allocator>(
    text: &mut Vec<u8, A>,
    width: i64,
    height: i64,
) -> Result<(), AllocError>
    ensures { OnOk result (text.new.items ≡ text.old.items ++ view_box_text width height) }
{
    text.extend_from_slice(b" viewBox=\"0 0 ")?;
    push_pair(text, width, height)?;
    text.extend_from_slice(b"\"")?;
    Ok(())
}

/// Appends a box as four attributes.
fn push_box_attributes<A: Allocator>(
    text: &mut Vec<u8, A>,
    place: ElementBox,
) -> Result<(), AllocError>
    ensures { OnOk result (text.new.items ≡ text.old.items ++ box_attributes place) }
{
    push_attribute(text, "x", place.x)?;
    push_attribute(text, "y", place.y)?;
    push_attribute(text, "width", place.width)?;
    push_attribute(text, "height", place.height)?;
    Ok(())
}

/// Begins a picture of this width and height.
pub fn open_picture<A: Allocator>(
    text: &mut Vec<u8, A>,
    width: i64,
    height: i64,
) -> Result<(), AllocError>
    ensures { OnOk result (text.new.items ≡ text.old.items ++ opened_picture_text width height) }
{
    text.extend_from_slice(b"<svg xmlns=\"http://www.w3.org/2000/svg\"")?;
    push_attribute(text, "width", width)?;
    push_attribute(text, "height", height)?;
    push_view_box(text, width, height)?;
    text.extend_from_slice(b">\n")?;
    Ok(())
}

/// Begins a nested view in this box of the picture, with this width and height in units of its own.
pub fn open_view<A: Allocator>(
    text: &mut Vec<u8, A>,
    place: ElementBox,
    width: i64,
    height: i64,
) -> Result<(), AllocError>
    ensures { OnOk result (text.new.items ≡ text.old.items ++ opened_view_text place width height) }
{
    text.extend_from_slice(b"<svg")?;
    push_box_attributes(text, place)?;
    push_view_box(text, width, height)?;
    text.extend_from_slice(b">\n")?;
    Ok(())
}

/// Ends a group (`g`).
pub fn close_group<A: Allocator>(text: &mut Vec<u8, A>) -> Result<(), AllocError>
    ensures { OnOk result (text.new.items ≡ text.old.items ++ codes "</g>\n") }
{
    text.extend_from_slice(b"</g>\n")
}

/// Ends a picture or a view.
pub fn close_picture<A: Allocator>(text: &mut Vec<u8, A>) -> Result<(), AllocError>
    ensures { OnOk result (text.new.items ≡ text.old.items ++ codes "</svg>\n") }
{
    text.extend_from_slice(b"</svg>\n")
}

/// Appends a `text` element of this class at a position. Its style says whether the words begin, end or have
/// their middle there.
pub fn push_words<A: Allocator>(
    text: &mut Vec<u8, A>,
    style: &str,
    x: i64,
    y: i64,
    words: &[u8],
) -> Result<(), AllocError>
    ensures { OnOk result
        (text.new.items ≡ text.old.items ++ text_element style.now x y words.now) }
{
    text.extend_from_slice(b"<text class=\"")?;
    text.extend_from_slice(style.as_bytes())?;
    text.extend_from_slice(b"\"")?;
    push_attribute(text, "x", x)?;
    push_attribute(text, "y", y)?;
    text.extend_from_slice(b">")?;
    push_escaped(text, words)?;
    text.extend_from_slice(b"</text>\n")?;
    Ok(())
}
