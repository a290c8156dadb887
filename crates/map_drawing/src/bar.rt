// The scale bar.
use crate::layout::{MARGIN, WIDTH};
use crate::map_picture::Picture;
use map_features::{Units, round_length};
use std::alloc::{AllocError, Allocator};
use svg_text::{push_number, push_words};

/// How many times the bar is in the width of the map at least.
const LEAST: i128 = 6;

/// How far the bar and the words beside it are from the top.
const DOWN: i64 = 30;

/// How many of so many pixels a length takes that is a part of a span, rounded toward 0: within a ten-thousandth,
/// since the span has many more of the finest parts than pixels.
fn share_of(length: i128, span: i128, pixels: i64) -> i64 {
    let pixel = span.checked_div(i128::from(pixels)).unwrap_or(1).max(1);
    let share = length.checked_div(pixel).unwrap_or(0);
    i64::try_from(share).unwrap_or(0).min(WIDTH)
}

impl<A: Allocator + Copy> Picture<A> {
    /// Appends a bar of a round length, at most a sixth of the map's width, and its length.
    pub(crate) fn push_bar(&mut self, units: &Units) -> Result<(), AllocError> {
        let span = units.span(self.layout.window.width);
        let length = round_length((span / LEAST).max(1));
        let long = share_of(length.number, span, self.layout.place.width);
        let words = length.text(self.alloc, units.unit)?;
        let end = WIDTH - MARGIN;
        let start = end.saturating_sub(long);
        self.text.extend_from_slice(b"<path class=\"bar\" d=\"M")?;
        push_number(&mut self.text, start)?;
        self.text.extend_from_slice(b" 24v6H")?;
        push_number(&mut self.text, end)?;
        self.text.extend_from_slice(b"v-6\"/>\n")?;
        push_words(
            &mut self.text,
            "number",
            start.saturating_sub(6),
            DOWN,
            words.as_slice(),
        )
    }
}
