// The places of labels.
ghost use Rattle.std.specs.Prelude.{◌≡◌, ◌≤◌, ◌*◌, length};
ghost use Rattle.map_drawing.specs.Labels.{drawn_byte, drawn_text, label_width, letters_in};

use crate::points::Point;
use crate::rows::{Row, Stretch};
use crate::seen::rows_of;
use std::alloc::{AllocError, Allocator};

/// How high a label is, in hundredths of a pixel.
const LABEL: i64 = 1_300;

/// How far its letters go up from its base line, in hundredths of a pixel.
const RISE: i64 = 1_000;

/// How wide a letter is at most as a rule, in hundredths of a pixel.
const LETTER: u128 = 720;

/// How many rows of a feature are looked at for the widest one.
const ROWS: i64 = 9;

/// The place of a label.
#[derive(Clone, Copy)]
pub(crate) struct Label {
    /// Its upper and its lower side.
    row: Row,
    /// Its left and its right side.
    stretch: Stretch,
}

/// For how many letters a byte of UTF-8 stands where it is drawn: for two if a character from U+0800 on begins
/// there, since many of those are twice as wide, for one if another one does. What XML lacks is drawn as U+FFFD.
fn letters_at(byte: u8) -> u8
    ensures drawn { result ≡ letters_in (drawn_byte byte) }
    ensures most { result ≤ 2 }
{
    match byte {
        b'\t' | b'\n' | b'\r' => 1,
        0..=0x1F => 2,
        0x20..=0x7F => 1,
        0x80..=0xBF => 0,
        0xC0..=0xDF => 1,
        _ => 2,
    }
}

/// How many letters wide a text of UTF-8 is where it is drawn.
fn letters(words: &[u8]) -> u128
    ensures drawn { result ≡ letters_in (drawn_text words.now) }
    ensures most { result ≤ 2 * length words.now }
{
    let mut count: u128 = 0;
    for byte in words {
        count += u128::from(letters_at(*byte));
    }
    count
}

/// How wide a text is, in hundredths of a pixel.
fn width_of(words: &[u8]) -> i64
    ensures { result ≡ label_width words.now }
{
    let width = LETTER * (letters(words) + 1);
    i64::try_from(width).unwrap_or(i64::MAX)
}

impl Label {
    /// The place of these words in the middle of a stretch of a row, if they are no wider.
    fn within(row: Row, stretch: Stretch, words: &[u8]) -> Option<Label> {
        let width = width_of(words);
        let left = stretch.width().saturating_sub(width);
        if left < 0 {
            return None;
        }
        let left = stretch.left.saturating_add(left / 2);
        let right = left.saturating_add(width);
        Some(Label {
            row,
            stretch: Stretch { left, right },
        })
    }

    /// Whether it covers some of another.
    fn covers(&self, other: &Label) -> bool {
        self.row.top < other.row.bottom
            && other.row.top < self.row.bottom
            && self.stretch.left < other.stretch.right
            && other.stretch.left < self.stretch.right
    }

    /// The middle of the base line of its words.
    pub(crate) fn base(&self) -> Point {
        Point::near(
            self.stretch.left.saturating_add(self.stretch.width() / 2),
            self.row.top.saturating_add(RISE),
        )
    }

    /// Whether it covers none of these.
    pub(crate) fn is_free(&self, others: &[Label]) -> bool {
        !others.iter().any(|other| self.covers(other))
    }
}

/// The row of a label at so many parts of nine from the top of these rows.
fn row_at(rows: Row, part: i64) -> Row {
    let room = rows.bottom.saturating_sub(rows.top).saturating_sub(LABEL);
    let top = rows
        .top
        .saturating_add(room.saturating_mul(part) / (ROWS - 1));
    Row {
        top,
        bottom: top.saturating_add(LABEL),
    }
}

/// The rows of the height of a label that are inside a feature, and where each is widest: nine at most, the
/// nearest to the middle first. None where it is lower than a label.
pub(crate) fn rows_inside<A: Allocator + Copy>(
    alloc: A,
    rings: &[Vec<Point, A>],
    ends: Stretch,
    height: i64,
) -> Result<Vec<(Row, Stretch), A>, AllocError> {
    let rows = rows_of(rings, height);
    let mut inside = Vec::new(alloc);
    for part in [4, 3, 5, 2, 6, 1, 7, 0, 8] {
        let row = row_at(rows, part);
        if rows.top <= row.top
            && row.bottom <= rows.bottom
            && let Some(stretch) = row.widest(alloc, rings, ends)?
        {
            inside.push((row, stretch))?;
        }
    }
    Ok(inside)
}

/// The place of words in the first of these rows that has a quarter more room than they need, or else in the
/// widest, if they fit there.
pub(crate) fn place_in(rows: &[(Row, Stretch)], words: &[u8]) -> Option<Label> {
    let width = width_of(words);
    let room = width.saturating_add(width / 4);
    let mut widest: Option<(Row, Stretch)> = None;
    let mut most: i64 = 0;
    for (row, stretch) in rows {
        if room <= stretch.width() {
            return Label::within(*row, *stretch, words);
        }
        if most < stretch.width() {
            widest = Some((*row, *stretch));
            most = stretch.width();
        }
    }
    let (row, stretch) = widest?;
    Label::within(row, stretch, words)
}
