// The scanner's machine, which takes one byte at a time (RFC 8259, sections 2 to 7).
ghost use Rattle.std.specs.Prelude.{◌≡◌, if◌then◌else◌};
ghost use Rattle.json_spans.specs.Bytes.{is_space};
ghost use Rattle.json_spans.specs.Machine.{begins, follows, word_step, string_step, lead, goes, closes_text, before_name, first_digit, step};

use crate::classes::{is_digit, is_e, is_hex, is_space, is_tail};

/// What is open: a list (section 5, an array) or an object (section 4).
#[derive(Clone, Copy, Debug, PartialEq, Eq)]
pub enum Frame {
    List,
    Object,
}

/// Where in a string (section 7).
#[derive(Clone, Copy, Debug, PartialEq, Eq)]
pub enum Within {
    Plain,
    /// After a backslash.
    Escape,
    /// So many hexadecimal digits are left of a code.
    Hex4,
    Hex3,
    Hex2,
    Hex1,
    /// So many bytes are left of a character.
    Tail1,
    Tail2,
    Tail3,
    /// After a first byte that narrows the second.
    AfterE0,
    AfterEd,
    AfterF0,
    AfterF4,
}

/// What is left of `true`, `false` or `null` (section 3).
#[derive(Clone, Copy, Debug, PartialEq, Eq)]
pub enum Word {
    Rue,
    Ue,
    E,
    Alse,
    Lse,
    Se,
    Ull,
    Ll,
    L,
}

/// Where in a text.
#[derive(Clone, Copy, Debug, PartialEq, Eq)]
pub enum Mode {
    /// Before a value.
    Value,
    /// After the bracket that opens a list.
    FirstItem,
    /// After the bracket that opens an object.
    FirstName,
    /// After a comma in an object.
    Name,
    /// After a name.
    Colon,
    /// After a value.
    After,
    /// In a member's name.
    NameText(Within),
    /// In a string that is a value.
    Text(Within),
    /// In `true`, `false` or `null`.
    Word(Word),
    /// In a number (section 6): after its minus.
    Minus,
    /// After its leading 0.
    Zero,
    /// Among the digits of its whole part.
    Whole,
    /// After its point.
    Point,
    /// Among the digits of its fraction.
    Fraction,
    /// After its `e`.
    Exponent,
    /// After the exponent's sign.
    Sign,
    /// Among the exponent's digits.
    Power,
}

/// What a byte does.
#[derive(Clone, Copy, Debug, PartialEq, Eq)]
pub enum Move {
    Goes(Mode),
    Opens(Frame),
    Closes,
    Fails,
}

fn word_step(word: Word, x: u8) -> Option<Mode>
    ensures { result ≡ word_step word x }
{
    match word {
        Word::Rue => (x == b'r').then_some(Mode::Word(Word::Ue)),
        Word::Ue => (x == b'u').then_some(Mode::Word(Word::E)),
        Word::E => (x == b'e').then_some(Mode::After),
        Word::Alse => (x == b'a').then_some(Mode::Word(Word::Lse)),
        Word::Lse => (x == b'l').then_some(Mode::Word(Word::Se)),
        Word::Se => (x == b's').then_some(Mode::Word(Word::E)),
        Word::Ull => (x == b'u').then_some(Mode::Word(Word::Ll)),
        Word::Ll => (x == b'l').then_some(Mode::Word(Word::L)),
        Word::L => (x == b'l').then_some(Mode::After),
    }
}

// The first byte of a character (UTF-8: RFC 3629, section 4).
fn lead(x: u8) -> Option<Within>
    ensures { result ≡ lead x }
{
    match x {
        b'"' | b'\\' => None,
        b' '..=0x7f => Some(Within::Plain),
        0xc2..=0xdf => Some(Within::Tail1),
        0xe0 => Some(Within::AfterE0),
        0xed => Some(Within::AfterEd),
        0xe1..=0xef => Some(Within::Tail2),
        0xf0 => Some(Within::AfterF0),
        0xf1..=0xf3 => Some(Within::Tail3),
        0xf4 => Some(Within::AfterF4),
        _ => None,
    }
}

// A byte that does not close the string.
fn string_step(within: Within, x: u8) -> Option<Within>
    ensures { result ≡ string_step within x }
{
    match within {
        Within::Plain if x == b'\\' => Some(Within::Escape),
        Within::Plain => lead(x),
        Within::Escape if x == b'u' => Some(Within::Hex4),
        Within::Escape => matches!(
            x,
            b'"' | b'\\' | b'/' | b'b' | b'f' | b'n' | b'r' | b't'
        ).then_some(Within::Plain),
        Within::Hex4 => is_hex(x).then_some(Within::Hex3),
        Within::Hex3 => is_hex(x).then_some(Within::Hex2),
        Within::Hex2 => is_hex(x).then_some(Within::Hex1),
        Within::Hex1 => is_hex(x).then_some(Within::Plain),
        Within::Tail1 => is_tail(x).then_some(Within::Plain),
        Within::Tail2 => is_tail(x).then_some(Within::Tail1),
        Within::Tail3 => is_tail(x).then_some(Within::Tail2),
        Within::AfterE0 => matches!(x, 0xa0..=0xbf).then_some(Within::Tail1),
        Within::AfterEd => matches!(x, 0x80..=0x9f).then_some(Within::Tail1),
        Within::AfterF0 => matches!(x, 0x90..=0xbf).then_some(Within::Tail2),
        Within::AfterF4 => matches!(x, 0x80..=0x8f).then_some(Within::Tail2),
    }
}

fn closes_text(within: Within, x: u8) -> bool
    ensures { result ≡ closes_text within x }
{
    within == Within::Plain && x == b'"'
}

// A value's first byte.
fn begins(x: u8) -> Move
    ensures { result ≡ begins x }
{
    match x {
        b'"' => Move::Goes(Mode::Text(Within::Plain)),
        b'[' => Move::Opens(Frame::List),
        b'{' => Move::Opens(Frame::Object),
        b'-' => Move::Goes(Mode::Minus),
        b'0' => Move::Goes(Mode::Zero),
        b'1'..=b'9' => Move::Goes(Mode::Whole),
        b't' => Move::Goes(Mode::Word(Word::Rue)),
        b'f' => Move::Goes(Mode::Word(Word::Alse)),
        b'n' => Move::Goes(Mode::Word(Word::Ull)),
        _ => Move::Fails,
    }
}

// After a value.
fn follows(top: Option<Frame>, x: u8) -> Move
    ensures { result ≡ follows top x }
{
    match (top, x) {
        (Some(Frame::List), b',') => Move::Goes(Mode::Value),
        (Some(Frame::Object), b',') => Move::Goes(Mode::Name),
        (Some(Frame::List), b']') | (Some(Frame::Object), b'}') => Move::Closes,
        (_, b' ' | b'\t' | b'\n' | b'\r') => Move::Goes(Mode::After),
        _ => Move::Fails,
    }
}

fn goes(mode: Option<Mode>) -> Move
    ensures { result ≡ goes mode }
{
    mode.map_or(Move::Fails, Move::Goes)
}

// Where a name must come, or a space.
fn before_name(mode: Mode, x: u8) -> Move
    ensures { result ≡ (if is_space x then Move.Goes mode else before_name x) }
{
    match x {
        b' ' | b'\t' | b'\n' | b'\r' => Move::Goes(mode),
        b'"' => Move::Goes(Mode::NameText(Within::Plain)),
        _ => Move::Fails,
    }
}

// Where a digit must come.
fn first_digit(mode: Mode, x: u8) -> Move
    ensures { result ≡ first_digit mode x }
{
    goes(is_digit(x).then_some(mode))
}

/// What the byte does in this mode, where `top` is what was opened last.
pub(crate) fn step(mode: Mode, top: Option<Frame>, x: u8) -> Move
    ensures { result ≡ step mode top x }
{
    match (mode, top) {
        (Mode::After, _) => follows(top, x),
        (Mode::Value, _) if is_space(x) => Move::Goes(mode),
        (Mode::Value, _) => begins(x),
        (Mode::FirstItem, Some(Frame::List)) if is_space(x) => Move::Goes(mode),
        (Mode::FirstItem, Some(Frame::List)) if x == b']' => Move::Closes,
        (Mode::FirstItem, Some(Frame::List)) => begins(x),
        (Mode::NameText(within), Some(Frame::Object)) if closes_text(within, x) => {
            Move::Goes(Mode::Colon)
        }
        (Mode::NameText(within), Some(Frame::Object)) => {
            goes(string_step(within, x).map(Mode::NameText))
        }
        (Mode::Text(within), _) if closes_text(within, x) => Move::Goes(Mode::After),
        (Mode::Text(within), _) => goes(string_step(within, x).map(Mode::Text)),
        (Mode::Word(word), _) => goes(word_step(word, x)),
        (Mode::Minus, _) if x == b'0' => Move::Goes(Mode::Zero),
        (Mode::Minus, _) => first_digit(Mode::Whole, x),
        (Mode::Point, _) => first_digit(Mode::Fraction, x),
        (Mode::Exponent, _) if x == b'+' || x == b'-' => Move::Goes(Mode::Sign),
        (Mode::Exponent | Mode::Sign, _) => first_digit(Mode::Power, x),
        (Mode::Whole | Mode::Fraction | Mode::Power, _) if is_digit(x) => Move::Goes(mode),
        (Mode::Zero | Mode::Whole, _) if x == b'.' => Move::Goes(Mode::Point),
        (Mode::Zero | Mode::Whole | Mode::Fraction, _) if is_e(x) => Move::Goes(Mode::Exponent),
        (Mode::Zero | Mode::Whole | Mode::Fraction | Mode::Power, _) => follows(top, x),
        (Mode::FirstName, Some(Frame::Object)) if x == b'}' => Move::Closes,
        (Mode::FirstName | Mode::Name, Some(Frame::Object)) => before_name(mode, x),
        (Mode::Colon, Some(Frame::Object)) if x == b':' => Move::Goes(Mode::Value),
        (Mode::Colon, Some(Frame::Object)) if is_space(x) => Move::Goes(mode),
        _ => Move::Fails,
    }
}
