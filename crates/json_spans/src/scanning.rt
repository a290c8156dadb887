ghost use Rattle.std.specs.Prelude.{◌≡◌, ◌≢◌, ◌≤◌, ◌<◌, ◌+◌, ◌^◌, IfOk, IfErr, IsTrue, ◌&&◌, ◌==◌, length, reverse};
ghost use Rattle.json_spans.specs.Machine.{verdict, step, first_in, may_end, top_of, rest_of};
ghost use Rattle.json_spans.specs.Faults.{Judges};
ghost use Rattle.json_spans.specs.Grammar.{Json};
ghost use Rattle.json_spans.specs.Inside.{IsValue};
ghost use Rattle.json_spans.specs.Trimmed.{trimmed};
ghost use Rattle.json_spans.specs.Left.{node};
ghost use Rattle.json_spans.specs.Roots.{span_of};

use crate::classes::{is_ascii, is_digit};
use crate::machine::{Frame, Mode, Move, Within, step};
use crate::span::Span;
use crate::trimming::trim;
use std::alloc::Allocator;
use thiserror::Error;

/// Why bytes are not taken as a JSON text.
#[derive(Debug, Drop, Error)]
pub enum ScanFault {
    /// No JSON text begins with the bytes up to this place and has the byte there: the place is the
    /// length where the bytes are only a text's front.
    #[error("not JSON at {place}")]
    NotJson { place: usize },
    /// The bracket at this place opens a list or an object inside 100 others.
    #[error("too deep at {place}")]
    TooDeep { place: usize },
    /// There is no memory for the list of open brackets.
    #[error("out of memory")]
    OutOfMemory,
}

// How many lists and objects may be open (RFC 8259, section 9).
const MAX_DEPTH: usize = 100;

fn first_in(frame: Frame) -> Mode
    ensures { result ≡ first_in frame }
{
    match frame {
        Frame::List => Mode::FirstItem,
        Frame::Object => Mode::FirstName,
    }
}

// The newest frame is the last of the Vec, and the first of the list.
#[tactic(auto, using(crate::proofs::Frames::top_of_reverse))]
fn top<A: Allocator + Copy>(frames: &Vec<Frame, A>) -> Option<Frame>
    ensures { result ≡ top_of (reverse frames.now.items) }
{
    frames.last().copied()
}

#[tactic(auto, using(crate::proofs::Frames::reverse_pop))]
fn pop<A: Allocator + Copy>(frames: &mut Vec<Frame, A>)
    ensures { reverse frames.new.items ≡ rest_of (reverse frames.old.items) }
{
    let _ = frames.pop();
}

// Whether a text may end here.
#[tactic(auto, using(crate::proofs::Frames::is_empty_reverse))]
fn may_stop<A: Allocator + Copy>(mode: Mode, frames: &Vec<Frame, A>) -> bool
    ensures { result ≡ (may_end mode && (length (reverse frames.now.items) == 0)) }
{
    let may_end = matches!(
        mode,
        Mode::After | Mode::Zero | Mode::Whole | Mode::Fraction | Mode::Power
    );
    may_end && frames.is_empty()
}

// Whether the byte is one of many in a string or a number, and leads to the same mode.
#[inline(always)]
fn stays<A: Allocator + Copy>(mode: Mode, frames: &Vec<Frame, A>, x: u8) -> bool
    ensures { IsTrue result → step mode (top_of (reverse frames.now.items)) x ≡ Move.Goes mode }
{
    match mode {
        Mode::Text(Within::Plain) => is_ascii(x),
        Mode::NameText(Within::Plain) => is_ascii(x) && top(frames) == Some(Frame::Object),
        Mode::Whole | Mode::Fraction => is_digit(x),
        _ => false,
    }
}

/// Whether the bytes are a JSON text, and if not, where they stop being a prefix of one.
fn check<A: Allocator + Copy>(alloc: A, bytes: &[u8]) -> Result<(), ScanFault>
    ensures { Judges result (verdict bytes.now) }
{
    let mut mode = Mode::Value;
    let mut frames: Vec<Frame, A> = Vec::new(alloc);
    for (place, byte) in bytes.iter().enumerate() {
        if stays(mode, &frames, *byte) {
            continue;
        }
        match step(mode, top(&frames), *byte) {
            Move::Goes(next) => mode = next,
            Move::Opens(frame) => {
                if frames.len() >= MAX_DEPTH {
                    return Err(ScanFault::TooDeep { place });
                }
                if frames.push(frame).is_err() {
                    return Err(ScanFault::OutOfMemory);
                }
                mode = first_in(frame);
            }
            Move::Closes => {
                pop(&mut frames);
                mode = Mode::After;
            }
            Move::Fails => return Err(ScanFault::NotJson { place }),
        }
    }
    if may_stop(mode, &frames) {
        Ok(())
    } else {
        Err(ScanFault::NotJson { place: bytes.len() })
    }
}

/// The value of a whole text, made by `scan`.
#[derive(Clone, Copy, Debug)]
pub struct Root<'a> {
    span: Span<'a>,
}

impl<'a> Root<'a> {
    /// The value, without the space round it (RFC 8259, section 2).
    pub fn span(&self) -> Span<'a>
        ensures { result ≡ span_of self.now }
    {
        self.span
    }
}

/// The value that the bytes are as a JSON text (RFC 8259, section 2), with at most 100 lists and
/// objects one in another (section 9).
///
/// A string may have half of a surrogate pair (section 8.2). `NotJson` and `TooDeep` name the first
/// byte that cannot stand where it does. Only the open brackets take memory.
#[tactic(auto, using(crate::proofs::Sound::verdict_json, crate::proofs::Complete::json_verdict, crate::proofs::Grouped::root_value))]
pub fn scan<'a, A: Allocator + Copy>(alloc: A, bytes: &'a [u8]) -> Result<Root<'a>, ScanFault>
    ensures span { IfOk result (λ root.
        node (span_of root) ≡ trimmed (record { at_byte = 0; bytes = bytes.now })) }
    ensures places { Judges result (verdict bytes.now) }
    ensures json { IfOk result (λ _. Json 100 bytes.now) }
    ensures value { IfOk result (λ root. IsValue 100 (node (span_of root)).bytes) }
    ensures refused { IfErr result (λ fault. fault ≢ ScanFault.OutOfMemory → ¬ Json 100 bytes.now) }
{
    check(alloc, bytes)?;
    let whole = Span { text: bytes, at: 0 };
    Ok(Root { span: trim(whole) })
}
