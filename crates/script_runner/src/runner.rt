//! What is kept between two bytes of a script.
ghost use Rattle.std.specs.Prelude.{◌≡◌, ◌≤◌, ◌<◌, ◌+◌, ◌^◌, ◌∷◌, ◌++◌, if◌then◌else◌};
ghost use Rattle.std.specs.Prelude.{[], length, false, true, OnOk, OnErr, IfOk};
ghost use Rattle.device_io.specs.Common.{Stands};
ghost use Rattle.script_runner.specs.Runs.{answered_by, NoFeed};
ghost use Rattle.script_runner.specs.Replies.{meaning_of_said};
ghost use Rattle.topo_writer.specs.Common.{of_device};
ghost use Rattle.script_lines.specs.Common.{SaysSound};
ghost use Rattle.ring_machine.specs.Common.{features};
ghost use Rattle.script_runner.specs.Progress.{KeptMeans, LineStep, Feeds, FeedsPart, PutsPart};
ghost use Rattle.script_runner.specs.Progress.{Told, start};

use crate::sending::send_reply;
use arc_store::Map;
use device_io::Sink;
use memchr::memchr;
use script_lines::{Line, LineFault, parse_line, without_return};
use segment_index::TreeIndex;
use std::alloc::{AllocError, Allocator, Global};
use std::marker::Model;
use topo_writer::WriteFault;
use undo_ring::Editor;

/// The most bytes of a line that are kept.
const MAX_LINE: usize = 8192;

/// What the kept line says; nothing for a bad line. Fails where there is no memory for an id or a
/// path.
fn said(heap: Global, line: &[u8], over: bool, ended: bool) -> Result<Option<Line>, AllocError>
    requires { length line.now ≤ 8192 }
    ensures means { IfOk result (λ said. KeptMeans over ended line.now (meaning_of_said said)) }
    ensures sound { IfOk result (λ said. SaysSound said) }
{
    if over {
        return Ok(None);
    }
    let text = if ended { without_return(line) } else { line };
    match parse_line(heap, text) {
        Ok(said) => Ok(Some(said)),
        Err(LineFault::BadLine) => Ok(None),
        Err(LineFault::OutOfMemory) => Err(AllocError),
    }
}

/// Whether the line has an answer.
fn is_answered(said: &Option<Line>) -> bool
    ensures { (if result then 1 else 0) ≡ answered_by (meaning_of_said said.now) }
{
    !matches!(said, Some(Line::Skip))
}

/// One where the test holds.
fn one_if(test: bool) -> u64
    ensures { result ≡ (if test then 1 else 0) }
{
    if test { 1 } else { 0 }
}

/// How many lines of a script were answered, and how many of the answers are refusals or say
/// that a line is bad.
#[derive(Clone, Copy, Debug, PartialEq, Eq)]
pub struct Summary {
    pub answered: u64,
    pub refused: u64,
}

/// The map with its history, the line so far, and the counts.
#[derive(Drop)]
pub(crate) struct Runner<'a, A: Allocator + Copy> {
    /// Holds the id and the path of a line while it is answered.
    heap: Global,
    editor: Editor<'a, TreeIndex<A>, A>,
    line: Vec<u8, A>,
    over: bool,
    /// Holds the answer to a line while it is sent.
    text: Vec<u8, A>,
    answered: u64,
    refused: u64,
    bytes: u64,
}

impl<'a, A: Allocator + Copy> Model for Runner<'a, A> {
    ghost use Rattle.std.specs.Prelude.{◌≤◌, ◌+◌, length};
    ghost use Rattle.script_runner.specs.Progress.{RunProgress, InBounds};
    ghost use Rattle.undo_ring.specs.Edited.{machine_of};

    ghost Value = { RunProgress };

    ghost view = { λ r. record {
      state = machine_of r.editor;
      depth = r.editor.depth;
      line = r.line.items;
      over = r.over;
      answered = r.answered;
      refused = r.refused;
      bytes = r.bytes;
    } };

    ghost invariant = { λ r. InBounds (length r.line.items) r.answered r.refused r.bytes };
}

impl<'a, A: Allocator + Copy> Runner<'a, A> {
    /// Nothing was fed.
    pub(crate) fn new(alloc: A, heap: Global, editor: Editor<'a, TreeIndex<A>, A>) -> Self
        requires numbered { editor.map.next ≡ length (features editor.map.doc) }
        requires fresh { editor.past ≡ [] }
        ensures { result ≡ start editor.entry.depth editor.entry.map.doc }
    {
        Runner {
            heap,
            editor,
            line: Vec::new(alloc),
            over: false,
            text: Vec::new(alloc),
            answered: 0,
            refused: 0,
            bytes: 0,
        }
    }

    /// Answers the kept line, which a line feed ends or which is the last.
    fn answer<W: Sink>(&mut self, ended: bool, out: &mut W) -> Result<(), WriteFault>
        requires works { W.has_failed out.old ≡ false }
        requires room { self.old.answered < self.old.bytes }
        requires bytes { self.old.bytes < 2 ^ 63 }
        ensures ok { OnOk result (Told (W.taken out.old) (W.taken out.new)
            (λ text. LineStep ended self.old text self.new)) }
        ensures bytes { OnOk result (self.new.bytes ≡ self.old.bytes) }
        ensures cut { OnErr result (PutsPart ended self.old (W.taken out.old) (W.taken out.new)) }
        ensures stands { Stands W.Sink of_device out.new result }
    {
        let over = self.over;
        let said = said(self.heap, self.line.as_slice(), over, ended)?;
        let counts = is_answered(&said);
        let refuses = send_reply(&mut self.editor, said, &mut self.text, out)?;
        self.answered += one_if(counts);
        self.refused += one_if(refuses);
        self.line.clear();
        self.over = false;
        Ok(())
    }

    /// Keeps bytes of a line, none of them a line feed; of a line over the limit only its front.
    fn keep(&mut self, bytes: &[u8]) -> Result<(), AllocError>
        requires feeds { NoFeed bytes.now }
        requires bytes { self.old.bytes + length bytes.now < 2 ^ 62 }
        ensures ok { OnOk result (Feeds self.old bytes.now [] self.new) }
        ensures bytes { OnOk result (self.new.bytes ≡ self.old.bytes + length bytes.now) }
        ensures some { OnErr result (0 < length bytes.now) }
    {
        let kept = bytes.len().min(MAX_LINE - self.line.len());
        self.line.extend_from_slice(&bytes[..kept])?;
        self.over |= kept < bytes.len();
        self.bytes += bytes.len() as u64;
        Ok(())
    }

    /// Takes the bytes of a line and the line feed after them, and answers the line.
    fn feed_line<W: Sink>(&mut self, line: &[u8], out: &mut W) -> Result<(), WriteFault>
        requires works { W.has_failed out.old ≡ false }
        requires feeds { NoFeed line.now }
        requires bytes { self.old.bytes + length line.now + 1 < 2 ^ 62 }
        ensures ok { OnOk result (Told (W.taken out.old) (W.taken out.new)
            (λ text. Feeds self.old (line.now ++ 10 ∷ []) text self.new)) }
        ensures bytes { OnOk result (self.new.bytes ≡ self.old.bytes + length line.now + 1) }
        ensures cut { OnErr result
            (FeedsPart (W.taken out.old) (W.taken out.new) self.old (line.now ++ 10 ∷ [])) }
        ensures stands { Stands W.Sink of_device out.new result }
    {
        self.keep(line)?;
        self.bytes += 1;
        self.answer(true, out)?;
        Ok(())
    }

    /// Takes the next bytes of a script, and answers each line that ends in them.
    pub(crate) fn feed<W: Sink>(&mut self, piece: &[u8], out: &mut W) -> Result<(), WriteFault>
        requires works { W.has_failed out.old ≡ false }
        requires bytes { self.old.bytes + length piece.now < 2 ^ 62 }
        ensures ok { OnOk result (Told (W.taken out.old) (W.taken out.new)
            (λ text. Feeds self.old piece.now text self.new)) }
        ensures bytes { OnOk result (self.new.bytes ≡ self.old.bytes + length piece.now) }
        ensures cut { OnErr result
            (FeedsPart (W.taken out.old) (W.taken out.new) self.old piece.now) }
        ensures stands { Stands W.Sink of_device out.new result }
    {
        let mut rest = piece;
        while let Some(len) = memchr(b'\n', rest) {
            let (line, behind) = rest.split_at(len);
            self.feed_line(line, out)?;
            rest = &behind[1..];
        }
        self.keep(rest)?;
        Ok(())
    }

    /// Takes the next bytes of a script, at least one, answers each line that ends in them, and sends the
    /// answers on.
    pub(crate) fn feed_piece<W: Sink>(
        &mut self,
        piece: &[u8],
        out: &mut W,
    ) -> Result<(), WriteFault>
        requires works { W.has_failed out.old ≡ false }
        requires some { 0 < length piece.now }
        requires bytes { self.old.bytes + length piece.now < 2 ^ 62 }
        ensures ok { OnOk result (Told (W.taken out.old) (W.taken out.new)
            (λ text. Feeds self.old piece.now text self.new)) }
        ensures bytes { OnOk result (self.new.bytes ≡ self.old.bytes + length piece.now) }
        ensures sent { OnOk result (W.is_flushed out.new ≡ true) }
        ensures cut { OnErr result
            (FeedsPart (W.taken out.old) (W.taken out.new) self.old piece.now) }
        ensures stands { Stands W.Sink of_device out.new result }
    {
        self.feed(piece, out)?;
        out.flush()?;
        Ok(())
    }

    ghost use Rattle.script_runner.specs.Finish.{Finishes, LastStep, PutsLast};

    /// Answers a last line that no line feed ends.
    fn answer_last<W: Sink>(&mut self, out: &mut W) -> Result<(), WriteFault>
        requires works { W.has_failed out.old ≡ false }
        requires bytes { self.old.bytes < 2 ^ 63 }
        ensures ok { OnOk result (Told (W.taken out.old) (W.taken out.new)
            (λ text. LastStep self.old text self.new)) }
        ensures cut { OnErr result (PutsLast self.old (W.taken out.old) (W.taken out.new)) }
        ensures stands { Stands W.Sink of_device out.new result }
    {
        if self.line.as_slice().is_empty() {
            return Ok(());
        }
        self.answer(false, out)
    }

    /// Answers a last line that no line feed ends, and sends the answers on. Answers the counts.
    pub(crate) fn finish<W: Sink>(&mut self, out: &mut W) -> Result<Summary, WriteFault>
        requires works { W.has_failed out.old ≡ false }
        requires bytes { self.old.bytes < 2 ^ 63 }
        ensures ok { IfOk result (λ summary. Told (W.taken out.old) (W.taken out.new)
            (λ text. Finishes self.old text summary self.new.state.doc)) }
        ensures cut { OnErr result (PutsLast self.old (W.taken out.old) (W.taken out.new)) }
        ensures sent { OnOk result (W.is_flushed out.new ≡ true) }
        ensures stands { Stands W.Sink of_device out.new result }
    {
        self.answer_last(out)?;
        out.flush()?;
        Ok(Summary {
            answered: self.answered,
            refused: self.refused,
        })
    }

    /// The map as it is now.
    pub(crate) fn map(&self) -> &Map<'a, TreeIndex<A>, A>
        ensures { result.now.doc ≡ self.now.state.doc }
    {
        self.editor.map()
    }
}
