//! Bytes that a sink has taken.
ghost use Rattle.std.specs.Prelude.{◌≡◌, ◌<◌, ◌≤◌, true, false, take, length, IfOk, OnOk, OnErr};
ghost use Rattle.std.specs.Io.KnownBytes.{Appends, Keeps};

use device_io::{Failed, Sink};

/// The first bytes of a piece, which a sink has taken. `passed` alone makes it, and it can't be let go: what is made of
/// it is made of the bytes that were taken, once, and of no others.
pub(crate) struct Taken<'p> {
    piece: &'p [u8],
    count: usize,
    ghost within: { count ≤ length piece.now },
}

impl<'p> Taken<'p> {
    /// How many bytes there are.
    pub(crate) fn count(&self) -> usize
        ensures { result ≡ self.now.count }
    {
        self.count
    }

    /// The bytes.
    pub(crate) fn bytes(self) -> &'p [u8]
        ensures { result.now ≡ take self.entry.count self.entry.piece.now }
    {
        let Taken { piece, count } = self;
        &piece[..count]
    }
}

/// Puts a piece into a sink, and gives what the sink took of it.
pub(crate) fn passed<'p, W: Sink>(sink: &mut W, piece: &'p [u8]) -> Result<Taken<'p>, Failed>
    requires { W.has_failed sink.old ≡ false }
    ensures piece { IfOk result (λ taken. taken.piece.now ≡ piece.now) }
    ensures within { IfOk result (λ taken. taken.count ≤ length piece.now) }
    ensures moves { IfOk result (λ taken. 0 < length piece.now → 0 < taken.count) }
    ensures ok { IfOk result (λ taken.
        Appends (W.taken sink.old) (W.taken sink.new) (take taken.count piece.now)) }
    ensures unsent { IfOk result (λ taken. 0 < taken.count → W.is_flushed sink.new ≡ false) }
    ensures works { OnOk result (W.has_failed sink.new ≡ false) }
    ensures err { OnErr result (Keeps (W.taken sink.old) (W.taken sink.new)) }
    ensures failed { OnErr result (W.has_failed sink.new ≡ true) }
{
    let count = sink.put(piece)?;
    Ok(Taken { piece, count })
}
