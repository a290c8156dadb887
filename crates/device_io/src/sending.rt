//! Bytes sent to a sink.
ghost use Rattle.std.specs.Prelude.{◌≡◌, false};
ghost use Rattle.device_io.specs.Sending.{of_sink, Sends};

use crate::{Failed, Sink};

/// Puts all bytes, in as many calls as the sink asks for. `Failed` comes where the sink fails in
/// one of them; the first of the bytes are taken then, and no others.
pub fn put_all<W: Sink>(sink: &mut W, bytes: &[u8]) -> Result<(), Failed>
    requires { W.has_failed sink.old ≡ false }
    ensures { Sends W.Sink of_sink sink.old sink.new result bytes.now }
{
    let mut at = 0;
    while at < bytes.len() {
        at += sink.put(&bytes[at..])?;
    }
    Ok(())
}
