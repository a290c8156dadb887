//! A device that fails after so many calls.
ghost use Rattle.std.specs.Prelude.{◌≡◌, ◌<◌, ◌≤◌, ◌+◌, true, false, take, length, IfOk, OnOk, OnErr};
ghost use Rattle.std.specs.Io.KnownBytes.{Appends, Keeps, Consumes, IsAtEnd};

use crate::{Failed, Sink, Source};

/// A device that passes so many calls on, of whatever kind, and then fails: for tests of what a
/// caller does when a device fails.
#[derive(Drop)]
pub struct FailAt<D> {
    /// The device that the calls are passed on to.
    pub device: D,
    calls: u64,
    failed: bool,
}

impl<D> FailAt<D> {
    ghost use Rattle.device_io.specs.FailAt.{calls_left, fails_itself};

    /// A device that passes `calls` calls on to this one.
    pub fn new(device: D, calls: u64) -> Self
        ensures device { result.device ≡ device }
        ensures calls { calls_left result ≡ calls }
        ensures works { fails_itself result ≡ false }
    {
        FailAt {
            device,
            calls,
            failed: false,
        }
    }

    /// Counts a call that is passed on, or fails where none is left.
    fn pass(&mut self) -> Result<(), Failed>
        ensures device { self.new.device ≡ self.old.device }
        ensures counts { OnOk result (calls_left self.old ≡ calls_left self.new + 1) }
        ensures works { OnOk result (fails_itself self.new ≡ fails_itself self.old) }
        ensures none_left { OnErr result (calls_left self.old ≡ 0) }
        ensures failed { OnErr result (fails_itself self.new ≡ true) }
    {
        if self.calls == 0 {
            self.failed = true;
            return Err(Failed);
        }
        self.calls -= 1;
        Ok(())
    }
}

impl<D: Sink> Sink for FailAt<D> {
    ghost use Rattle.device_io.specs.FailAt.{is_failed, IsPassed};

    ghost taken = { λ s. D.taken s.device };

    ghost has_failed = { is_failed D.has_failed };

    ghost is_flushed = { λ s. D.is_flushed s.device };

    fn put(&mut self, piece: &[u8]) -> Result<usize, Failed>
        requires { is_failed D.has_failed self.old ≡ false }
        ensures within { IfOk result (λ n. n ≤ length piece.now) }
        ensures moves { IfOk result (λ n. 0 < length piece.now → 0 < n) }
        ensures ok { IfOk result (λ n.
            Appends (D.taken self.old.device) (D.taken self.new.device) (take n piece.now)) }
        ensures unsent { IfOk result (λ n. 0 < n → D.is_flushed self.new.device ≡ false) }
        ensures works { OnOk result (is_failed D.has_failed self.new ≡ false) }
        ensures err { OnErr result (Keeps (D.taken self.old.device) (D.taken self.new.device)) }
        ensures failed { OnErr result (is_failed D.has_failed self.new ≡ true) }

        // A call is passed on while some are left, and then none is.
        ensures passed { IsPassed D.has_failed self.old self.new result }
    {
        self.pass()?;
        self.device.put(piece)
    }

    fn flush(&mut self) -> Result<(), Failed>
        requires { is_failed D.has_failed self.old ≡ false }
        ensures kept { Keeps (D.taken self.old.device) (D.taken self.new.device) }
        ensures sent { OnOk result (D.is_flushed self.new.device ≡ true) }
        ensures works { OnOk result (is_failed D.has_failed self.new ≡ false) }
        ensures failed { OnErr result (is_failed D.has_failed self.new ≡ true) }

        // A call is passed on while some are left, and then none is.
        ensures passed { IsPassed D.has_failed self.old self.new result }
    {
        self.pass()?;
        self.device.flush()
    }
}

impl<D: Source> Source for FailAt<D> {
    ghost use Rattle.device_io.specs.FailAt.{is_failed, IsPassed};

    ghost coming = { λ s. D.coming s.device };

    ghost has_failed = { is_failed D.has_failed };

    fn get(&mut self, room: &mut [u8]) -> Result<usize, Failed>
        requires { is_failed D.has_failed self.old ≡ false }
        ensures within { IfOk result (λ n. n ≤ length room.new) }
        ensures ok { IfOk result (λ n.
            Consumes (D.coming self.old.device) (D.coming self.new.device) (take n room.new)) }
        ensures end { IfOk result (λ n.
            n ≡ 0 → 0 < length room.new → IsAtEnd (D.coming self.new.device)) }
        ensures works { OnOk result (is_failed D.has_failed self.new ≡ false) }
        ensures err { OnErr result (Keeps (D.coming self.old.device) (D.coming self.new.device)) }
        ensures failed { OnErr result (is_failed D.has_failed self.new ≡ true) }

        // A call is passed on while some are left, and then none is.
        ensures passed { IsPassed D.has_failed self.old self.new result }
    {
        self.pass()?;
        self.device.get(room)
    }
}
