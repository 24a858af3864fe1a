ghost use Rattle.std.specs.Prelude.{◌≡◌, ◌<◌, ℕ, None, OnOk, OnErr, IsOkUnless, length, take};
ghost use Rattle.std.specs.Io.KnownBytes.{Appends};
ghost use Rattle.wx_base.specs.declared.sink.PutError.TheVariants.{Failed};

use crate::{PutError, Sink};
use std::io;
use std::io::Write;

/// Standard output. It tells no bytes.
#[derive(Drop)]
pub struct HostSink<'a, R> {
    rt: &'a R,
    faults: u64,
}

impl<'a, R: Print> HostSink<'a, R> {
    /// The standard output of a runtime.
    pub fn new(rt: &'a R) -> HostSink<'a, R>
        ensures faults { (⟦<HostSink<'a, R> as Sink>⟧.view result).faults ≡ 0 }
    {
        HostSink { rt, faults: 0 }
    }
}

// Writes all the bytes, unless a write fails or takes nothing.
fn write_all<W: Write>(writer: &mut W, bytes: &[u8]) -> Result<(), PutError>
    ensures ok { OnOk result (Appends (W.contents writer.old) (W.contents writer.new) bytes.now) }
    ensures err { OnErr result ((n : ℕ) × (n < length bytes.now)
        × Appends (W.contents writer.old) (W.contents writer.new) (take n bytes.now)) }
    ensures failed { IsOkUnless result PutError.Failed }
{
    let mut written = 0;
    while written < bytes.len() {
        match writer.write(&bytes[written..]) {
            Ok(count) if count > 0 => written += count,
            _ => return Err(PutError::Failed),
        }
    }
    Ok(())
}

impl<'a, R: Print> Sink for HostSink<'a, R> {
    ghost view = { λ s. record { written = None; faults = s.faults } };

    fn put(&mut self, bytes: &[u8]) -> Result<(), PutError> {
        let result = write_all(&mut io::writer(self.rt), bytes);
        if result.is_err() {
            self.faults = self.faults.saturating_add(1);
        }
        result
    }

    fn faults(&self) -> u64 {
        self.faults
    }
}
