ghost use Rattle.std.specs.Prelude.{◌≡◌, ◌≢◌, [], ◌++◌, IsOk, OnOk, OnErr};
ghost use Rattle.wx_base.specs.Faults.{HasCause};
ghost use Rattle.wx_base.specs.Sink.{Writes};
ghost use Rattle.wx_base.specs.SureSink.{sure_sink_view};

use crate::{PutError, Sink};
use std::alloc::Global;
use std::marker::Model;

/// A sink in memory that never fails. Contracts see it as the written bytes.
#[derive(Debug, Drop)]
pub struct SureSink {
    bytes: Vec<u8>,
}

impl Model for SureSink {
    ghost use Rattle.std.specs.Prelude.{List, ℕ};

    ghost Value = { List ℕ };

    ghost view = { λ s. s.bytes.items };
}

impl SureSink {
    /// An empty sink.
    pub fn new(alloc: Global) -> SureSink
        ensures { result ≡ [] }
    {
        SureSink {
            bytes: Vec::new(alloc),
        }
    }

    /// The written bytes.
    pub fn bytes(&self) -> &[u8]
        ensures { result.now ≡ self.now }
    {
        &self.bytes
    }
}

impl Sink for SureSink {
    ghost view = { sure_sink_view };

    fn put(&mut self, bytes: &[u8]) -> Result<(), PutError>
        ensures writes { Writes (sure_sink_view self.old) (sure_sink_view self.new)
            bytes.now result }
        ensures cause { HasCause PutError.Failed 0 0 result }
        ensures nothing { bytes.now ≡ []
            → IsOk result × (sure_sink_view self.new ≡ sure_sink_view self.old) }

        // No put fails, and what one leaves.
        ensures never { result ≢ Err PutError.Failed }
        ensures ok { OnOk result (self.new ≡ self.old ++ bytes.now) }
        ensures no_memory { OnErr result (self.new ≡ self.old) }
    {
        if bytes.is_empty() {
            return Ok(());
        }
        if self.bytes.extend_from_slice(bytes).is_err() {
            return Err(PutError::NoMemory);
        }
        Ok(())
    }

    fn faults(&self) -> u64 {
        0
    }
}
