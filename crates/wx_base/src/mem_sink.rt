ghost use Rattle.std.specs.Prelude.{◌≡◌, ◌⊎◌, [], ◌∷◌, ◌++◌, ◌<◌, ◌≢◌, length, take, IsOk, IsErr, IfOk, OnOk, OnErr, None, Some, IsSome, IsNone};
ghost use Rattle.wx_base.specs.Faults.{HasCause};
ghost use Rattle.wx_base.specs.Sink.{Writes};
ghost use Rattle.wx_base.specs.MemSink.{page_view, taken_by, after_put};

use crate::{NoMemory, PutError, Sequence, Sink};
use std::alloc::Global;
use std::marker::Model;

/// A sink in memory, of which chosen puts fail.
///
/// Puts of one or more bytes are numbered from 0, but those that memory was wanting for. A put with a
/// listed number takes the listed count of bytes, at most all, and fails.
#[derive(Debug, Drop)]
pub struct MemSink {
    failing: Vec<(u64, usize)>,
    puts: u64,
    bytes: Vec<u8>,
    faults: u64,
}

impl Model for MemSink {
    ghost use Rattle.wx_base.specs.MemSink.{Page};

    ghost Value = { Page };

    ghost view = { λ s. record {
      failing = s.failing.items;
      puts = s.puts;
      bytes = s.bytes.items;
      faults = s.faults;
    } };
}

impl MemSink {
    /// An empty sink. The puts whose numbers stand first in the pairs of `failing` fail; of two pairs
    /// with one number the first counts.
    pub fn new(alloc: Global, failing: Vec<(u64, usize)>) -> MemSink
        ensures { result ≡ record { failing = failing.items; puts = 0; bytes = []; faults = 0 } }
    {
        MemSink {
            failing,
            puts: 0,
            bytes: Vec::new(alloc),
            faults: 0,
        }
    }

    /// The written bytes.
    pub fn bytes(&self) -> &[u8]
        ensures { result.now ≡ self.now.bytes }
    {
        &self.bytes
    }
}

// How many bytes the put of this number takes before it fails.
fn find(failing: &[(u64, usize)], put: u64) -> Option<usize>
    ensures { result ≡ taken_by failing.now put }
{
    for pair in failing {
        if pair.0 == put {
            return Some(pair.1);
        }
    }
    None
}

impl Sink for MemSink {
    ghost view = { page_view };

    fn put(&mut self, bytes: &[u8]) -> Result<(), PutError>
        ensures writes { Writes (page_view self.old) (page_view self.new) bytes.now result }
        ensures cause { HasCause PutError.Failed self.old.faults self.new.faults result }
        ensures nothing { bytes.now ≡ [] → IsOk result × (page_view self.new ≡ page_view self.old) }

        // Which puts fail, and what a put leaves.
        ensures empty { bytes.now ≡ [] → self.new ≡ self.old }
        ensures no_memory { result ≡ Err PutError.NoMemory → self.new ≡ self.old }
        ensures ok { 0 < length bytes.now → OnOk result (
            (taken_by self.old.failing self.old.puts ≡ None)
            × (self.new ≡ after_put self.old bytes.now None)) }
        ensures failed { result ≡ Err PutError.Failed
            → IsSome (taken_by self.old.failing self.old.puts)
            × (self.new ≡ after_put self.old bytes.now (taken_by self.old.failing self.old.puts)) }
    {
        if bytes.is_empty() {
            return Ok(());
        }
        let taken = find(&self.failing, self.puts);
        let count = taken.unwrap_or(bytes.len()).min(bytes.len());
        if self.bytes.extend_from_slice(&bytes[..count]).is_err() {
            return Err(PutError::NoMemory);
        }
        self.puts = self.puts.saturating_add(1);
        if taken.is_some() {
            self.faults = self.faults.saturating_add(1);
            return Err(PutError::Failed);
        }
        Ok(())
    }

    fn faults(&self) -> u64 {
        self.faults
    }
}
