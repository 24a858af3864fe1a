ghost use Rattle.std.specs.Prelude.{◌≡◌, [], IsOk};
ghost use Rattle.wx_base.specs.Faults.{HasCause};
ghost use Rattle.wx_base.specs.Sink.{SinkView, Writes};
ghost use Rattle.wx_base.specs.declared.sink.PutError.TheVariants.{NoMemory};

use thiserror::Error;

/// Why a put didn't write all its bytes.
#[derive(Clone, Copy, Debug, PartialEq, Eq, Error)]
pub enum PutError {
    /// The outside failed; the count of faults rose, and a front of the bytes may have been written.
    #[error("the write failed")]
    Failed,
    /// Nothing was written.
    #[error("out of memory")]
    NoMemory,
}

/// What a program writes to. It may tell the bytes that were written; standard output doesn't.
pub trait Sink {
    /// What it tells, and how often the outside failed.
    ghost view: { Self → SinkView };

    /// Writes the bytes behind those that were written. A put of no bytes changes nothing.
    fn put(&mut self, bytes: &[u8]) -> Result<(), PutError>
        ensures writes { Writes (view self.old) (view self.new) bytes.now result }
        ensures cause { HasCause PutError.Failed
            (view self.old).faults (view self.new).faults result }
        ensures nothing { bytes.now ≡ [] → IsOk result × (view self.new ≡ view self.old) };

    /// How often the outside failed.
    fn faults(&self) -> u64
        ensures { result ≡ (view self.now).faults };
}
