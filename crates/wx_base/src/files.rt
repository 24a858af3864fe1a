ghost use Rattle.std.specs.Prelude.{◌≡◌, ◌≤◌, ℕ, length, IfOk, OnOk};
ghost use Rattle.wx_base.specs.Faults.{HasCause};
ghost use Rattle.wx_base.specs.Files.{FilesView, AreTold, IsTooLong, LeavesFetch, ContentsWith, LeavesStore};
ghost use Rattle.wx_base.specs.declared.files.FetchError.TheVariants as fetch;
ghost use Rattle.wx_base.specs.declared.files.StoreError.TheVariants as store;

use crate::{Name, NoMemory};
use std::alloc::Global;
use thiserror::Error;

/// Why a fetch gave no bytes.
#[derive(Clone, Copy, Debug, PartialEq, Eq, Error)]
pub enum FetchError {
    /// The outside failed; the count of faults rose.
    #[error("the read failed")]
    Failed,
    /// The contents are longer than the limit.
    #[error("the contents are longer than the limit")]
    TooLong,
    #[error("out of memory")]
    NoMemory,
}

/// Why a store kept nothing.
#[derive(Clone, Copy, Debug, PartialEq, Eq, Error)]
pub enum StoreError {
    /// The outside failed; the count of faults rose.
    #[error("the write failed")]
    Failed,
    #[error("out of memory")]
    NoMemory,
}

impl From<NoMemory> for FetchError {
    ghost from_gives = { λ _ e. e ≡ fetch.NoMemory };

    fn from(_: NoMemory) -> Self {
        FetchError::NoMemory
    }
}

impl From<NoMemory> for StoreError {
    ghost from_gives = { λ _ e. e ≡ store.NoMemory };

    fn from(_: NoMemory) -> Self {
        StoreError::NoMemory
    }
}

/// What a program reads by name, and stores by name.
///
/// It may tell its contents, which names were asked for and which pairs were stored; what is told is
/// what its calls give and do. An object over a real file system tells none of these.
pub trait Files {
    /// What it tells, and how often the outside failed.
    ghost view: { Self → FilesView };

    /// The bytes under a name, at most `limit` of them.
    fn fetch(&mut self, alloc: Global, name: &Name, limit: u64) -> Result<Vec<u8>, FetchError>
        ensures within { IfOk result (λ bytes. length bytes.items ≤ limit) }
        ensures told { IfOk result (λ bytes.
            AreTold (view self.old).contents name.now bytes.items) }
        ensures longer { result ≡ Err FetchError.TooLong
            → IsTooLong (view self.old) (view self.new) name.now limit }
        ensures cause { HasCause FetchError.Failed
            (view self.old).faults (view self.new).faults result }
        ensures taken { (view self.old).taken ≤ (view self.new).taken }
        ensures leaves { LeavesFetch (view self.old) (view self.new) name.now result };

    /// Keeps the bytes under a name, in place of those that were there.
    fn store(&mut self, alloc: Global, name: &Name, bytes: &[u8]) -> Result<(), StoreError>
        ensures cause { HasCause StoreError.Failed
            (view self.old).faults (view self.new).faults result }
        ensures contents { OnOk result
            (ContentsWith (view self.old).contents (view self.new).contents name.now bytes.now) }
        ensures leaves { LeavesStore (view self.old) (view self.new) name.now bytes.now result };

    /// How often the outside failed.
    fn faults(&self) -> u64
        ensures { result ≡ (view self.now).faults };
}
