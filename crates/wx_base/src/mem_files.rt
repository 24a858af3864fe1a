ghost use Rattle.std.specs.Prelude.{◌≡◌, ◌≢◌, ◌≤◌, length, Contains, IfOk, OnOk};
ghost use Rattle.wx_base.specs.Faults.{HasCause};
ghost use Rattle.wx_base.specs.Files.{AreTold, IsTooLong, LeavesFetch, ContentsWith, LeavesStore};
ghost use Rattle.wx_base.specs.MemFiles.{memory_view, FetchFails, fetched, stored};
ghost use Rattle.wx_base.specs.Shelf.{pairs_of, fresh};

use crate::{FetchError, Files, Name, StoreError, SureFiles};
use std::alloc::Global;
use std::marker::Model;

/// Files in memory, of which chosen calls fail.
///
/// Calls of `fetch` and `store` are numbered together from 0, but those that memory was wanting for. A
/// call with a listed number fails, and so does a fetch of a name without contents.
#[derive(Debug, Drop)]
pub struct MemFiles {
    shelf: SureFiles,
    failing: Vec<u64>,
    calls: u64,
    faults: u64,
}

impl Model for MemFiles {
    ghost use Rattle.wx_base.specs.MemFiles.{Memory};

    ghost Value = { Memory };

    ghost view = { λ m. record {
      shelf = m.shelf;
      failing = m.failing.items;
      calls = m.calls;
      faults = m.faults;
    } };
}

impl MemFiles {
    /// Files with these contents; of two pairs with one name the first counts. The calls whose numbers
    /// are in `failing` fail.
    pub fn new(alloc: Global, files: Vec<(Name, Vec<u8>)>, failing: Vec<u64>) -> MemFiles
        ensures { result ≡ record {
          shelf = fresh (pairs_of files.items);
          failing = failing.items;
          calls = 0;
          faults = 0;
        } }
    {
        MemFiles {
            shelf: SureFiles::new(alloc, files),
            failing,
            calls: 0,
            faults: 0,
        }
    }

    /// The stored pairs, in order.
    pub fn stored(&self) -> &[(Name, Vec<u8>)]
        ensures { pairs_of result.now ≡ self.now.shelf.kept }
    {
        self.shelf.stored()
    }

    /// The names that were asked for, in order.
    pub fn asked(&self) -> &[Name]
        ensures { result.now ≡ self.now.shelf.asked }
    {
        self.shelf.asked()
    }
}

impl Files for MemFiles {
    ghost view = { memory_view };

    fn fetch(&mut self, alloc: Global, name: &Name, limit: u64) -> Result<Vec<u8>, FetchError>
        ensures within { IfOk result (λ bytes. length bytes.items ≤ limit) }
        ensures told { IfOk result (λ bytes.
            AreTold (memory_view self.old).contents name.now bytes.items) }
        ensures longer { result ≡ Err FetchError.TooLong
            → IsTooLong (memory_view self.old) (memory_view self.new) name.now limit }
        ensures cause { HasCause FetchError.Failed self.old.faults self.new.faults result }
        ensures taken { (memory_view self.old).taken ≤ (memory_view self.new).taken }
        ensures leaves { LeavesFetch (memory_view self.old) (memory_view self.new) name.now result }

        // Which calls fail, and what a call leaves.
        ensures fails { FetchFails self.old name.now
            → OnOk result ⊥ × (result ≢ Err FetchError.TooLong) }
        ensures failed { result ≡ Err FetchError.Failed → FetchFails self.old name.now }
        ensures after { self.new ≡ fetched self.old name.now result }
    {
        if self.failing.contains(&self.calls) || !self.shelf.has(name) {
            self.shelf.ask(alloc, name)?;
            self.calls = self.calls.saturating_add(1);
            self.faults = self.faults.saturating_add(1);
            return Err(FetchError::Failed);
        }
        let bytes = self.shelf.fetch(alloc, name, limit);
        if let Err(FetchError::NoMemory) = bytes {
            return bytes;
        }
        self.calls = self.calls.saturating_add(1);
        bytes
    }

    fn store(&mut self, alloc: Global, name: &Name, bytes: &[u8]) -> Result<(), StoreError>
        ensures cause { HasCause StoreError.Failed self.old.faults self.new.faults result }
        ensures contents { OnOk result
            (ContentsWith (memory_view self.old).contents (memory_view self.new).contents
            name.now bytes.now) }
        ensures leaves { LeavesStore (memory_view self.old) (memory_view self.new)
            name.now bytes.now result }

        // Which calls fail, and what a call leaves.
        ensures fails { Contains self.old.failing self.old.calls → OnOk result ⊥ }
        ensures failed { result ≡ Err StoreError.Failed → Contains self.old.failing self.old.calls }
        ensures after { self.new ≡ stored self.old name.now bytes.now result }
    {
        if self.failing.contains(&self.calls) {
            self.shelf.ask(alloc, name)?;
            self.calls = self.calls.saturating_add(1);
            self.faults = self.faults.saturating_add(1);
            return Err(StoreError::Failed);
        }
        self.shelf.store(alloc, name, bytes)?;
        self.calls = self.calls.saturating_add(1);
        Ok(())
    }

    fn faults(&self) -> u64 {
        self.faults
    }
}
