ghost use Rattle.std.specs.Prelude.{◌≡◌, ◌+◌, ◌-◌, ◌^◌, ◌<◌, ◌≤◌, min, length, IfOk, IfSome, IsOkUnless, Err, None};
ghost use Rattle.wx_base.specs.declared.files.StoreError.TheVariants.{Failed};

use crate::{FetchError, Files, Name, StoreError};
use std::alloc::Global;
use std::io::{ErrorKind, Read};
use std::{fs, rt};

/// The file system. It tells no contents, no asked names and no stored pairs.
#[derive(Drop)]
pub struct HostFiles<'a, R> {
    rt: &'a R,
    faults: u64,
    taken: u64,
}

impl<'a, R: rt::Files> HostFiles<'a, R> {
    /// The files of a runtime.
    pub fn new(rt: &'a R) -> HostFiles<'a, R>
        ensures faults { (⟦<HostFiles<'a, R> as Files>⟧.view result).faults ≡ 0 }
    {
        HostFiles {
            rt,
            faults: 0,
            taken: 0,
        }
    }
}

// All that is left of a reader, where that is at most `limit` bytes; else one byte more than that is taken.
fn read_within<S: Read + Drop>(
    alloc: Global,
    reader: S,
    limit: u64,
    taken: &mut u64,
) -> Result<Vec<u8>, FetchError>
    ensures within { IfOk result (λ bytes. length bytes.items ≤ limit) }
    ensures all { IfOk result (λ bytes. IfSome (S.remaining reader) (λ left. bytes.items ≡ left)) }
    ensures longer { result ≡ Err FetchError.TooLong
        → IfSome (S.remaining reader) (λ left. limit < length left) }
    ensures took { result ≡ Err FetchError.TooLong
        → min (taken.old + limit + 1) (2 ^ 64 - 1) ≤ taken.new }
    ensures later { taken.old ≤ taken.new }
{
    let mut bytes = Vec::new(alloc);
    let read = reader.take(limit.saturating_add(1)).read_to_end(&mut bytes);
    let count = bytes.len() as u64;
    *taken = taken.saturating_add(count);
    match read {
        Ok(_) if count <= limit => Ok(bytes),
        Ok(_) => Err(FetchError::TooLong),
        Err(error) if error.kind() == ErrorKind::OutOfMemory => Err(FetchError::NoMemory),
        Err(_) => Err(FetchError::Failed),
    }
}

fn fetch<R: rt::Files>(
    rt: &R,
    alloc: Global,
    name: &Name,
    limit: u64,
    taken: &mut u64,
) -> Result<Vec<u8>, FetchError>
    ensures within { IfOk result (λ bytes. length bytes.items ≤ limit) }
    ensures took { result ≡ Err FetchError.TooLong
        → min (taken.old + limit + 1) (2 ^ 64 - 1) ≤ taken.new }
    ensures later { taken.old ≤ taken.new }
{
    let path = str::from_utf8(name.bytes()).map_err(|_| FetchError::Failed)?;
    let file = fs::open(rt, path).map_err(|_| FetchError::Failed)?;
    read_within(alloc, file, limit, taken)
}

fn store<R: rt::Files>(rt: &R, name: &Name, bytes: &[u8]) -> Result<(), StoreError>
    ensures { IsOkUnless result StoreError.Failed }
{
    let path = str::from_utf8(name.bytes()).map_err(|_| StoreError::Failed)?;
    fs::write(rt, path, bytes).map_err(|_| StoreError::Failed)
}

impl<'a, R: rt::Files> Files for HostFiles<'a, R> {
    ghost view = { λ h. record {
      contents = None;
      asked = None;
      stored = None;
      faults = h.faults;
      taken = h.taken;
    } };

    fn fetch(&mut self, alloc: Global, name: &Name, limit: u64) -> Result<Vec<u8>, FetchError> {
        let result = fetch(self.rt, alloc, name, limit, &mut self.taken);
        if let Err(FetchError::Failed) = result {
            self.faults = self.faults.saturating_add(1);
        }
        result
    }

    fn store(&mut self, alloc: Global, name: &Name, bytes: &[u8]) -> Result<(), StoreError> {
        let result = store(self.rt, name, bytes);
        if result.is_err() {
            self.faults = self.faults.saturating_add(1);
        }
        result
    }

    fn faults(&self) -> u64 {
        self.faults
    }
}
