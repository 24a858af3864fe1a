ghost use Rattle.std.specs.Prelude.{◌≡◌, ◌≢◌, ◌≤◌, ◌<◌, length, IsTrue, IsSome, ◌↔◌, IfOk, OnOk, OnErr};
ghost use Rattle.std.specs.Option.{option_map};
ghost use Rattle.wx_base.specs.Faults.{HasCause};
ghost use Rattle.wx_base.specs.Files.{AreTold, IsTooLong, LeavesFetch, ContentsWith, LeavesStore};
ghost use Rattle.wx_base.specs.Shelf.{pairs_of, first_with, fresh, contents_or_empty, shelf_view, with_asked, fetched, stored};

use crate::{Copied, FetchError, Files, Name, NoMemory, Sequence, StoreError};
use std::alloc::Global;
use std::marker::Model;

/// Files in memory that never fail.
///
/// Every name has contents: a name that was given none has no bytes. The count of faults is always 0.
#[derive(Debug, Drop)]
pub struct SureFiles {
    files: Vec<(Name, Vec<u8>)>,
    asked: Sequence<Name>,
    kept: Vec<(Name, Vec<u8>)>,
}

impl Model for SureFiles {
    ghost use Rattle.wx_base.specs.Shelf.{Shelf, pairs_of};

    ghost Value = { Shelf };

    ghost view = { λ m. record {
      files = pairs_of m.files.items;
      asked = m.asked;
      kept = pairs_of m.kept.items;
    } };
}

impl SureFiles {
    /// Files with these contents; of two pairs with one name the first counts.
    pub fn new(alloc: Global, files: Vec<(Name, Vec<u8>)>) -> SureFiles
        ensures { result ≡ fresh (pairs_of files.items) }
    {
        SureFiles {
            files,
            asked: Sequence::new(alloc),
            kept: Vec::new(alloc),
        }
    }

    /// The stored pairs, in order.
    pub fn stored(&self) -> &[(Name, Vec<u8>)]
        ensures { pairs_of result.now ≡ self.now.kept }
    {
        &self.kept
    }

    /// The names that were asked for, in order.
    pub fn asked(&self) -> &[Name]
        ensures { result.now ≡ self.now.asked }
    {
        self.asked.items()
    }

    // Whether a pair has this name.
    pub(crate) fn has(&self, name: &Name) -> bool
        ensures { IsTrue result ↔ IsSome (first_with self.now.files name.now) }
    {
        find(&self.files, name).is_some()
    }

    // Notes that a name was asked for.
    pub(crate) fn ask(&mut self, alloc: Global, name: &Name) -> Result<(), NoMemory>
        ensures ok { OnOk result (self.new ≡ with_asked self.old name.now) }
        ensures err { OnErr result (self.new ≡ self.old) }
    {
        self.asked.push(name.copy(alloc)?)
    }
}

// The bytes of the first pair with this name.
fn find<'a>(files: &'a [(Name, Vec<u8>)], name: &Name) -> Option<&'a Vec<u8>>
    ensures { option_map (λ bytes. bytes.now.items) result
        ≡ first_with (pairs_of files.now) name.now }
{
    for file in files {
        if file.0.same(name) {
            return Some(&file.1);
        }
    }
    None
}

// What a fetch answers, before the name is noted.
fn answer(
    alloc: Global,
    files: &[(Name, Vec<u8>)],
    name: &Name,
    limit: u64,
) -> Result<Vec<u8>, FetchError>
    ensures ok { IfOk result (λ bytes.
        bytes.items ≡ contents_or_empty (pairs_of files.now) name.now) }
    ensures within { IfOk result (λ bytes. length bytes.items ≤ limit) }
    ensures longer { result ≡ Err FetchError.TooLong
        → limit < length (contents_or_empty (pairs_of files.now) name.now) }
    ensures never { result ≢ Err FetchError.Failed }
{
    match find(files, name) {
        Some(bytes) => {
            if bytes.len() as u64 > limit {
                return Err(FetchError::TooLong);
            }
            bytes.to_vec(alloc).map_err(|_| FetchError::NoMemory)
        }
        None => Ok(Vec::new(alloc)),
    }
}

impl Files for SureFiles {
    ghost view = { shelf_view };

    fn fetch(&mut self, alloc: Global, name: &Name, limit: u64) -> Result<Vec<u8>, FetchError>
        ensures within { IfOk result (λ bytes. length bytes.items ≤ limit) }
        ensures told { IfOk result (λ bytes.
            AreTold (shelf_view self.old).contents name.now bytes.items) }
        ensures longer { result ≡ Err FetchError.TooLong
            → IsTooLong (shelf_view self.old) (shelf_view self.new) name.now limit }
        ensures cause { HasCause FetchError.Failed 0 0 result }
        ensures taken { (shelf_view self.old).taken ≤ (shelf_view self.new).taken }
        ensures leaves { LeavesFetch (shelf_view self.old) (shelf_view self.new) name.now result }

        // No fetch fails, and what one leaves.
        ensures never { result ≢ Err FetchError.Failed }
        ensures after { self.new ≡ fetched self.old name.now result }
    {
        let answer = answer(alloc, &self.files, name, limit);
        if let Err(FetchError::NoMemory) = answer {
            return answer;
        }
        self.ask(alloc, name)?;
        answer
    }

    fn store(&mut self, alloc: Global, name: &Name, bytes: &[u8]) -> Result<(), StoreError>
        ensures cause { HasCause StoreError.Failed 0 0 result }
        ensures contents { OnOk result
            (ContentsWith (shelf_view self.old).contents (shelf_view self.new).contents
            name.now bytes.now) }
        ensures leaves { LeavesStore (shelf_view self.old) (shelf_view self.new)
            name.now bytes.now result }

        // No store fails, and what one leaves.
        ensures never { result ≢ Err StoreError.Failed }
        ensures after { self.new ≡ stored self.old name.now bytes.now result }
    {
        let asked = name.copy(alloc)?;
        let kept = (
            name.copy(alloc)?,
            bytes.to_vec(alloc).map_err(NoMemory::from)?,
        );
        let file = (
            name.copy(alloc)?,
            bytes.to_vec(alloc).map_err(NoMemory::from)?,
        );
        self.kept.reserve(1).map_err(NoMemory::from)?;
        self.files.reserve(1).map_err(NoMemory::from)?;
        self.asked.push(asked)?;
        self.kept.push(kept).unwrap();
        self.files.insert(0, file).unwrap();
        Ok(())
    }

    fn faults(&self) -> u64 {
        0
    }
}
