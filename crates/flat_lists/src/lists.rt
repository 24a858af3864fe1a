ghost use Rattle.std.specs.Prelude.{◌≡◌, ◌<◌, ◌++◌, ◌∷◌, [], length, slice_index, slice_index_or, OnOk, OnErr};

use std::alloc::Global;
use std::marker::Model;
use wx_base::NoMemory;

/// A list of lists that grows at its end: the last list is open until it is closed. Contracts see it as the
/// closed lists and the open one.
#[derive(Drop)]
pub struct FlatLists<T> {
    items: Vec<T>,
    ends: Vec<usize>,
}

impl<T> Model for FlatLists<T> {
    ghost use Rattle.std.specs.Prelude.{List, drop, length};
    ghost use Rattle.flat_lists.specs.Pieces.{pieces, last_end, AreEnds};

    ghost Value = { List (List T) × List T };

    ghost view = { λ it. (
      pieces 0 it.ends.items it.items.items,
      drop (last_end 0 it.ends.items) it.items.items,
    ) };

    ghost invariant = { λ it. AreEnds 0 it.ends.items (length it.items.items) };
}

impl<T: Drop> FlatLists<T> {
    /// No list, and nothing in the open one. It takes no memory.
    pub fn new(alloc: Global) -> FlatLists<T>
        ensures { result ≡ ([], []) }
    {
        FlatLists {
            items: Vec::new(alloc),
            ends: Vec::new(alloc),
        }
    }

    /// Adds an item at the end of the open list.
    pub fn push(&mut self, item: T) -> Result<(), NoMemory>
        ensures ok { OnOk result (self.new ≡ (self.old.0, self.old.1 ++ item ∷ [])) }
        ensures err { OnErr result (self.new ≡ self.old) }
    {
        self.items.push(item)?;
        Ok(())
    }

    /// Closes the open list, and opens the next.
    pub fn close(&mut self) -> Result<(), NoMemory>
        ensures ok { OnOk result (self.new ≡ (self.old.0 ++ self.old.1 ∷ [], [])) }
        ensures err { OnErr result (self.new ≡ self.old) }
    {
        let whole = self.items.as_slice().len();
        self.ends.push(whole)?;
        Ok(())
    }

    /// How many lists are closed.
    pub fn len(&self) -> usize
        ensures { result ≡ length self.now.0 }
    {
        self.ends.as_slice().len()
    }

    /// A closed list.
    pub fn list(&self, at: usize) -> &[T]
        requires { at < length self.now.0 }
        ensures { result.now ≡ slice_index_or self.now.0 at [] }
    {
        let ends = self.ends.as_slice();
        let start = start_of(ends, at);
        let size = ends[at] - start;
        let (_, items) = self.items.as_slice().split_at(start);
        let (list, _) = items.split_at(size);
        list
    }
}

// Where the list at a place begins: at the end before it.
fn start_of(ends: &[usize], at: usize) -> usize
    requires { at < length ends.now }
    ensures { result ≡ slice_index (0 ∷ ends.now) at }
{
    if at == 0 { 0 } else { ends[at - 1] }
}
