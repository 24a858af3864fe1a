ghost use Rattle.std.specs.Prelude.{◌≡◌, ◌<◌, ◌+◌, [], ◌∷◌, ◌++◌, length, take, IfOk};

use crate::NoMemory;
use std::alloc::Global;
use std::marker::Model;

/// A list whose room is reserved when it is made, so that a push takes no memory.
///
/// Contracts see its items, and for how many there is room in all.
#[derive(Debug, Drop)]
pub struct Reserved<T> {
    items: Vec<T>,
    room: usize,
}

impl<T> Model for Reserved<T> {
    ghost use Rattle.std.specs.Prelude.{◌≤◌, vec_len, vec_capacity};
    ghost use Rattle.wx_base.specs.Reserved.{Roomy, roomy_code};

    ghost Value = { Roomy T };

    ghost coded = { roomy_code T.code };

    ghost view = { λ list. record { items = list.items.items; room = list.room } };

    ghost invariant = { λ list.
        (vec_len list.items ≤ list.room) × (list.room ≤ vec_capacity list.items) };
}

impl<T> Reserved<T> {
    /// The empty list with room for that many items.
    pub fn with_capacity(alloc: Global, room: usize) -> Result<Reserved<T>, NoMemory>
        ensures { IfOk result (λ list. list ≡ record { items = []; room = room }) }
    {
        let items = Vec::with_capacity(alloc, room)?;
        Ok(Reserved { items, room })
    }

    /// The items in order.
    pub fn items(&self) -> &[T]
        ensures { result.now ≡ self.now.items }
    {
        self.items.as_slice()
    }

    /// How many items there are.
    pub fn len(&self) -> usize
        ensures { result ≡ length self.now.items }
    {
        self.items.len()
    }

    /// How many more items there is room for.
    pub fn spare(&self) -> usize
        ensures { length self.now.items + result ≡ self.now.room }
    {
        self.room - self.items.len()
    }
}

impl<T: Drop> Reserved<T> {
    /// Adds an item at the end. It takes no memory.
    pub fn push(&mut self, item: T)
        requires { length self.old.items < self.old.room }
        ensures { self.new ≡ record self.old { items = self.old.items ++ item ∷ [] } }
    {
        self.items.push(item).unwrap();
    }

    /// Keeps the first `len` items, and lets the others go.
    pub fn truncate(&mut self, len: usize)
        ensures { self.new ≡ record self.old { items = take len self.old.items } }
    {
        self.items.truncate(len);
    }
}
