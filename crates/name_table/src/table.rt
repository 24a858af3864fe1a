ghost use Rattle.std.specs.Prelude.{◌≡◌, ◌++◌, ◌∷◌, [], IfOk, OnErr, MatchBool, IsNone, IsSome, IfSome, ◌<◌, length};
ghost use Rattle.name_table.specs.Names.{place_of};

use crate::key::Key;
use indexmap::IndexSet;
use std::alloc::Global;
use std::marker::Model;
use wx_base::NoMemory;

/// Different names, each with its place.
#[derive(Drop)]
pub struct NameTable<'a> {
    names: IndexSet<Key<'a>>,
}

impl<'a> Model for NameTable<'a> {
    ghost use Rattle.std.specs.Prelude.{List, ℕ};

    ghost Value = { List (List ℕ) };

    ghost view = { λ t. t.names.keys };
}

impl<'a> NameTable<'a> {
    /// The table without a name. It takes no memory.
    pub fn new(alloc: Global) -> NameTable<'a>
        ensures { result ≡ [] }
    {
        NameTable {
            names: IndexSet::new(alloc),
        }
    }

    /// Adds a name at the end and answers true, or answers false where it is there already.
    pub fn add(&mut self, name: &'a [u8]) -> Result<bool, NoMemory>
        ensures added { IfOk result (λ added. MatchBool added
            ((place_of name.now self.old ≡ None) × (self.new ≡ self.old ++ name.now ∷ []))
            (IsSome (place_of name.now self.old) × (self.new ≡ self.old))) }
        ensures err { OnErr result (self.new ≡ self.old) }
    {
        Ok(self.names.insert(Key::new(name))?)
    }

    /// The place of a name.
    pub fn find(&self, name: &[u8]) -> Option<usize>
        ensures place { result ≡ place_of name.now self.now }
        ensures within { IfSome result (λ place. place < length self.now) }
    {
        self.names.get_index_of(&Key::new(name))
    }

    /// How many names there are.
    pub fn len(&self) -> usize
        ensures { result ≡ length self.now }
    {
        self.names.len()
    }
}
