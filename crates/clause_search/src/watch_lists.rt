ghost use Rattle.std.specs.Prelude.{◌≡◌, ◌≢◌, ℕ, ◌<◌, [], ◌∷◌, ◌++◌, length, slice_set, slice_index_or, All, IfOk, OnOk, OnErr};
ghost use Rattle.clause_search.specs.Watched.{list_at, watcher_of};
ghost use Rattle.clause_search.specs.Visited.{Takes, Replaces, watched_lit};

use mix_system::Lit;
use std::alloc::Global;
use std::marker::Model;
use wx_base::NoMemory;

/// A watched literal of a clause. Its term and side are those of the list in which it stands.
#[derive(Clone, Copy, Debug)]
pub struct Watcher {
    /// The literal's bound.
    pub bound: i128,
    /// The clause's number.
    pub number: u32,
    /// The literal's place in the clause.
    pub at: usize,
}

impl Watcher {
    /// The watcher of a literal of a clause.
    pub fn of(clause: &[Lit], number: u32, at: usize) -> Watcher
        requires { at < length clause.now }
        ensures { result ≡ watcher_of number clause.now at }
    {
        Watcher {
            bound: clause[at].bound,
            number,
            at,
        }
    }

    /// The literal, where the term and side are those of another one.
    pub fn literal(&self, key: &Lit) -> Lit
        ensures { result ≡ watched_lit key.now self.now.bound }
    {
        Lit {
            term: key.term,
            side: key.side,
            bound: self.bound,
        }
    }
}

/// A list of watchers for each side of each term. Contracts see the lists.
#[derive(Debug, Drop)]
pub struct WatchLists {
    lists: Vec<Vec<Watcher>>,
}

impl Model for WatchLists {
    ghost use Rattle.std.specs.Prelude.{List, map};
    ghost use Rattle.clause_search.specs.declared.watch_lists.Watcher.{Watcher as Entry};

    ghost Value = { List (List Entry) };

    ghost view = { λ it. map (λ list. list.items) it.lists.items };
}

impl WatchLists {
    /// So many empty lists.
    pub fn new(alloc: Global, places: usize) -> Result<WatchLists, NoMemory>
        ensures places { IfOk result (λ lists. length lists ≡ places) }
        ensures empty { IfOk result (All (λ list. list ≡ [])) }
    {
        let mut lists = Vec::new(alloc);
        for _ in 0..places {
            lists.push(Vec::new(alloc))?;
        }
        Ok(WatchLists { lists })
    }

    /// How many watchers a list has.
    pub fn len(&self, list: usize) -> usize
        requires { list < length self.now }
        ensures { result ≡ length (list_at self.now list) }
    {
        self.lists[list].len()
    }

    /// A watcher of a list.
    pub fn get(&self, list: usize, at: usize) -> Watcher
        requires list { list < length self.now }
        requires within { at < length (list_at self.now list) }
        ensures { result ≡ slice_index_or (list_at self.now list) at result }
    {
        self.lists[list][at]
    }

    /// Puts a watcher behind a list. Where memory is wanting the lists stand as before.
    pub fn put(&mut self, list: usize, watcher: Watcher) -> Result<(), NoMemory>
        requires { list < length self.old }
        ensures ok { OnOk result (self.new ≡ slice_set self.old list
            (list_at self.old list ++ watcher ∷ [])) }
        ensures err { OnErr result (self.new ≡ self.old) }
    {
        self.lists[list].push(watcher)?;
        Ok(())
    }

    /// Writes a watcher in another one's place.
    pub fn replace(&mut self, list: usize, at: usize, watcher: Watcher)
        requires list { list < length self.old }
        requires within { at < length (list_at self.old list) }
        ensures { Replaces list at watcher self.old self.new }
    {
        self.lists[list][at] = watcher;
    }

    /// Takes a watcher out of a list, whose last one stands in its place then.
    pub fn take(&mut self, list: usize, at: usize)
        requires list { list < length self.old }
        requires within { at < length (list_at self.old list) }
        ensures takes { Takes list at self.old self.new }
        ensures others { (other : ℕ) → other ≢ list
            → list_at self.new other ≡ list_at self.old other }
    {
        self.lists[list].swap_remove(at);
    }

    /// Empties all lists.
    pub fn clear(&mut self)
        ensures places { length self.new ≡ length self.old }
        ensures empty { All (λ list. list ≡ []) self.new }
    {
        for list in self.lists.iter_mut() {
            list.clear();
        }
    }
}
