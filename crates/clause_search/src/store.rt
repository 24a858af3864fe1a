ghost use Rattle.std.specs.Prelude.{◌≡◌, ◌<◌, [], ◌∷◌, ◌++◌, length, slice_get, Some, OnOk, OnErr};

use mix_system::Lit;
use std::alloc::Global;
use std::marker::Model;
use wx_base::NoMemory;

/// Where a clause's literals stand in the flat list.
#[derive(Clone, Copy, Debug)]
pub struct Span {
    pub from: usize,
    pub to: usize,
}

/// Clauses by their numbers, in flat memory. Contracts see the list of the clauses.
#[derive(Debug, Drop)]
pub struct ClauseStore {
    lits: Vec<Lit>,
    spans: Vec<Span>,
}

impl Model for ClauseStore {
    ghost use Rattle.std.specs.Prelude.{List};
    ghost use Rattle.mix_system.specs.declared.literal.Lit.{Lit};

    ghost Value = { List (List Lit) };

    ghost use Rattle.clause_search.specs.Flat.{clauses, AreSpans};

    ghost view = { clauses };

    ghost invariant = { AreSpans };
}

impl ClauseStore {
    /// No clause. It takes no memory.
    pub fn new(alloc: Global) -> ClauseStore
        ensures { result ≡ [] }
    {
        ClauseStore {
            lits: Vec::new(alloc),
            spans: Vec::new(alloc),
        }
    }

    /// How many clauses there are.
    pub fn len(&self) -> usize
        ensures { result ≡ length self.now }
    {
        self.spans.len()
    }

    /// The literals of a clause.
    pub fn get(&self, at: u32) -> &[Lit]
        requires { at < length self.now }
        ensures { slice_get self.now at ≡ Some result.now }
    {
        let span = self.spans[at as usize];
        &self.lits[span.from..span.to]
    }

    /// Adds a clause. Where memory is wanting the clauses stand as before.
    pub fn add(&mut self, lits: &[Lit]) -> Result<(), NoMemory>
        ensures ok { OnOk result (self.new ≡ self.old ++ lits.now ∷ []) }
        ensures err { OnErr result (self.new ≡ self.old) }
    {
        let from = self.lits.len();
        self.lits.extend_from_slice(lits)?;
        let to = self.lits.len();
        self.spans.push(Span { from, to })?;
        Ok(())
    }
}
