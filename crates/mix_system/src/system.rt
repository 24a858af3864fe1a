ghost use Rattle.std.specs.Prelude.{◌≡◌, ◌+◌, ◌^◌, ◌<◌, ◌≤ℤ◌, [], ◌∷◌, ◌++◌, length, slice_get, Some, IfOk, OnOk, OnErr};
ghost use Rattle.mix_system.specs.System.{IsInner, IsRange, IsRow, IsClause, IsWellFormed};

use crate::{Lit, Part};
use smallvec::SmallVec;
use std::alloc::Global;
use std::marker::Model;
use wx_base::NoMemory;

/// Variables with their ranges, rows over them, and clauses over both. Each is named by its number, from 0 on.
///
/// Contracts see a system as those three lists.
#[derive(Debug, Drop)]
pub struct System {
    ranges: Vec<(i128, i128)>,
    // Most rows have at most four parts, and most clauses at most three literals: these take no allocation of their own.
    rows: Vec<SmallVec<Part, 4>>,
    clauses: Vec<SmallVec<Lit, 3>>,
}

impl Model for System {
    ghost use Rattle.mix_system.specs.System.{System as Lists};

    ghost Value = { Lists };

    ghost use Rattle.mix_system.specs.Stored.{lists, IsSound};

    ghost view = { lists };

    ghost invariant = { IsSound };
}

impl System {
    /// A system with no variable, row or clause. It takes no memory.
    pub fn new(alloc: Global) -> System
        ensures ranges { result.ranges ≡ [] }
        ensures rows { result.rows ≡ [] }
        ensures clauses { result.clauses ≡ [] }
    {
        System {
            ranges: Vec::new(alloc),
            rows: Vec::new(alloc),
            clauses: Vec::new(alloc),
        }
    }

    /// Adds a variable that ranges from `low` to `high`, and gives its number.
    /// `low` is at most `high`, and neither is the least or the greatest `i128`.
    ///
    /// Where memory is wanting the system stands as before.
    pub fn add_var(&mut self, low: i128, high: i128) -> Result<u32, NoMemory>
        requires range { IsRange (low, high) }
        requires room { length self.old.ranges + 1 < 2 ^ 31 }
        ensures number { IfOk result (λ var. var ≡ length self.old.ranges) }
        ensures ok { OnOk result
            (self.new ≡ record self.old { ranges = self.old.ranges ++ (low, high) ∷ [] }) }
        ensures err { OnErr result (self.new ≡ self.old) }
    {
        let number = self.ranges.len() as u32;
        self.ranges.push((low, high))?;
        Ok(number)
    }

    /// Adds a row, the sum of these parts, and gives its number. The row with no part is the sum 0.
    /// The variables exist and rise strictly, and no coefficient is 0.
    ///
    /// Where memory is wanting the system stands as before.
    pub fn add_row(&mut self, parts: &[Part]) -> Result<u32, NoMemory>
        requires row { IsRow (length self.old.ranges) parts.now }
        requires room { length self.old.rows + 1 < 2 ^ 31 }
        ensures number { IfOk result (λ row. row ≡ length self.old.rows) }
        ensures ok { OnOk result
            (self.new ≡ record self.old { rows = self.old.rows ++ parts.now ∷ [] }) }
        ensures err { OnErr result (self.new ≡ self.old) }
    {
        let number = self.rows.len() as u32;
        let row = SmallVec::from_slice(*self.rows.allocator(), parts)?;
        self.rows.push(row)?;
        Ok(number)
    }

    /// Adds a clause, which asks that one of these literals is true, and gives its number. The clause with no literal is never true.
    /// The terms exist, no literal stands twice, and no bound is the least or the greatest `i128`.
    ///
    /// Where memory is wanting the system stands as before.
    pub fn add_clause(&mut self, lits: &[Lit]) -> Result<u32, NoMemory>
        requires clause { IsClause (length self.old.ranges) (length self.old.rows) lits.now }
        requires room { length self.old.clauses + 1 < 2 ^ 31 }
        ensures number { IfOk result (λ clause. clause ≡ length self.old.clauses) }
        ensures ok { OnOk result
            (self.new ≡ record self.old { clauses = self.old.clauses ++ lits.now ∷ [] }) }
        ensures err { OnErr result (self.new ≡ self.old) }
    {
        let number = self.clauses.len() as u32;
        let clause = SmallVec::from_slice(*self.clauses.allocator(), lits)?;
        self.clauses.push(clause)?;
        Ok(number)
    }

    /// How many variables there are.
    pub fn vars(&self) -> u32
        ensures count { result ≡ length self.now.ranges }
        ensures well_formed { IsWellFormed self.now }
    {
        self.ranges.len() as u32
    }

    /// How many rows there are.
    pub fn rows(&self) -> u32
        ensures count { result ≡ length self.now.rows }
        ensures well_formed { IsWellFormed self.now }
    {
        self.rows.len() as u32
    }

    /// How many clauses there are.
    pub fn clauses(&self) -> u32
        ensures count { result ≡ length self.now.clauses }
        ensures well_formed { IsWellFormed self.now }
    {
        self.clauses.len() as u32
    }

    /// The least and the greatest number of a variable.
    pub fn range(&self, var: u32) -> (i128, i128)
        requires { var < length self.now.ranges }
        ensures range { slice_get self.now.ranges var ≡ Some result }
        ensures well_formed { IsRange result }
    {
        self.ranges[var as usize]
    }

    /// The parts of a row.
    pub fn row(&self, row: u32) -> &[Part]
        requires { row < length self.now.rows }
        ensures parts { slice_get self.now.rows row ≡ Some result.now }
        ensures well_formed { IsRow (length self.now.ranges) result.now }
    {
        self.rows[row as usize].as_slice()
    }

    /// The literals of a clause.
    pub fn clause(&self, at: u32) -> &[Lit]
        requires { at < length self.now.clauses }
        ensures lits { slice_get self.now.clauses at ≡ Some result.now }
        ensures well_formed { IsClause (length self.now.ranges) (length self.now.rows) result.now }
    {
        self.clauses[at as usize].as_slice()
    }
}
