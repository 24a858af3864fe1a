ghost use Rattle.std.specs.Prelude.{◌≡◌, ◌<◌, pos, ◌+ℤ◌, ◌*ℤ◌, slice_set, length, IsOk, IfOk, IfErr, OnOk, OnErr, All};
ghost use Rattle.mix_system.specs.Sum.{int_sum_by};
ghost use Rattle.mix_system.specs.Row.{number_at};
ghost use Rattle.mix_system.specs.System.{Exists};
ghost use Rattle.mix_system.specs.FarkasSum.{parts_of, by_side, term_steps, leaf_steps_from, bound_weight};
ghost use Rattle.proof_term.specs.Steps.{StaysWithin};
ghost use Rattle.leaf_check.specs.Steps.{product_steps, IsFirstExcess};
ghost use Rattle.leaf_check.specs.Sums.{Names, NamesAny, IsClear, Changes, Adds, AddsAll};

use crate::product::put_product;
use mix_system::{FarkasPart, Part, Side, System, Term};
use std::alloc::Global;
use wx_base::NoMemory;
use wx_num::Excess;

/// A sum for each variable of a system. All are 0 between two combinations.
#[derive(Debug, Drop)]
pub struct Sums {
    pub(crate) numbers: Vec<i128>,
}

impl Sums {
    /// So many sums, all 0.
    pub fn new(alloc: Global, vars: u32) -> Result<Sums, NoMemory>
        ensures { IfOk result (IsClear vars) }
    {
        let numbers = vec![in alloc; 0; vars as usize]?;
        Ok(Sums { numbers })
    }

    // Adds all literals, so many times each, and gives the sum of their bounds, or the first step
    // that would overflow.
    pub(crate) fn add_all(&mut self, system: &System, parts: &[FarkasPart]) -> Result<i128, Excess>
        requires variables { length self.old.numbers.items ≡ length system.now.ranges }
        requires terms { All (λ part. Exists (length system.now.ranges) (length system.now.rows)
            part.lit.term) parts.now }
        ensures sums { IfOk result (λ _. AddsAll system.now.rows parts.now self.old.numbers.items
            self.new.numbers.items) }
        ensures constant { IfOk result (λ constant. constant ≡ int_sum_by bound_weight parts.now) }
        ensures stays { IfOk result (λ _. All StaysWithin
            (leaf_steps_from system.now.rows (number_at self.old.numbers.items)
            (pos 0) parts.now)) }
        ensures excess { IfErr result (IsFirstExcess
            (leaf_steps_from system.now.rows (number_at self.old.numbers.items)
            (pos 0) parts.now)) }
        ensures changes { Changes (NamesAny system.now.rows parts.now) self.old.numbers.items
            self.new.numbers.items }
    {
        let mut constant = 0;
        for part in parts {
            if let Err(excess) = self.add_term(system, *part) {
                return Err(excess);
            }
            match put_product(part.lit.side, constant, part.by, part.lit.bound) {
                Ok(sum) => constant = sum,
                Err(excess) => return Err(excess),
            }
        }
        Ok(constant)
    }

    fn add_term(&mut self, system: &System, part: FarkasPart) -> Result<(), Excess>
        requires variables { length self.old.numbers.items ≡ length system.now.ranges }
        requires exists { Exists (length system.now.ranges) (length system.now.rows) part.lit.term }
        ensures sums { IfOk result (λ _. Adds part.lit.side part.by
            (parts_of system.now.rows part.lit.term)
            self.old.numbers.items self.new.numbers.items) }
        ensures stays { IfOk result (λ _. All StaysWithin
            (term_steps part.lit.side part.by (number_at self.old.numbers.items)
            (parts_of system.now.rows part.lit.term))) }
        ensures excess { IfErr result (IsFirstExcess
            (term_steps part.lit.side part.by (number_at self.old.numbers.items)
            (parts_of system.now.rows part.lit.term))) }
        ensures changes { Changes (Names (parts_of system.now.rows part.lit.term))
            self.old.numbers.items self.new.numbers.items }
    {
        match part.lit.term {
            Term::Var(var) => self.add_parts(part.lit.side, part.by, &[Part { coeff: 1, var }]),
            Term::Row(row) => self.add_parts(part.lit.side, part.by, system.row(row)),
        }
    }

    fn add_parts(&mut self, side: Side, by: i128, parts: &[Part]) -> Result<(), Excess>
        requires { All (λ part. part.var < length self.old.numbers.items) parts.now }
        ensures sums { IfOk result (λ _. Adds side by parts.now self.old.numbers.items
            self.new.numbers.items) }
        ensures stays { IfOk result (λ _. All StaysWithin
            (term_steps side by (number_at self.old.numbers.items) parts.now)) }
        ensures excess { IfErr result (IsFirstExcess
            (term_steps side by (number_at self.old.numbers.items) parts.now)) }
        ensures changes { Changes (Names parts.now) self.old.numbers.items self.new.numbers.items }
    {
        for part in parts {
            if let Err(excess) = self.add_part(side, by, *part) {
                return Err(excess);
            }
        }
        Ok(())
    }

    fn add_part(&mut self, side: Side, by: i128, part: Part) -> Result<(), Excess>
        requires { part.var < length self.old.numbers.items }
        ensures ok { OnOk result (self.new.numbers.items ≡
            slice_set self.old.numbers.items part.var
            (number_at self.old.numbers.items part.var +ℤ by_side side (by *ℤ part.coeff))) }
        ensures stays { IfOk result (λ _. All StaysWithin
            (product_steps side (number_at self.old.numbers.items part.var) by part.coeff)) }
        ensures excess { IfErr result (IsFirstExcess
            (product_steps side (number_at self.old.numbers.items part.var) by part.coeff)) }
        ensures err { OnErr result (self.new.numbers.items ≡ self.old.numbers.items) }
    {
        let var = part.var as usize;
        match put_product(side, self.numbers[var], by, part.coeff) {
            Ok(sum) => {
                self.numbers[var] = sum;
                Ok(())
            }
            Err(excess) => Err(excess),
        }
    }
}
