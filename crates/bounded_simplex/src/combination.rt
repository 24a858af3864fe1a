ghost use Rattle.std.specs.Prelude.{◌≡◌, ◌⊎◌, ◌<◌, ℕ, ◌+ℤ◌, ◌*ℤ◌, pos, [], ◌∷◌, ◌++◌, length, All, IfOk, IfErr, OnOk, OnErr};
ghost use Rattle.wx_num.specs.Excess.{Overflows};
ghost use Rattle.mix_system.specs.Row.{number_at};
ghost use Rattle.mix_system.specs.Sum.{int_sum_by};
ghost use Rattle.mix_system.specs.System.{Exists, IsRow};
ghost use Rattle.mix_system.specs.FarkasSum.{by_side, coeff_on, sum_op, weight, bound_weight, parts_of, term_steps, leaf_steps};
ghost use Rattle.bounded_simplex.specs.Combination.{Fits, IsAmong, AreWorked};

use crate::Bounds;
use mix_system::{FarkasPart, FarkasParts, Part, Side, Term};
use std::alloc::Global;
use wx_base::NoMemory;
use wx_num::{Excess, Num, NumOp};

/// Parts that are put together: what they add up to on each variable, and the sum of their bounds.
#[derive(Debug, Drop)]
pub(crate) struct Combination {
    pub(crate) parts: FarkasParts,
    pub(crate) sums: Vec<i128>,
    pub(crate) constant: i128,
}

impl Combination {
    /// No part, over so many variables.
    pub(crate) fn new(alloc: Global, vars: u32) -> Result<Combination, NoMemory>
        ensures none { IfOk result (λ made. made.parts ≡ []) }
        ensures count { IfOk result (λ made. length made.sums.items ≡ vars) }
        ensures zeros { IfOk result (λ made. (var : ℕ) → number_at made.sums.items var ≡ pos 0) }
        ensures zero { IfOk result (λ made. made.constant ≡ pos 0) }
    {
        let mut sums = Vec::with_capacity(alloc, vars as usize)?;
        for _var in 0..vars {
            sums.push(0)?;
        }
        Ok(Combination {
            parts: FarkasParts::new(alloc),
            sums,
            constant: 0,
        })
    }

    /// Puts a part to the others, or names the number that leaves 128 bits.
    pub(crate) fn add(
        &mut self,
        bounds: &Bounds<'_>,
        part: FarkasPart,
    ) -> Result<Result<(), Excess>, NoMemory>
        requires exists { Exists (length bounds.now.system.ranges)
            (length bounds.now.system.rows) part.lit.term }
        requires count { length self.old.sums.items ≡ length bounds.now.system.ranges }
        requires worked { AreWorked bounds.now.system.rows self.old.parts
            self.old.sums.items self.old.constant }
        ensures count { length self.new.sums.items ≡ length self.old.sums.items }
        ensures parts { IfOk result (λ found. OnOk found (self.new.parts ≡ self.old.parts
            ++ part ∷ [])) }
        ensures worked { IfOk result (λ found. OnOk found
            (AreWorked bounds.now.system.rows self.new.parts
            self.new.sums.items self.new.constant)) }
        ensures step { IfOk result (λ found. IfErr found
            (IsAmong (leaf_steps bounds.now.system.rows (self.old.parts ++ part ∷ [])))) }
        ensures overflows { IfOk result (λ found. IfErr found Overflows) }
    {
        match put_term(&mut self.sums, bounds, part) {
            Ok(()) => {}
            Err(excess) => return Ok(Err(excess)),
        }
        match put_bound(self.constant, part) {
            Ok(constant) => self.constant = constant,
            Err(excess) => return Ok(Err(excess)),
        }
        self.parts.push(part)?;
        Ok(Ok(()))
    }
}

// Puts a part's term to the sums, so many times.
fn put_term(sums: &mut Vec<i128>, bounds: &Bounds<'_>, part: FarkasPart) -> Result<(), Excess>
    requires exists { Exists (length bounds.now.system.ranges)
        (length bounds.now.system.rows) part.lit.term }
    requires count { length sums.old.items ≡ length bounds.now.system.ranges }
    ensures count { length sums.new.items ≡ length sums.old.items }
    ensures summed { OnOk result ((var : ℕ) → number_at sums.new.items var
        ≡ number_at sums.old.items var +ℤ weight bounds.now.system.rows var part) }
    ensures fit { OnOk result (All Fits (term_steps part.lit.side part.by (number_at sums.old.items)
        (parts_of bounds.now.system.rows part.lit.term))) }
    ensures step { IfErr result (IsAmong (term_steps part.lit.side part.by
        (number_at sums.old.items)
        (parts_of bounds.now.system.rows part.lit.term))) }
    ensures overflows { IfErr result Overflows }
{
    match part.lit.term {
        Term::Var(var) => put_product(sums, part.lit.side, part.by, Part { coeff: 1, var }),
        Term::Row(row) => { put_products(sums, part.lit.side, part.by, bounds.system().row(row)) }
    }
}

// Puts the parts of a row to the sums, so many times.
fn put_products(sums: &mut Vec<i128>, side: Side, by: i128, parts: &[Part]) -> Result<(), Excess>
    requires known { All (λ part. part.var < length sums.old.items) parts.now }
    ensures count { length sums.new.items ≡ length sums.old.items }
    ensures summed { OnOk result ((var : ℕ) → number_at sums.new.items var
        ≡ number_at sums.old.items var +ℤ by_side side
        (by *ℤ int_sum_by (coeff_on var) parts.now)) }
    ensures fit { OnOk result (All Fits (term_steps side by (number_at sums.old.items) parts.now)) }
    ensures step { IfErr result (IsAmong (term_steps side by
        (number_at sums.old.items) parts.now)) }
    ensures overflows { IfErr result Overflows }
{
    for part in parts {
        match put_product(sums, side, by, *part) {
            Ok(()) => {}
            Err(excess) => return Err(excess),
        }
    }
    Ok(())
}

// Puts the product of a part to its variable's sum.
fn put_product(sums: &mut Vec<i128>, side: Side, by: i128, part: Part) -> Result<(), Excess>
    requires { part.var < length sums.old.items }
    ensures count { length sums.new.items ≡ length sums.old.items }
    ensures summed { OnOk result ((var : ℕ) → number_at sums.new.items var
        ≡ number_at sums.old.items var +ℤ by_side side (by *ℤ coeff_on var part)) }
    ensures fit { OnOk result (Fits (record { op = NumOp.Times; x = by; y = part.coeff })
        × Fits (record {
          op = sum_op side;
          x = number_at sums.old.items part.var;
          y = by *ℤ part.coeff;
        })) }
    ensures step { IfErr result (λ excess. (excess
        ≡ record { op = NumOp.Times; x = by; y = part.coeff })
        ⊎ (excess ≡ record {
          op = sum_op side;
          x = number_at sums.old.items part.var;
          y = by *ℤ part.coeff;
        })) }
    ensures overflows { IfErr result Overflows }
{
    let var = part.var as usize;
    match put_to(side, sums[var], by, part.coeff) {
        Ok(sum) => {
            sums[var] = sum;
            Ok(())
        }
        Err(excess) => Err(excess),
    }
}

// The constant with a part's bound.
fn put_bound(constant: i128, part: FarkasPart) -> Result<i128, Excess>
    ensures value { IfOk result (λ sum. sum ≡ constant +ℤ bound_weight part) }
    ensures fit { OnOk result (Fits (record { op = NumOp.Times; x = part.by; y = part.lit.bound })
        × Fits (record {
          op = sum_op part.lit.side;
          x = constant;
          y = part.by *ℤ part.lit.bound;
        })) }
    ensures step { IfErr result (λ excess. (excess
        ≡ record { op = NumOp.Times; x = part.by; y = part.lit.bound })
        ⊎ (excess ≡ record {
          op = sum_op part.lit.side;
          x = constant;
          y = part.by *ℤ part.lit.bound;
        })) }
    ensures overflows { IfErr result Overflows }
{
    put_to(part.lit.side, constant, part.by, part.lit.bound)
}

// A sum with a product, which counts with plus or with minus.
fn put_to(side: Side, sum: i128, by: i128, number: i128) -> Result<i128, Excess>
    ensures value { IfOk result (λ z. z ≡ sum +ℤ by_side side (by *ℤ number)) }
    ensures fit { OnOk result (Fits (record { op = NumOp.Times; x = by; y = number })
        × Fits (record { op = sum_op side; x = sum; y = by *ℤ number })) }
    ensures step { IfErr result (λ excess. (excess
        ≡ record { op = NumOp.Times; x = by; y = number })
        ⊎ (excess ≡ record { op = sum_op side; x = sum; y = by *ℤ number })) }
    ensures overflows { IfErr result Overflows }
{
    match Num::mul(by, number) {
        Ok(product) => match side {
            Side::Le => Num::add(sum, product),
            Side::Ge => Num::sub(sum, product),
        },
        Err(excess) => Err(excess),
    }
}
