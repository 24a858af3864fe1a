ghost use Rattle.std.specs.Prelude.{◌≡◌, ◌<◌, length, All};
ghost use Rattle.mix_system.specs.System.{Exists};
ghost use Rattle.mix_system.specs.FarkasSum.{parts_of};
ghost use Rattle.leaf_check.specs.Sums.{Names, NamesAny, Settles};

use crate::Sums;
use mix_system::{FarkasPart, Part, System, Term};

impl Sums {
    // Whether all sums of a combination's variables were 0. They are now.
    pub(crate) fn settle(&mut self, system: &System, parts: &[FarkasPart]) -> bool
        requires variables { length self.old.numbers.items ≡ length system.now.ranges }
        requires terms { All (λ part. Exists (length system.now.ranges) (length system.now.rows)
            part.lit.term) parts.now }
        ensures { Settles (NamesAny system.now.rows parts.now) (λ _. ⊥) self.old.numbers.items
            self.new.numbers.items result }
    {
        let mut were_zero = true;
        for part in parts {
            if !self.settle_term(system, part.lit.term) {
                were_zero = false;
            }
        }
        were_zero
    }

    fn settle_term(&mut self, system: &System, term: Term) -> bool
        requires variables { length self.old.numbers.items ≡ length system.now.ranges }
        requires exists { Exists (length system.now.ranges) (length system.now.rows) term }
        ensures { Settles (Names (parts_of system.now.rows term)) (λ _. ⊥) self.old.numbers.items
            self.new.numbers.items result }
    {
        match term {
            Term::Var(var) => self.settle_parts(&[Part { coeff: 1, var }]),
            Term::Row(row) => self.settle_parts(system.row(row)),
        }
    }

    fn settle_parts(&mut self, parts: &[Part]) -> bool
        requires { All (λ part. part.var < length self.old.numbers.items) parts.now }
        ensures { Settles (Names parts.now) (λ _. ⊥) self.old.numbers.items self.new.numbers.items
            result }
    {
        let mut were_zero = true;
        for part in parts {
            if !self.settle_var(part.var) {
                were_zero = false;
            }
        }
        were_zero
    }

    fn settle_var(&mut self, var: u32) -> bool
        requires { var < length self.old.numbers.items }
        ensures { Settles (λ v. v ≡ var) (λ _. ⊥) self.old.numbers.items self.new.numbers.items
            result }
    {
        if self.numbers[var as usize] == 0 {
            return true;
        }
        self.numbers[var as usize] = 0;
        false
    }
}
