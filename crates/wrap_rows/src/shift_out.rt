use crate::blocks::greatest;
use crate::{Piece, ValueVars, add_lits, at_least, at_most, value_at};
use ir_meaning::Val;
use ll_tree::Flags;
use mix_system::{System, Term};
use std::alloc::Global;
use wx_base::NoMemory;

/// To the left, to the right, or to the right of the signed reading.
#[derive(Clone, Copy, Debug, PartialEq, Eq)]
pub enum ShiftKind {
    Left,
    Right,
    SignedRight,
}

/// A shift by an amount that isn't below the width, which is always poison (LLVM Language Reference, `shl`, `lshr` and `ashr`).
#[derive(Clone, Copy, Debug)]
pub struct ShiftOut {
    pub kind: ShiftKind,
    pub flags: Flags,
    pub width: u32,
    pub amount: u32,
    pub a: ValueVars,
    /// The amount's mark.
    pub amount_mark: u32,
}

impl Piece for ShiftOut {
    ghost use Rattle.wrap_rows.specs.ShiftOut.{IsAt, ranges, layout, vars, CanTake, numbers, meaning};

    ghost is_at = { IsAt };

    ghost ranges = { ranges };

    ghost layout = { layout };

    ghost vars = { vars };

    ghost can_fill = { CanTake };

    ghost can_say = { CanTake };

    ghost numbers = { numbers };

    ghost meaning = { meaning };

    fn declare(&self, into: &mut System) -> Result<u32, NoMemory> {
        let first = into.add_var(0, greatest(self.width))?;
        into.add_var(0, 1)?;
        Ok(first)
    }

    fn lay(&self, alloc: Global, first: u32, into: &mut System) -> Result<(), NoMemory> {
        add_lits(alloc, into, &[at_most(Term::Var(first), 0)])?;
        add_lits(alloc, into, &[at_least(Term::Var(first + 1), 1)])
    }

    fn fill(&self, first: u32, point: &mut [i128]) {
        point[first as usize] = 0;
        point[first as usize + 1] = 1;
    }

    fn sound(&self, first: u32, point: &[i128]) -> Val {
        value_at(self.vars(first), point)
    }

    fn stays_calm(&self, _: u32) {}

    fn vars(&self, first: u32) -> ValueVars {
        ValueVars {
            number: first,
            mark: first + 1,
        }
    }
}
