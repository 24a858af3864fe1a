ghost use Rattle.std.specs.Prelude.{◌≡◌, ◌+◌, ◌^◌, ◌<◌, ◌++◌, map, length, All, IfOk, OnOk};
ghost use Rattle.mix_system.specs.System.{IsInner, Exists};
ghost use Rattle.mix_system.specs.Lit.{negation};
ghost use Rattle.wrap_rows.specs.Normal.{clause_of};
ghost use Rattle.wrap_rows.specs.Layout.{times, at_most, at_least};
ghost use Rattle.wrap_rows.specs.Blocks.{from_operand, from_listed, closing, marks};

use crate::normal::add_lits;
use mix_system::{Lit, Part, Side, System, Term};
use smallvec::SmallVec;
use std::alloc::Global;
use wx_base::NoMemory;

type Lits = SmallVec<Lit, 8>;

/// A variable with its coefficient.
pub fn times(coeff: i128, var: u32) -> Part
    ensures { result ≡ times coeff var }
{
    Part { coeff, var }
}

/// `term <= bound`.
pub fn at_most(term: Term, bound: i128) -> Lit
    ensures { result ≡ at_most term bound }
{
    Lit {
        term,
        side: Side::Le,
        bound,
    }
}

/// `term >= bound`.
pub fn at_least(term: Term, bound: i128) -> Lit
    ensures { result ≡ at_least term bound }
{
    Lit {
        term,
        side: Side::Ge,
        bound,
    }
}

/// Adds the clauses by which a value's mark is 1 exactly where an operand's is, or a listed literal is true.
///
/// After want of memory some of the clauses may stand.
pub fn add_marks(
    alloc: Global,
    into: &mut System,
    mark: u32,
    operands: &[u32],
    listed: &[Lit],
) -> Result<(), NoMemory>
    requires mark { mark < length into.old.ranges }
    requires operands { All (λ operand. operand < length into.old.ranges) operands.now }
    requires known { All (λ lit. Exists (length into.old.ranges)
        (length into.old.rows) lit.term) listed.now }
    requires inner { All (λ lit. IsInner lit.bound) listed.now }
    requires opposite { All (λ lit. IsInner (negation lit).bound) listed.now }
    requires room { length into.old.clauses + length operands.now + length listed.now + 1 < 2 ^ 31 }
    ensures { OnOk result (into.new ≡ record into.old {
      clauses = into.old.clauses ++ map clause_of (marks mark operands.now listed.now);
    }) }
{
    add_operand_marks(alloc, into, mark, operands)?;
    add_listed_marks(alloc, into, mark, listed)?;
    let clause = closing(alloc, mark, operands, listed)?;
    add_lits(alloc, into, clause.as_slice())
}

// The mark is 1 where an operand's is.
fn add_operand_marks(
    alloc: Global,
    into: &mut System,
    mark: u32,
    operands: &[u32],
) -> Result<(), NoMemory>
    requires mark { mark < length into.old.ranges }
    requires operands { All (λ operand. operand < length into.old.ranges) operands.now }
    requires room { length into.old.clauses + length operands.now < 2 ^ 31 }
    ensures { OnOk result (into.new ≡ record into.old {
      clauses = into.old.clauses ++ map clause_of (map (from_operand mark) operands.now);
    }) }
{
    for operand in operands {
        let lits = [
            at_least(Term::Var(mark), 1),
            at_most(Term::Var(*operand), 0),
        ];
        add_lits(alloc, into, &lits)?;
    }
    Ok(())
}

// The mark is 1 where a listed literal is true.
fn add_listed_marks(
    alloc: Global,
    into: &mut System,
    mark: u32,
    listed: &[Lit],
) -> Result<(), NoMemory>
    requires mark { mark < length into.old.ranges }
    requires known { All (λ lit. Exists (length into.old.ranges)
        (length into.old.rows) lit.term) listed.now }
    requires inner { All (λ lit. IsInner lit.bound) listed.now }
    requires opposite { All (λ lit. IsInner (negation lit).bound) listed.now }
    requires room { length into.old.clauses + length listed.now < 2 ^ 31 }
    ensures { OnOk result (into.new ≡ record into.old {
      clauses = into.old.clauses ++ map clause_of (map (from_listed mark) listed.now);
    }) }
{
    for lit in listed {
        let lits = [at_least(Term::Var(mark), 1), lit.negation()];
        add_lits(alloc, into, &lits)?;
    }
    Ok(())
}

// The clause by which it is 1 nowhere else.
fn closing(alloc: Global, mark: u32, operands: &[u32], listed: &[Lit]) -> Result<Lits, NoMemory>
    ensures { IfOk result (λ lits. lits.items ≡ closing mark operands.now listed.now) }
{
    let mut lits = SmallVec::new(alloc);
    lits.push(at_most(Term::Var(mark), 0))?;
    for operand in operands {
        lits.push(at_least(Term::Var(*operand), 1))?;
    }
    lits.extend_from_slice(listed)?;
    Ok(lits)
}
