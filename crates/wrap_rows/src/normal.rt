ghost use Rattle.std.specs.Prelude.{◌≡◌, ◌+◌, ◌^◌, ◌<◌, ◌≤◌, ◌++◌, ◌∷◌, [], length, All, unsigned_abs, IsTrue, AllPairs, IfOk, OnOk, OnErr};
ghost use Rattle.std.specs.List.{list_any};
ghost use Rattle.mix_system.specs.System.{IsInner, Exists};
ghost use Rattle.wrap_rows.specs.Normal.{is_same_lit, unless_zero, merged, lesser_count, with_part, sizes, row_of, with_lit, clause_of};

use mix_system::{Lit, Part, Side, System, Term};
use smallvec::SmallVec;
use std::alloc::Global;
use wx_base::NoMemory;

type Parts = SmallVec<Part, 8>;

type Lits = SmallVec<Lit, 8>;

// Puts a part that isn't zero and then the rest.
fn push_unless_zero(sum: &mut Parts, part: Part, rest: &[Part]) -> Result<(), NoMemory>
    ensures { OnOk result (sum.new.items ≡ sum.old.items ++ unless_zero part rest.now) }
{
    if part.coeff != 0 {
        sum.push(part)?;
        sum.extend_from_slice(rest)?;
        Ok(())
    } else {
        sum.extend_from_slice(rest)?;
        Ok(())
    }
}

// Puts a part and the rest, whose variables are no lesser.
fn merge(sum: &mut Parts, part: Part, rest: &[Part]) -> Result<(), NoMemory>
    requires { unsigned_abs part.coeff + sizes rest.now < 2 ^ 126 }
    ensures { OnOk result (sum.new.items ≡ sum.old.items ++ merged part rest.now) }
{
    let [next, after @ ..] = rest else {
        return push_unless_zero(sum, part, rest);
    };
    if part.var == next.var {
        let total = Part {
            coeff: part.coeff + next.coeff,
            var: part.var,
        };
        push_unless_zero(sum, total, after)
    } else {
        push_unless_zero(sum, part, rest)
    }
}

// How many parts from the front on are of a lesser variable.
fn lesser_count(parts: &[Part], var: u32) -> usize
    ensures value { result ≡ lesser_count var parts.now }
    ensures within { result ≤ length parts.now }
{
    parts.iter().take_while(|part| part.var < var).count()
}

// The parts with one more.
fn with_part(alloc: Global, parts: &[Part], part: Part) -> Result<Parts, NoMemory>
    requires { unsigned_abs part.coeff + sizes parts.now < 2 ^ 126 }
    ensures { IfOk result (λ sum. sum.items ≡ with_part parts.now part) }
{
    let (before, rest) = parts.split_at(lesser_count(parts, part.var));
    let mut sum = SmallVec::from_slice(alloc, before)?;
    merge(&mut sum, part, rest)?;
    Ok(sum)
}

/// Adds the sum of some parts as a row in normal form, and gives its number.
/// The variables exist, and the coefficients are small.
///
/// Where memory is wanting the system stands as before.
pub fn add_sum(alloc: Global, into: &mut System, parts: &[Part]) -> Result<u32, NoMemory>
    requires known { All (λ part. part.var < length into.old.ranges) parts.now }
    requires small { sizes parts.now < 2 ^ 126 }
    requires room { length into.old.rows + 1 < 2 ^ 31 }
    ensures number { IfOk result (λ row. row ≡ length into.old.rows) }
    ensures ok { OnOk result (into.new ≡ record into.old {
      rows = into.old.rows
          ++ row_of parts.now ∷ [];
    }) }
    ensures err { OnErr result (into.new ≡ into.old) }
{
    let mut row = SmallVec::new(alloc);
    for part in parts {
        put_part(alloc, &mut row, *part)?;
    }
    into.add_row(row.as_slice())
}

// Puts one more part, in constant time where its variable is greater than all others.
fn put_part(alloc: Global, sum: &mut Parts, part: Part) -> Result<(), NoMemory>
    requires rising { AllPairs (λ part later. part.var < later.var) sum.old.items }
    requires small { unsigned_abs part.coeff + sizes sum.old.items < 2 ^ 126 }
    ensures { OnOk result (sum.new.items ≡ with_part sum.old.items part) }
{
    if is_behind(sum.as_slice(), part.var) {
        return push_unless_zero(sum, part, &[]);
    }
    *sum = with_part(alloc, sum.as_slice(), part)?;
    Ok(())
}

// Whether a variable is greater than those of all parts, whose variables rise.
fn is_behind(parts: &[Part], var: u32) -> bool
    requires rising { AllPairs (λ part later. part.var < later.var) parts.now }
    ensures { IsTrue result → All (λ part. part.var < var) parts.now }
{
    let count = parts.len();
    count == 0 || parts[count - 1].var < var
}

// Whether two literals are the same.
fn is_same(lit: &Lit, other: &Lit) -> bool
    ensures { result ≡ is_same_lit lit.now other.now }
{
    let same_term = match (lit.term, other.term) {
        (Term::Var(a), Term::Var(b)) | (Term::Row(a), Term::Row(b)) => a == b,
        _ => false,
    };
    let same_side = match (lit.side, other.side) {
        (Side::Le, Side::Le) | (Side::Ge, Side::Ge) => true,
        _ => false,
    };
    same_term && same_side && lit.bound == other.bound
}

// Whether a literal is among others.
fn is_among(lit: &Lit, lits: &[Lit]) -> bool
    ensures { result ≡ list_any (is_same_lit lit.now) lits.now }
{
    lits.iter().any(|other| is_same(lit, other))
}

// Puts a literal that isn't there yet.
fn push_new(lits: &mut Lits, lit: Lit) -> Result<(), NoMemory>
    ensures { OnOk result (lits.new.items ≡ with_lit lits.old.items lit) }
{
    if !is_among(&lit, lits.as_slice()) {
        lits.push(lit)?;
    }
    Ok(())
}

/// Adds a clause in normal form. The terms of its literals exist, and no bound is the least or the greatest `i128`.
///
/// Where memory is wanting the system stands as before.
pub fn add_lits(alloc: Global, into: &mut System, lits: &[Lit]) -> Result<(), NoMemory>
    requires known { All (λ lit. Exists (length into.old.ranges)
        (length into.old.rows) lit.term) lits.now }
    requires inner { All (λ lit. IsInner lit.bound) lits.now }
    requires room { length into.old.clauses + 1 < 2 ^ 31 }
    ensures ok { OnOk result (into.new ≡ record into.old {
      clauses = into.old.clauses
          ++ clause_of lits.now ∷ [];
    }) }
    ensures err { OnErr result (into.new ≡ into.old) }
{
    let mut clause = SmallVec::new(alloc);
    for lit in lits {
        push_new(&mut clause, *lit)?;
    }
    into.add_clause(clause.as_slice())?;
    Ok(())
}
