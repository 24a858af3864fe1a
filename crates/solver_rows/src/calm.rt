ghost use Rattle.std.specs.Prelude.{◌≡◌, ◌↔◌, ◌+◌, ◌<◌, ◌≤◌, ◌^◌, ℤ, pos, length, All, IsTrue, IfSome, Some, slice_index_or};
ghost use Rattle.std.specs.Int.Digits.{digits_of};
ghost use Rattle.mix_system.specs.Calm.{IsSmall, IsCalm, row_size as size_of_row, range_size as size_of_range};
ghost use Rattle.mix_system.specs.Lit.{negation};
ghost use Rattle.mix_system.specs.System.{Exists, IsInner, IsWellFormed};
ghost use Rattle.mix_system.specs.Tally.{halving_depth};
ghost use Rattle.mix_system.specs.declared.literal.Side.{Side as SpecSide};
ghost use Rattle.bounded_simplex.specs.Combination.{IsCalmBox, AreSmall};
ghost use Rattle.bounded_simplex.specs.InForce.{in_force};

use bounded_simplex::{Bounds, Simplex};
use mix_system::{Lit, Part, System, Term};

const SMALL: u128 = 1 << 100;

/// Whether whole points may be looked for: the system is calm, each bound in force is below 2^100
/// in size, and there is room for as many changes as the ranges can be halved.
pub fn may_be_solved(simplex: &Simplex<'_>) -> bool
    ensures calm { IsTrue result → IsCalmBox simplex.now.bounds }
    ensures room { IsTrue result → length simplex.now.bounds.changes
        + halving_depth simplex.now.bounds.system ≤ simplex.now.bounds.room }
{
    if !is_calm(simplex.system()) || !are_bounds_small(&simplex.bounds) {
        return false;
    }
    depth(simplex.system()) <= u64::from(simplex.spare())
}

fn is_calm(system: &System) -> bool
    ensures { IsTrue result → IsCalm system.now }
{
    are_ends_small(system) && are_rows_small(system) && are_clauses_small(system)
}

fn are_ends_small(system: &System) -> bool
    ensures { IsTrue result
        → All (λ range. IsSmall range.0 × IsSmall range.1) system.now.ranges }
{
    for var in 0..system.vars() {
        let (low, high) = system.range(var);
        if !is_small(low) || !is_small(high) {
            return false;
        }
    }
    true
}

fn are_rows_small(system: &System) -> bool
    ensures coefficients { IsTrue result → All (All (λ part. IsSmall part.coeff)) system.now.rows }
    ensures sums { IsTrue result
        → All (λ parts. size_of_row system.now.ranges parts < 2 ^ 100) system.now.rows }
{
    for row in 0..system.rows() {
        let parts = system.row(row);
        if !are_parts_small(parts) || !is_row_small(system, parts) {
            return false;
        }
    }
    true
}

fn are_parts_small(parts: &[Part]) -> bool
    ensures { IsTrue result → All (λ part. IsSmall part.coeff) parts.now }
{
    parts.iter().all(|part| is_small(part.coeff))
}

fn is_row_small(system: &System, parts: &[Part]) -> bool
    requires { All (λ part. part.var < length system.now.ranges) parts.now }
    ensures { IsTrue result → size_of_row system.now.ranges parts.now < 2 ^ 100 }
{
    match row_size(system, parts) {
        Some(size) => size < SMALL,
        None => false,
    }
}

// The sum of the sizes of a row's parts, `None` where it leaves 128 bits.
fn row_size(system: &System, parts: &[Part]) -> Option<u128>
    requires { All (λ part. part.var < length system.now.ranges) parts.now }
    ensures { IfSome result (λ size. size ≡ size_of_row system.now.ranges parts.now) }
{
    let mut size: u128 = 0;
    for part in parts {
        let product = part
            .coeff
            .unsigned_abs()
            .checked_mul(range_size(system, part.var))?;
        size = size.checked_add(product)?;
    }
    Some(size)
}

fn range_size(system: &System, var: u32) -> u128
    requires { var < length system.now.ranges }
    ensures { result ≡ size_of_range (slice_index_or system.now.ranges var (pos 0, pos 0)) }
{
    let (low, high) = system.range(var);
    low.unsigned_abs().max(high.unsigned_abs())
}

fn are_clauses_small(system: &System) -> bool
    ensures { IsTrue result → All
        (All (λ lit. IsSmall lit.bound × IsSmall (negation lit).bound)) system.now.clauses }
{
    for clause in 0..system.clauses() {
        if !are_lits_small(system.clause(clause)) {
            return false;
        }
    }
    true
}

fn are_lits_small(lits: &[Lit]) -> bool
    requires { All (λ lit. IsInner lit.bound) lits.now }
    ensures { IsTrue result
        → All (λ lit. IsSmall lit.bound × IsSmall (negation lit).bound) lits.now }
{
    for lit in lits {
        if !is_small(lit.bound) || !is_small(lit.negation().bound) {
            return false;
        }
    }
    true
}

fn are_bounds_small(bounds: &Bounds<'_>) -> bool
    ensures { IsTrue result → AreSmall bounds.now }
{
    for var in 0..bounds.system().vars() {
        if !is_term_small(bounds, Term::Var(var)) {
            return false;
        }
    }
    for row in 0..bounds.system().rows() {
        if !is_term_small(bounds, Term::Row(row)) {
            return false;
        }
    }
    true
}

// Whether both bounds in force on a term are small.
fn is_term_small(bounds: &Bounds<'_>, term: Term) -> bool
    requires { Exists (length bounds.now.system.ranges) (length bounds.now.system.rows) term }
    ensures { IsTrue result → (side : SpecSide) (bound : ℤ)
        → in_force bounds.now term side ≡ Some bound → IsSmall bound }
{
    is_end_small(bounds.low(term)) && is_end_small(bounds.high(term))
}

fn is_end_small(end: Option<i128>) -> bool
    ensures { IsTrue result → (bound : ℤ) → end ≡ Some bound → IsSmall bound }
{
    match end {
        Some(bound) => is_small(bound),
        None => true,
    }
}

fn is_small(number: i128) -> bool
    ensures { IsTrue result ↔ IsSmall number }
{
    number.unsigned_abs() < SMALL
}

// How often all ranges can be halved, at most.
fn depth(system: &System) -> u64
    ensures counted { halving_depth system.now ≤ result }
    ensures well_formed { IsWellFormed system.now }
{
    let mut depth: u64 = 0;
    for var in 0..system.vars() {
        let (low, high) = system.range(var);
        depth += u64::from(digits(high.abs_diff(low)));
    }
    depth
}

// How many binary digits a number has, at most.
fn digits(number: u128) -> u32
    ensures count { length (digits_of 2 number) ≤ result }
    ensures few { result ≤ 128 }
{
    if number == 0 {
        return 0;
    }
    number.ilog2() + 1
}
