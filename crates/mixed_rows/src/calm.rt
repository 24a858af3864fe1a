//! Whether a system is calm: all its numbers, and the sums of its rows over the ranges, are below
//! 2^100 in size.

ghost use Rattle.std.specs.Prelude.{◌≡◌, ◌↔◌, ◌<◌, ◌^◌, pos, length, All, IsTrue, IfSome, slice_index_or};
ghost use Rattle.mix_system.specs.Calm.{IsSmall, IsCalm, row_size as size_of_row, range_size as size_of_range};
ghost use Rattle.mix_system.specs.Lit.{negation};
ghost use Rattle.mix_system.specs.System.{IsInner};

use mix_system::{Lit, Part, System};

const SMALL: u128 = 1 << 100;

/// Whether a system is calm.
pub fn is_calm(system: &System) -> bool
    ensures { IsTrue result → IsCalm system.now }
{
    are_ends_small(system) && are_rows_small(system) && are_clauses_small(system)
}

fn are_ends_small(system: &System) -> bool
    ensures { IsTrue result
        → All (λ range. IsSmall range.0 × IsSmall range.1) system.now.ranges }
{
    for var in 0..system.vars() {
        let (low, high) = system.range(var);
        if !is_small(low) || !is_small(high) {
            return false;
        }
    }
    true
}

fn are_rows_small(system: &System) -> bool
    ensures coefficients { IsTrue result → All (All (λ part. IsSmall part.coeff)) system.now.rows }
    ensures sums { IsTrue result
        → All (λ parts. size_of_row system.now.ranges parts < 2 ^ 100) system.now.rows }
{
    for row in 0..system.rows() {
        let parts = system.row(row);
        if !are_parts_small(parts) || !is_row_small(system, parts) {
            return false;
        }
    }
    true
}

fn are_parts_small(parts: &[Part]) -> bool
    ensures { IsTrue result → All (λ part. IsSmall part.coeff) parts.now }
{
    parts.iter().all(|part| is_small(part.coeff))
}

fn is_row_small(system: &System, parts: &[Part]) -> bool
    requires { All (λ part. part.var < length system.now.ranges) parts.now }
    ensures { IsTrue result → size_of_row system.now.ranges parts.now < 2 ^ 100 }
{
    match row_size(system, parts) {
        Some(size) => size < SMALL,
        None => false,
    }
}

// The sum of the sizes of a row's parts, `None` where it leaves 128 bits.
fn row_size(system: &System, parts: &[Part]) -> Option<u128>
    requires { All (λ part. part.var < length system.now.ranges) parts.now }
    ensures { IfSome result (λ size. size ≡ size_of_row system.now.ranges parts.now) }
{
    let mut size: u128 = 0;
    for part in parts {
        let product = part
            .coeff
            .unsigned_abs()
            .checked_mul(range_size(system, part.var))?;
        size = size.checked_add(product)?;
    }
    Some(size)
}

fn range_size(system: &System, var: u32) -> u128
    requires { var < length system.now.ranges }
    ensures { result ≡ size_of_range (slice_index_or system.now.ranges var (pos 0, pos 0)) }
{
    let (low, high) = system.range(var);
    low.unsigned_abs().max(high.unsigned_abs())
}

fn are_clauses_small(system: &System) -> bool
    ensures { IsTrue result → All
        (All (λ lit. IsSmall lit.bound × IsSmall (negation lit).bound)) system.now.clauses }
{
    for clause in 0..system.clauses() {
        if !are_lits_small(system.clause(clause)) {
            return false;
        }
    }
    true
}

fn are_lits_small(lits: &[Lit]) -> bool
    requires { All (λ lit. IsInner lit.bound) lits.now }
    ensures { IsTrue result
        → All (λ lit. IsSmall lit.bound × IsSmall (negation lit).bound) lits.now }
{
    for lit in lits {
        if !is_small(lit.bound) || !is_small(lit.negation().bound) {
            return false;
        }
    }
    true
}

/// Whether a number is below 2^100 in size.
pub fn is_small(number: i128) -> bool
    ensures { IsTrue result ↔ IsSmall number }
{
    number.unsigned_abs() < SMALL
}
