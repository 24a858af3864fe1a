ghost use Rattle.std.specs.Prelude.{◌≡◌, ◌≢◌, ◌↔◌, ℕ, ◌<◌, ℤ, pos, length, Option, slice_index_or, IfOk, IfErr, OnOk, OnErr};
ghost use Rattle.tableau_rows.specs.declared.equation.Equation.{Equation as AnEquation};
ghost use Rattle.tableau_rows.specs.Substitution.{taken};
ghost use Rattle.wx_num.specs.Excess.{Overflows};
ghost use Rattle.bounded_simplex.specs.TableauOf.{AllHold, AreApart, TableauOf, IsOfRow};
ghost use Rattle.bounded_simplex.specs.Pivot.{ArePivoted, ArePut, IsFresh, IsStepAt, IsPivotExcess, set_chosen};

use crate::uses::Uses;
use mix_system::System;
use std::alloc::Global;
use tableau_rows::Equation;
use wx_base::NoMemory;
use wx_num::Excess;

/// A step of a pivot that would overflow, where the equation of the column `changed` is formed
/// anew.
#[derive(Clone, Copy, Debug, PartialEq, Eq)]
pub struct PivotExcess {
    pub changed: u32,
    pub excess: Excess,
}

/// Equations of which none takes the basic column of another.
#[derive(Debug, Drop)]
pub struct Tableau {
    pub rows: Vec<Equation>,
    pub(crate) uses: Uses,
    pub ghost apart: { AreApart rows.items },
}

impl Tableau {
    /// The tableau of a system whose basis is the rows: the equation of each row, in their order.
    pub fn new(alloc: Global, system: &System) -> Result<Tableau, NoMemory>
        ensures tableau_of { IfOk result (λ tableau. TableauOf system.now tableau.rows.items) }
        ensures rows { IfOk result (λ tableau. (k : ℕ) (d : AnEquation)
            → k < length tableau.rows.items
            → IsOfRow system.now k (slice_index_or tableau.rows.items k d)) }
    {
        let vars = system.vars();
        let mut rows = Vec::with_capacity(alloc, system.rows() as usize)?;
        for row in 0..system.rows() {
            rows.push(Equation::of_row(alloc, system.row(row), vars + row)?)?;
        }
        let uses = uses_of(alloc, &rows, vars as usize + system.rows() as usize)?;
        Ok(Tableau { rows, uses })
    }

    /// How often the equation at a place takes a column.
    pub fn coefficient(&self, at: usize, column: u32) -> i128
        requires { at < length self.now.rows.items }
        ensures { (d : AnEquation)
            → result ≡ taken (slice_index_or self.now.rows.items at d) column }
    {
        self.rows[at].coefficient(column)
    }

    /// The basic column of the equation at a place.
    pub fn basic(&self, at: usize) -> u32
        requires { at < length self.now.rows.items }
        ensures { (d : AnEquation) → result ≡ (slice_index_or self.now.rows.items at d).basic }
    {
        self.rows[at].basic
    }

    /// A pivot on the equation at a place: the column `entering` enters the basis in the place of
    /// its basic column. All other equations take the entering column no more, and the equations
    /// have the same solutions as before.
    ///
    /// Where a step would overflow, or memory is wanting, the tableau stands as before.
    pub fn pivot(
        &mut self,
        alloc: Global,
        at: usize,
        entering: u32,
    ) -> Result<Result<(), PivotExcess>, NoMemory>
        requires at { at < length self.old.rows.items }
        requires takes { (d : AnEquation)
            → taken (slice_index_or self.old.rows.items at d) entering ≢ pos 0 }
        requires enters { (d : AnEquation)
            → (slice_index_or self.old.rows.items at d).basic ≢ entering }
        ensures pivoted { IfOk result
            (λ found. OnOk found (ArePivoted at entering self.old.rows.items self.new.rows.items)) }
        ensures same_solutions { (number : ℕ → ℤ)
            → AllHold self.old.rows.items number ↔ AllHold self.new.rows.items number }
        ensures unchanged { IfOk result (λ found. OnErr found (self.new ≡ self.old)) }
        ensures no_memory { OnErr result (self.new ≡ self.old) }
        ensures excess { IfOk result (λ found. IfErr found
            (λ e. IsPivotExcess self.old.rows.items at entering e.changed e.excess)) }
    {
        match fresh_rows(alloc, &self.rows, at, entering)? {
            Ok(fresh) => {
                put_in(&mut self.rows, &mut self.uses, fresh);
                Ok(Ok(()))
            }
            Err(excess) => Ok(Err(excess)),
        }
    }
}

// How many of the equations take each of so many columns.
fn uses_of(alloc: Global, rows: &[Equation], columns: usize) -> Result<Uses, NoMemory> {
    let mut uses = Uses::new(alloc, columns)?;
    for row in rows {
        uses.add(&row.entries);
    }
    Ok(uses)
}

// The equations after a pivot, None where one stays as it is.
fn fresh_rows(
    alloc: Global,
    rows: &[Equation],
    at: usize,
    entering: u32,
) -> Result<Result<Vec<Option<Equation>>, PivotExcess>, NoMemory>
    requires apart { AreApart rows.now }
    requires at { at < length rows.now }
    requires takes { (d : AnEquation) → taken (slice_index_or rows.now at d) entering ≢ pos 0 }
    ensures as_many { IfOk result (λ found. IfOk found (λ fresh. length fresh.items
        ≡ length rows.now)) }
    ensures fresh { IfOk result (λ found. IfOk found (λ fresh. (k : ℕ) (o : Option AnEquation)
        → k < length rows.now → IsFresh rows.now at entering k (slice_index_or fresh.items k o))) }
    ensures excess { IfOk result (λ found. IfErr found
        (λ e. IsPivotExcess rows.now at entering e.changed e.excess)) }
{
    let mut fresh = Vec::with_capacity(alloc, rows.len())?;
    for place in 0..rows.len() {
        match fresh_row(alloc, rows, place, at, entering)? {
            Ok(slot) => fresh.push(slot)?,
            Err(excess) => {
                return Ok(Err(PivotExcess {
                    changed: rows[place].basic,
                    excess,
                }));
            }
        }
    }
    Ok(Ok(fresh))
}

// The equation at a place after a pivot, None where it doesn't take the column that enters.
fn fresh_row(
    alloc: Global,
    rows: &[Equation],
    place: usize,
    at: usize,
    entering: u32,
) -> Result<Result<Option<Equation>, Excess>, NoMemory>
    requires apart { AreApart rows.now }
    requires place { place < length rows.now }
    requires at { at < length rows.now }
    requires takes { (d : AnEquation) → taken (slice_index_or rows.now at d) entering ≢ pos 0 }
    ensures fresh { IfOk result (λ found. IfOk found (IsFresh rows.now at entering place)) }
    ensures step { IfOk result (λ found. IfErr found (IsStepAt rows.now at entering place)) }
    ensures overflows { IfOk result (λ found. IfErr found Overflows) }
{
    let pivot = &rows[at];
    if place == at {
        return match pivot.solved_for(alloc, entering)? {
            Ok(solved) => Ok(Ok(Some(solved))),
            Err(excess) => Ok(Err(excess)),
        };
    }
    let row = &rows[place];
    if row.coefficient(entering) == 0 {
        return Ok(Ok(None));
    }
    match row.substituted(alloc, pivot, entering)? {
        Ok(changed) => Ok(Ok(Some(changed))),
        Err(excess) => Ok(Err(excess)),
    }
}

// Puts each equation that was formed in its place.
fn put_in(rows: &mut Vec<Equation>, uses: &mut Uses, fresh: Vec<Option<Equation>>)
    requires { length fresh.items ≡ length rows.old.items }
    ensures { ArePut rows.old.items fresh.items rows.new.items }
{
    let mut fresh = fresh;
    while let Some(slot) = fresh.pop() {
        put(rows, uses, fresh.len(), slot);
    }
}

fn put(rows: &mut Vec<Equation>, uses: &mut Uses, place: usize, slot: Option<Equation>)
    requires { place < length rows.old.items }
    ensures { rows.new.items ≡ set_chosen rows.old.items place slot }
{
    let Some(row) = slot else {
        return;
    };
    uses.change(&rows[place].entries, &row.entries);
    rows[place] = row;
}
