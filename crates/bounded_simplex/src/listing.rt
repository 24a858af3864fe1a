ghost use Rattle.std.specs.Prelude.{◌≡◌, ◌<◌, ◌++◌, ◌∷◌, ℕ, Option, None, [], length, map, take, slice_index_or, IfOk, OnOk};
ghost use Rattle.mix_system.specs.Row.{number_at};
ghost use Rattle.bounded_simplex.specs.Listing.{basis_of, rest_of, IsListed, ArePlaced};
ghost use Rattle.bounded_simplex.specs.Refutation.{columns_of};
ghost use Rattle.bounded_simplex.specs.TableauOf.{AreWithin};

use crate::Bounds;
use mix_system::Term;
use std::alloc::Global;
use tableau_rows::Equation;
use wx_base::NoMemory;

/// What is listed of a tableau: the terms of its basis, the place of each column's equation, and
/// the values of the terms outside the basis in the order of terms.
#[derive(Debug, Drop)]
pub struct Listing {
    pub basis: Vec<Term>,
    pub rest: Vec<i128>,
    pub places: Vec<Option<u32>>,
}

impl Listing {
    /// Lists of nothing.
    pub(crate) fn new(alloc: Global) -> Listing {
        Listing {
            basis: Vec::new(alloc),
            rest: Vec::new(alloc),
            places: Vec::new(alloc),
        }
    }

    /// Lists a tableau with the values of its columns. It takes memory the first time alone.
    pub(crate) fn list(
        &mut self,
        bounds: &Bounds<'_>,
        rows: &[Equation],
        values: &[i128],
    ) -> Result<(), NoMemory>
        requires known { AreWithin (columns_of bounds.now.system) rows.now }
        requires few { length rows.now ≡ length bounds.now.system.rows }
        requires values { length values.now ≡ columns_of bounds.now.system }
        ensures listed { OnOk result (IsListed bounds.now.system rows.now values.now
            self.new.basis.items self.new.rest.items) }
        ensures one_each { OnOk result (length self.new.places.items
            ≡ columns_of bounds.now.system) }
        ensures placed { OnOk result (ArePlaced rows.now self.new.places.items) }
    {
        clear_places(&mut self.places, values.len())?;
        self.basis.clear();
        list_basis(&mut self.basis, &mut self.places, bounds, rows)?;
        self.rest.clear();
        list_rest(&mut self.rest, &self.places, rows, values)
    }
}

// Places for so many columns, none of them basic.
fn clear_places(places: &mut Vec<Option<u32>>, columns: usize) -> Result<(), NoMemory>
    ensures count { OnOk result (length places.new.items ≡ columns) }
    ensures none { OnOk result ((column : ℕ) (o : Option ℕ) → column < columns
        → slice_index_or places.new.items column o ≡ None) }
{
    places.clear();
    for _column in 0..columns {
        places.push(None)?;
    }
    Ok(())
}

// The term and the place of each equation's basic column.
fn list_basis(
    basis: &mut Vec<Term>,
    places: &mut Vec<Option<u32>>,
    bounds: &Bounds<'_>,
    rows: &[Equation],
) -> Result<(), NoMemory>
    requires known { AreWithin (columns_of bounds.now.system) rows.now }
    requires few { length rows.now ≡ length bounds.now.system.rows }
    requires count { length places.old.items ≡ columns_of bounds.now.system }
    requires none { (column : ℕ) (o : Option ℕ) → column < columns_of bounds.now.system
        → slice_index_or places.old.items column o ≡ None }
    requires empty { basis.old.items ≡ [] }
    ensures basis { OnOk result (basis.new.items
        ≡ basis_of (length bounds.now.system.ranges) rows.now) }
    ensures count { OnOk result (length places.new.items ≡ columns_of bounds.now.system) }
    ensures placed { OnOk result (ArePlaced rows.now places.new.items) }
{
    for at in 0..rows.len() {
        let column = rows[at].basic;
        basis.push(bounds.term_at(column))?;
        places[column as usize] = Some(at as u32);
    }
    Ok(())
}

// The values of the columns that have no place.
fn list_rest(
    rest: &mut Vec<i128>,
    places: &[Option<u32>],
    rows: &[Equation],
    values: &[i128],
) -> Result<(), NoMemory>
    requires placed { ArePlaced rows.now places.now }
    requires count { length places.now ≡ length values.now }
    requires empty { rest.old.items ≡ [] }
    ensures { OnOk result (rest.new.items ≡ rest_of rows.now values.now) }
{
    for column in 0..values.len() {
        if places[column].is_some() {
            continue;
        }
        rest.push(values[column])?;
    }
    Ok(())
}
