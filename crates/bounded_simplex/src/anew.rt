ghost use Rattle.std.specs.Prelude.{◌≡◌, ◌<◌, ℕ, false, length, slice_index_or, IfOk, OnOk};
ghost use Rattle.tableau_rows.specs.declared.equation.Equation.{Equation as AnEquation};
ghost use Rattle.bounded_simplex.specs.Answer.{Mends};
ghost use Rattle.bounded_simplex.specs.Point.{NoneContradict, AreInBounds};
ghost use Rattle.bounded_simplex.specs.Reach.{HaveRoom, IsBeyondRow, IsUnknownRow, IsBrokenRow};
ghost use Rattle.bounded_simplex.specs.TableauOf.{IsOfRow};

use crate::fault::Fault;
use crate::mended::Mended;
use crate::reach::{Beyond, put_at_ends};
use crate::settle::settle;
use crate::{Place, Simplex, Tableau, refute};
use mix_system::Term;
use std::alloc::Global;
use wx_base::NoMemory;
use wx_num::Excess;

impl Simplex<'_> {
    // Moves the value of each column into its bounds in force.
    pub(crate) fn settle(&mut self)
        requires apart { NoneContradict self.old.bounds }
        requires room { HaveRoom self.old.bounds self.old.reaches.items }
        requires no_point { self.old.has_point ≡ false }
        ensures bounds { self.new.bounds ≡ self.old.bounds }
        ensures reaches { self.new.reaches.items ≡ self.old.reaches.items }
        ensures made { self.new.made ≡ self.old.made }
        ensures no_point { self.new.has_point ≡ false }
        ensures in_bounds { AreInBounds self.new.bounds self.new.values.items }
    {
        settle(&self.bounds, &mut self.values);
    }

    // Makes the basis the rows again.
    pub(crate) fn first_basis(&mut self, alloc: Global) -> Result<(), NoMemory>
        requires no_point { self.old.has_point ≡ false }
        ensures bounds { self.new.bounds ≡ self.old.bounds }
        ensures reaches { self.new.reaches.items ≡ self.old.reaches.items }
        ensures values { self.new.values.items ≡ self.old.values.items }
        ensures made { self.new.made ≡ self.old.made }
        ensures no_point { self.new.has_point ≡ false }
        ensures rows { OnOk result ((k : ℕ) (d : AnEquation)
            → k < length self.new.tableau.rows.items
            → IsOfRow self.new.bounds.system k (slice_index_or self.new.tableau.rows.items k d)) }
    {
        self.tableau = Tableau::new(alloc, self.bounds.system())?;
        Ok(())
    }

    // What a row comes to whose bounds can't be held against its sums, or lie beyond them.
    pub(crate) fn beyond(&mut self, alloc: Global, beyond: Beyond) -> Result<Mended, NoMemory>
        requires apart { NoneContradict self.old.bounds }
        requires no_point { self.old.has_point ≡ false }
        requires beyond { IsBeyondRow self.old.bounds beyond }
        ensures bounds { self.new.bounds ≡ self.old.bounds }
        ensures made { self.new.made ≡ self.old.made }
        ensures no_point { self.new.has_point ≡ false }
        ensures answer { IfOk result
            (Mends self.new.bounds self.new.tableau.rows.items self.new.values.items
            self.new.made) }
    {
        match beyond {
            Beyond::Unknown {
                row,
                upwards,
                excess,
            } => self.stand_at_ends(alloc, row, upwards, excess),
            Beyond::Broken { row, upwards } => self.refute_row(alloc, row, upwards),
        }
    }

    // The basis is the rows again, and the variables of a row stand where its sum leaves 128 bits.
    fn stand_at_ends(
        &mut self,
        alloc: Global,
        row: u32,
        upwards: bool,
        excess: Excess,
    ) -> Result<Mended, NoMemory>
        requires no_point { self.old.has_point ≡ false }
        requires unknown { IsUnknownRow self.old.bounds row upwards excess }
        ensures bounds { self.new.bounds ≡ self.old.bounds }
        ensures made { self.new.made ≡ self.old.made }
        ensures no_point { self.new.has_point ≡ false }
        ensures answer { IfOk result
            (Mends self.new.bounds self.new.tableau.rows.items self.new.values.items
            self.new.made) }
    {
        self.first_basis(alloc)?;
        put_at_ends(&mut self.values, self.bounds.system(), row, upwards);
        let basic = Term::Row(row);
        let place = Place::Value { basic };
        Ok(Mended::Excess(Fault { place, excess }))
    }

    // A row's bound beyond its sums is refuted by one bound of each of its variables.
    fn refute_row(&mut self, alloc: Global, row: u32, upwards: bool) -> Result<Mended, NoMemory>
        requires apart { NoneContradict self.old.bounds }
        requires no_point { self.old.has_point ≡ false }
        requires broken { IsBrokenRow self.old.bounds row upwards }
        ensures bounds { self.new.bounds ≡ self.old.bounds }
        ensures made { self.new.made ≡ self.old.made }
        ensures no_point { self.new.has_point ≡ false }
        ensures answer { IfOk result
            (Mends self.new.bounds self.new.tableau.rows.items self.new.values.items
            self.new.made) }
    {
        let first = Tableau::new(alloc, self.bounds.system())?;
        match refute(alloc, &self.bounds, &first.rows[row as usize], upwards)? {
            Ok(Some(farkas)) => Ok(Mended::Refuted(farkas)),
            // There is one, as the bound lies beyond the sums.
            Ok(None) => Ok(Mended::Paused),
            Err(excess) => {
                self.tableau = first;
                let basic = Term::Row(row);
                let place = Place::Combine { basic };
                Ok(Mended::Excess(Fault { place, excess }))
            }
        }
    }
}
