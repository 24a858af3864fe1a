ghost use Rattle.tableau_rows.specs.Equation.{IsSolved};

use crate::Entry;

/// Entries that add up to 0, solved for the column `basic`: `denominator` times that column is the sum of the other entries.
///
/// The columns rise strictly, no coefficient is 0, and no number above 1 divides each of them. The denominator is at least 1.
#[derive(Debug, Drop)]
pub struct Equation {
    pub basic: u32,
    pub denominator: i128,
    pub entries: Vec<Entry>,
    pub ghost sound: { IsSolved basic denominator entries.items },
}
