use mix_system::Numbers;
use proof_term::Tree;

/// What halving finds of the bounds in force.
#[derive(Debug, Drop)]
pub enum Split {
    /// A whole point inside all bounds.
    Point(Numbers),
    /// A tree that refutes the bounds.
    Refuted(Tree),
    /// The budget was spent when a check or a split was needed.
    Spent,
}
