use mix_system::{Hints, Lits};

/// What was learnt from a conflict.
#[derive(Debug, Drop)]
pub enum Learnt {
    /// A clause that follows by its hints, and the level to go back to, on which all its literals
    /// but one are false.
    Clause {
        lits: Lits,
        hints: Hints,
        level: u32,
    },
    /// The empty clause follows by the hints.
    Top {
        hints: Hints,
    },
    /// The tally is at its budget.
    Spent,
}
