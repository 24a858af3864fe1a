use crate::Tree;
use mix_system::{Hints, Lits, Term};
use std::alloc::Global;
use wx_base::{Copied, NoMemory, Sequence};

/// At most so many levels stand open at once beside the first.
pub const MOST_NESTED: u32 = 8;

/// A step of a proof. A cut is an `Enter`, the steps of its inner level, and their `Leave`.
#[derive(Debug, Drop)]
pub enum Step {
    /// The clause follows by unit propagation along the hints, which are numbers of clauses.
    Lemma { clause: Lits, hints: Hints },
    /// The tree refutes the box in which every literal of the clause is false.
    Theory { clause: Lits, tree: Tree },
    /// Opens a level that proves `term <= bound`: its goal is `term >= bound + 1`.
    Enter { term: Term, bound: i128 },
    /// Closes the last level, which ended with the empty clause.
    Leave,
}

/// Steps in order.
pub type Steps = Sequence<Step>;

impl Copied for Step {
    fn copy(&self, alloc: Global) -> Result<Step, NoMemory> {
        match self {
            Step::Lemma { clause, hints } => {
                let clause = clause.copy(alloc)?;
                let hints = hints.copy(alloc)?;
                Ok(Step::Lemma { clause, hints })
            }
            Step::Theory { clause, tree } => {
                let clause = clause.copy(alloc)?;
                let tree = tree.copy(alloc)?;
                Ok(Step::Theory { clause, tree })
            }
            Step::Enter { term, bound } => Ok(Step::Enter {
                term: *term,
                bound: *bound,
            }),
            Step::Leave => Ok(Step::Leave),
        }
    }
}
