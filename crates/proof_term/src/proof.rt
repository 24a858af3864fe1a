use crate::Steps;
use mix_system::Term;
use std::alloc::Global;
use wx_base::{Copied, NoMemory};

/// What a level refutes, beside the system.
#[derive(Clone, Copy, Debug, PartialEq, Eq)]
pub enum Goal {
    /// Nothing more: that there is no point at all.
    Nothing,
    /// That the cost is more than the number.
    AtMost(u64),
    /// That the term is more than the bound. Only levels of a cut have this goal.
    Below { term: Term, bound: i128 },
}

/// How many variables and clauses the system has that a proof was made for.
#[derive(Clone, Copy, Debug, PartialEq, Eq)]
pub struct Shape {
    pub vars: u32,
    pub clauses: u32,
}

/// A proof that every point of a system meets a goal.
#[derive(Debug, Drop)]
pub struct Proof {
    pub goal: Goal,
    /// Stands in the second version of the text, and not in the first.
    pub shape: Option<Shape>,
    pub steps: Steps,
}

impl Copied for Proof {
    fn copy(&self, alloc: Global) -> Result<Proof, NoMemory> {
        let steps = self.steps.copy(alloc)?;
        Ok(Proof {
            goal: self.goal,
            shape: self.shape,
            steps,
        })
    }
}
