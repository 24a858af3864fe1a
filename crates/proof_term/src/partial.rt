use crate::{Goal, OpenTree, Steps};
use std::alloc::Global;
use wx_base::{Copied, NoMemory, Sequence};

/// The steps of one open level, with its goal.
#[derive(Debug, Drop)]
pub struct PartLevel {
    pub goal: Goal,
    pub steps: Steps,
}

/// The open levels, the outermost first.
pub type PartLevels = Sequence<PartLevel>;

/// A proof that isn't finished: its open levels, and the tree in work on the last one.
#[derive(Debug, Drop)]
pub struct Partial {
    pub levels: PartLevels,
    pub pending: OpenTree,
}

impl Copied for PartLevel {
    fn copy(&self, alloc: Global) -> Result<PartLevel, NoMemory> {
        let steps = self.steps.copy(alloc)?;
        Ok(PartLevel {
            goal: self.goal,
            steps,
        })
    }
}
