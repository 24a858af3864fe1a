use crate::LevelStack;
use box_check::Clauses;
use mix_system::{Lit, System};

/// The clauses that a step on the last of some levels may name: the system's, those of the level's
/// own steps, and the cuts of the levels around it.
#[derive(Clone, Copy)]
pub struct Available<'a> {
    pub system: &'a System,
    pub stack: &'a LevelStack,
}

impl<'a> Clauses for Available<'a> {
    ghost use Rattle.proof_term.specs.Levels.{known as known_to};
    ghost use Rattle.open_levels.specs.Stack.{levels_of};

    ghost known = { λ it number. known_to it.system.now
        (levels_of it.stack.now.last it.stack.now.enclosing) number };

    fn clause(&self, number: u32) -> Option<&[Lit]> {
        if number < self.system.clauses() {
            return Some(self.system.clause(number));
        }
        self.stack.clause(number as u64)
    }
}
