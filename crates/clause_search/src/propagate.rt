ghost use Rattle.std.specs.Prelude.{◌≡◌, ◌<◌, length, IfOk, OnErr};
ghost use Rattle.clause_search.specs.Search.{Propagated};
ghost use Rattle.clause_search.specs.Passed.{Settles};

use crate::Spread;
use crate::clause_trail::ClauseTrail;
use crate::look::{Standing, look_at};
use mix_system::{Tally, Work};
use wx_base::NoMemory;

impl ClauseTrail {
    /// Looks at a clause, and puts what it implies. Where memory is wanting the trail stands as
    /// before.
    pub(crate) fn settle(&mut self, at: u32, tally: &mut Tally) -> Result<Option<Spread>, NoMemory>
        requires { at < length self.old.store }
        ensures propagated { IfOk result (λ _. Propagated self.old self.new tally.old tally.new) }
        ensures settles { IfOk result (λ stop. Settles stop at self.new tally.new) }
        ensures err { OnErr result (self.new ≡ self.old) }
    {
        match look_at(self.clause(at), self.bounds()) {
            Standing::Settled => Ok(None),
            Standing::Broken => Ok(Some(Spread::Conflict(at))),
            Standing::Implies(lit) => {
                if !tally.tick(Work::Propagation) {
                    return Ok(Some(Spread::Spent));
                }
                self.imply(&lit, at)?;
                Ok(None)
            }
        }
    }
}
