ghost use Rattle.std.specs.Prelude.{◌≡◌, ◌≢◌, [], IfOk, OnOk, All};
ghost use Rattle.std.specs.List.{flat_map};
ghost use Rattle.bound_trail.specs.Trail.{box, IsTrail};
ghost use Rattle.mix_system.specs.Calm.{IsCalm};
ghost use Rattle.proof_term.specs.Refutes.{Refutes as IsRefutedBy};
ghost use Rattle.proof_term.specs.Steps.{NodeNames, StaysWithin, node_steps};
ghost use Rattle.level_steps.specs.Level.{clause_of};
ghost use Rattle.level_steps.specs.Steps.{IsStepOn};
ghost use Rattle.level_steps.specs.Plain.{IsPlain};
ghost use Rattle.level_search.specs.Kept.{level_of, IsWorking};
ghost use Rattle.level_theories.specs.Theory.{NodeIsExact, AreExcluded, Excludes, Refutes};

use crate::excluded::excluded;
use crate::latest::back_level;
use level_search::{Learning, LevelSearch};
use mix_system::Lits;
use proof_term::{Step, Tree};
use wx_base::{Copied, NoMemory};

/// Logs a tree that refutes the bounds in force as a theory, goes back and adds its clause. A literal
/// of a leaf that is true on the trail is one of the trail's, or the end of a range.
pub fn refuted(level: &mut LevelSearch<'_>, tree: Tree) -> Result<Learning, NoMemory>
    requires working { IsWorking level.old }
    requires calm { IsCalm level.old.system.now }
    requires refutes { IsRefutedBy level.old.system.now.rows tree (box level.old.search.trail) }
    requires names { All (NodeNames level.old.system.now) tree.nodes }
    requires numbers { All StaysWithin
        (flat_map (node_steps level.old.system.now.rows) tree.nodes) }
    requires exact { All (NodeIsExact level.old.search) tree.nodes }
    ensures { IfOk result (λ learning. Refutes learning level.old level.new) }
{
    let alloc = level.alloc();
    let lits = excluded(level, alloc, tree.nodes.items())?;
    if lits.len() == 0 {
        level.end(Step::Theory { clause: lits, tree })?;
        return Ok(Learning::Ended);
    }
    let clause = lits.copy(alloc)?;
    exclude(level, &lits, Step::Theory { clause, tree })?;
    Ok(Learning::Going)
}

// Logs a step, goes back to where its clause has at most one literal that isn't false, and adds it.
fn exclude(level: &mut LevelSearch<'_>, lits: &Lits, step: Step) -> Result<(), NoMemory>
    requires working { IsWorking level.old }
    requires lits { AreExcluded level.old lits.now }
    requires some { lits.now ≢ [] }
    requires clause { clause_of step ≡ lits.now }
    requires on { IsStepOn (level_of level.old) level.old.steps.items step }
    requires plain { IsPlain level.old.system.now step }
    ensures { OnOk result (Excludes level.old level.new) }
{
    if level.search.levels().len() > u32::MAX as usize {
        return Err(NoMemory);
    }
    let back = back_level(level, lits.items());
    level.search.back_to(back);
    level.log(lits.items(), step)?;
    Ok(())
}
