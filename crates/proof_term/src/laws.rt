ghost use Rattle.proof_term.specs.Laws.{RefutedBoxesAreEmpty, ValidProofsBound, CutsAreBounds};
ghost use Rattle.proof_term.specs.PartialLaws.{NothingIsValid, OneMoreStepIsValid, ClosedLevelIsValid, PartialCutsAreBounds};
ghost use Rattle.proof_term.specs.Weaker.{ValidProofsStayValid};

/// No whole point lies in a box that a tree refutes.
pub fn refuted_boxes_are_empty()
    ensures { RefutedBoxesAreEmpty }
{}

/// Every point that fits a system meets the goal of each valid proof over it.
/// A valid proof with the goal [`Goal::Nothing`](crate::Goal) says that no point fits.
pub fn valid_proofs_bound()
    ensures { ValidProofsBound }
{}

/// At every point that fits a system the term of each cut of a valid proof is at most the cut's bound, whatever the goals around it.
pub fn cuts_are_bounds()
    ensures { CutsAreBounds }
{}

/// A proof that is valid for a goal is valid for each weaker one, where no clause of the system and of the proof has a literal on the cost.
pub fn valid_proofs_stay_valid()
    ensures { ValidProofsStayValid }
{}

/// A proof of one level on which nothing was done is valid so far, whatever the system.
pub fn nothing_is_valid()
    ensures { NothingIsValid }
{}

/// A step that stands behind those of the last level keeps a proof valid so far, with no tree begun.
pub fn one_more_step_is_valid()
    ensures { OneMoreStepIsValid }
{}

/// Where a step ends the level of a cut with the empty clause, the proof with that cut among the steps of the first level is valid so far.
pub fn closed_level_is_valid()
    ensures { ClosedLevelIsValid }
{}

/// At every point that fits a system the term of each cut of a proof that is valid so far is at most the cut's bound, whatever the goals around it.
pub fn partial_cuts_are_bounds()
    ensures { PartialCutsAreBounds }
{}
