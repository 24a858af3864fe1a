ghost use Rattle.level_steps.specs.Laws.{EndedLevelsHaveNoPoint, StepsGoOn, StepsStayValid, EndedLevelsAreProofs};

/// No point that fits the system and meets the cuts and the goal's literal is left where valid steps
/// have ended with the empty clause.
pub fn ended_levels_have_no_point()
    ensures { EndedLevelsHaveNoPoint }
{}

/// A valid step may be put behind valid steps.
pub fn steps_go_on()
    ensures { StepsGoOn }
{}

/// Valid steps stay valid under a goal that says more, on a row that no clause and no cut is about.
pub fn steps_stay_valid()
    ensures { StepsStayValid }
{}

/// Valid steps of a first level without cuts that have ended are a valid proof.
pub fn ended_levels_are_proofs()
    ensures { EndedLevelsAreProofs }
{}
