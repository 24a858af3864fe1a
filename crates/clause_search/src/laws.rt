//! Laws of the definitions that contracts cite. Each is the contract of a function that does
//! nothing.

ghost use Rattle.std.specs.Prelude.{◌≡◌, ◌≤◌, ℕ, List, [], ◌∷◌, ◌++◌, take, All};
ghost use Rattle.mix_system.specs.declared.literal.Lit.{Lit};
ghost use Rattle.mix_system.specs.declared.tally.Tally.{Tally};
ghost use Rattle.bound_trail.specs.Trail.{box, level_end, IsTrail};
ghost use Rattle.clause_search.specs.Settled.{IsSettled};
ghost use Rattle.clause_search.specs.Search.{Search, WasQuiet, Propagated, present_level};
ghost use Rattle.clause_search.specs.Decided.{OpensLevel};
ghost use Rattle.clause_search.specs.Learnt.{IsAsserting};

/// What an analysis asks of the lower levels stays so: over a propagation, over a decision where
/// every clause asks for nothing, and over going back with what was learnt, which is then added.
pub fn lower_levels_stay_quiet()
    ensures propagated { (old new : Search) (before after : Tally)
        → IsTrail old.trail → WasQuiet old → Propagated old new before after → WasQuiet new }
    ensures decided { (old new : Search) (lit : Lit) (before after : Tally)
        → IsTrail old.trail → WasQuiet old → All (IsSettled (box old.trail)) old.store
        → OpensLevel lit old new before after → WasQuiet new }
    ensures learnt { (state : Search) (lits : List Lit) (level : ℕ)
        → IsTrail state.trail → WasQuiet state → level ≤ present_level state
        → IsAsserting state lits level
        → WasQuiet (record {
          store = state.store ++ lits ∷ [];
          trail = record state.trail {
            lits = take (level_end state.trail level) state.trail.lits;
            levels = take level state.trail.levels;
          };
        }) }
{}
