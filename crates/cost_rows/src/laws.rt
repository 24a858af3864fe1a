ghost use Rattle.std.specs.Prelude.{◌≡◌, ℕ, ℤ, Bool, List, length, pos};
ghost use Rattle.ll_verifier.specs.Sound.{SoundFunc, IsSound};
ghost use Rattle.mix_system.specs.Row.{row_value};
ghost use Rattle.wrap_rows.specs.Normal.{row_of};
ghost use Rattle.portion_cuts.specs.Paths.{PositionCosts, IsPath, spends_in};
ghost use Rattle.cost_rows.specs.Rows.{spend_parts, MarksPath};

/// Where the variables of the blocks and edges of a path are 1 and those of all others 0, the row of
/// some blocks is what the path spends in them.
pub fn rows_sum_up_what_is_spent()
    ensures { (it : SoundFunc) (costs : PositionCosts) (inside : ℕ → Bool) (path : List ℕ)
        (block_vars edge_vars : List ℕ) (point : List ℤ) → IsSound it
        → length block_vars ≡ length it.flow.order → length edge_vars ≡ length it.flow.edges
        → IsPath it.flow.edges path → MarksPath path it.flow.edges block_vars edge_vars point
        → row_value (row_of (spend_parts costs inside it.flow.edges block_vars edge_vars)) point
        ≡ pos (spends_in costs inside path) }
{}
