ghost use Rattle.std.specs.Prelude.{◌≡◌, ℕ, List, length, map, sum_by};
ghost use Rattle.ll_verifier.specs.Sound.{SoundFunc, IsSound};
ghost use Rattle.ir_runs.specs.Costs.{path_cost};
ghost use Rattle.ir_runs.specs.Values.{Vals};
ghost use Rattle.ir_runs.specs.Walk.{Walk};
ghost use Rattle.sound_costs.specs.Costs.{FuncCosts, AreCostsOf, costs_by_label};
ghost use Rattle.portion_cuts.specs.Paths.{place_at, label_at, costs_at, IsPath, spends};
ghost use Rattle.portion_cuts.specs.Portions.{portions_of, whole, Cover};

/// The portions of a function lie one behind the other, from its first block to its last, and none is
/// empty.
pub fn portions_cover_all_blocks()
    ensures { (it : SoundFunc) → IsSound it → Cover 0 (portions_of it) (length it.flow.order) }
{}

/// What a path spends in the portions is its cost, and what it spends in all blocks.
pub fn spending_adds_up()
    ensures parts { (it : SoundFunc) (costs : FuncCosts) (path : List ℕ) → IsSound it
        → IsPath it.flow.edges path
        → sum_by (λ portion. spends (costs_at it costs) portion path) (portions_of it)
        ≡ spends (costs_at it costs) (whole it) path }
    ensures all { (it : SoundFunc) (costs : FuncCosts) (path : List ℕ) → IsSound it
        → AreCostsOf it.func costs → IsPath it.flow.edges path
        → spends (costs_at it costs) (whole it) path
        ≡ path_cost (costs_by_label it.func costs) (map (label_at it) path) }
{}

/// The entry stands at position 0.
pub fn entry_stands_first()
    ensures { (it : SoundFunc) → IsSound it → place_at it 0 ≡ 0 }
{}

/// A walk goes along a path by positions.
pub fn walks_are_paths_by_positions()
    ensures { (it : SoundFunc) (args : List ℕ) (labels : List (List ℕ)) (vals : Vals) → IsSound it
        → Walk it.func args labels vals
        → (path : List ℕ) × IsPath it.flow.edges path × (map (label_at it) path ≡ labels) }
{}
