//! Laws of the definitions that contracts cite. Each is the contract of a function that does nothing, and what it
//! calls are the laws that it rests on.

ghost use Rattle.std.specs.Prelude.{◌≡◌, ℕ, ℤ, true, List, length, map, zip, All};
ghost use Rattle.mix_system.specs.System.{System};
ghost use Rattle.mix_system.specs.Fits.{Fits, IsInRanges};
ghost use Rattle.ll_verifier.specs.Sound.{SoundFunc, IsSound};
ghost use Rattle.ir_runs.specs.Values.{Vals};
ghost use Rattle.ir_runs.specs.Run.{Run};
ghost use Rattle.ir_runs.specs.declared.ret_val.RetVal.{RetVal};
ghost use Rattle.sound_costs.specs.Costs.{FuncCosts, AreCostsOf};
ghost use Rattle.portion_cuts.specs.declared.portion.Region.{Region};
ghost use Rattle.portion_cuts.specs.Paths.{label_at};
ghost use Rattle.wrap_rows.specs.Piece.{names_own_rows};
ghost use Rattle.ir_pieces.specs.declared.list.Placed.{Placed};
ghost use Rattle.ir_pieces.specs.Lists.{AllHold};
ghost use Rattle.path_encoding.specs.declared.spots.PathSpots.{PathSpots};
ghost use Rattle.path_encoding.specs.PathLayout.{path_layout};
ghost use Rattle.path_encoding.specs.Paths.{IsTaken};
ghost use Rattle.path_encoding.specs.Agree.{AreCasesSaid};
ghost use Rattle.piece_values.specs.Ready.{IsArgument};
ghost use Rattle.system_points.specs.Encodes.{all_pieces, Encodes, IsRunAt};

use cost_rows::rows_sum_up_what_is_spent;
use ir_constants::counted_constants_have_their_variables;
use ir_pieces::what_pieces_say;
use path_encoding::a_path_marks_its_blocks_and_edges;
use portion_cuts::spending_adds_up;
use system_runs::{points_are_runs, runs_are_points};
use wrap_rows::what_is_laid_says_what_the_layout_says;

/// At each point that fits the system of a function, the arguments that stand there have a run, along the path that
/// the point takes. The row of all blocks is what the run costs, and each row of some what it spends in them.
pub fn points_of_a_system_are_runs()
    ensures { (it : SoundFunc) (costs : FuncCosts) (regions : List Region) (system : System)
        (spots : PathSpots) (own : List Placed) → IsSound it → AreCostsOf it.func costs
        → Encodes it costs regions system spots own
        → names_own_rows (path_layout it spots) ≡ true
        → (point : List ℤ) → Fits system point → IsRunAt it costs spots point }
{
    what_is_laid_says_what_the_layout_says();
    what_pieces_say();
    counted_constants_have_their_variables();
    points_are_runs();
    a_path_marks_its_blocks_and_edges();
    rows_sum_up_what_is_spent();
    spending_adds_up();
}

/// Where arguments have a run, a point in the ranges of the function's system fits it that has these arguments, takes
/// the run's path, says which cases its switches have, and at which all pieces hold.
pub fn runs_are_points_of_a_system()
    ensures { (it : SoundFunc) (costs : FuncCosts) (regions : List Region) (system : System)
        (spots : PathSpots) (own : List Placed) → IsSound it
        → Encodes it costs regions system spots own
        → names_own_rows (path_layout it spots) ≡ true
        → (point : List ℤ) → length point ≡ length system.ranges
        → IsInRanges system.ranges point → AllHold (all_pieces it own) point
        → AreCasesSaid it spots point
        → (args path : List ℕ) (vals : Vals) (result : RetVal)
        → Run it.func args (map (label_at it) path) vals result
        → IsTaken it spots point path
        → All (IsArgument point) (zip (zip it.func.params args) spots.values.items)
        → Fits system point }
{
    what_is_laid_says_what_the_layout_says();
    what_pieces_say();
    counted_constants_have_their_variables();
    runs_are_points();
}
