//! Laws of the definitions that contracts cite. Each is the contract of a function that does nothing, and what it
//! calls are the laws that it rests on.

ghost use Rattle.std.specs.Prelude.{◌≡◌, ℕ, ℤ, List, length, map, zip, All};
ghost use Rattle.ll_verifier.specs.Sound.{SoundFunc, IsSound};
ghost use Rattle.ir_runs.specs.Values.{Vals};
ghost use Rattle.ir_runs.specs.Run.{Run};
ghost use Rattle.ir_runs.specs.declared.ret_val.RetVal.{RetVal};
ghost use Rattle.portion_cuts.specs.Paths.{label_at};
ghost use Rattle.wrap_rows.specs.Layout.{Holds};
ghost use Rattle.ir_pieces.specs.declared.list.Placed.{Placed};
ghost use Rattle.path_encoding.specs.declared.spots.PathSpots.{PathSpots};
ghost use Rattle.path_encoding.specs.PathLayout.{path_layout};
ghost use Rattle.path_encoding.specs.Paths.{IsTaken};
ghost use Rattle.path_encoding.specs.Agree.{AreCasesSaid};
ghost use Rattle.point_runs.specs.Told.{RunsAlong};
ghost use Rattle.piece_values.specs.Ready.{IsArgument};
ghost use Rattle.system_runs.specs.Parts.{AreParts, PiecesHold};

use path_encoding::a_point_has_one_path;
use piece_values::{filled_points_are_known, pieces_tell_the_values_along_a_path};
use point_runs::{a_point_is_a_run, a_run_is_a_point};

/// At each point where the layout of paths and all pieces hold, the arguments that stand at the parameters'
/// numbers have a run, along the path that the point takes.
pub fn points_are_runs()
    ensures { (it : SoundFunc) (spots : PathSpots) (placed : List Placed) (from to : ℕ) → IsSound it
        → AreParts it spots placed from to → (point : List ℤ) → PiecesHold it spots placed point
        → Holds (path_layout it spots) point
        → (args : List ℕ) → length args ≡ length it.func.params
        → All (IsArgument point) (zip (zip it.func.params args) spots.values.items)
        → (path : List ℕ) × IsTaken it spots point path × RunsAlong it args path }
{
    a_point_has_one_path();
    filled_points_are_known();
    pieces_tell_the_values_along_a_path();
    a_point_is_a_run();
}

/// Where arguments have a run, at each point that has these arguments, takes the run's path, says which cases its
/// switches have, and at which all pieces hold, the layout of paths holds.
pub fn runs_are_points()
    ensures { (it : SoundFunc) (spots : PathSpots) (placed : List Placed) (from to : ℕ) → IsSound it
        → AreParts it spots placed from to → (point : List ℤ) → PiecesHold it spots placed point
        → AreCasesSaid it spots point
        → (args path : List ℕ) (vals : Vals) (result : RetVal)
        → Run it.func args (map (label_at it) path) vals result
        → IsTaken it spots point path
        → All (IsArgument point) (zip (zip it.func.params args) spots.values.items)
        → Holds (path_layout it spots) point }
{
    filled_points_are_known();
    pieces_tell_the_values_along_a_path();
    a_run_is_a_point();
}
