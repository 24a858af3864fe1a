//! Laws of the definitions that contracts cite. Each is the contract of a function that does nothing, and what it
//! calls are the laws that it rests on.

ghost use Rattle.std.specs.Prelude.{◌≡◌, ℕ, ℤ, List, map};
ghost use Rattle.wx_base.specs.Args.{AreArguments};
ghost use Rattle.ll_verifier.specs.Sound.{SoundFunc, IsSound};
ghost use Rattle.ir_runs.specs.Values.{Vals};
ghost use Rattle.ir_runs.specs.Walk.{widths_of};
ghost use Rattle.ir_runs.specs.Run.{Run};
ghost use Rattle.ir_runs.specs.declared.ret_val.RetVal.{RetVal};
ghost use Rattle.portion_cuts.specs.Paths.{label_at};
ghost use Rattle.wrap_rows.specs.Layout.{Holds};
ghost use Rattle.path_encoding.specs.declared.spots.PathSpots.{PathSpots};
ghost use Rattle.path_encoding.specs.Spots.{AreSpotsOf};
ghost use Rattle.path_encoding.specs.PathLayout.{path_layout};
ghost use Rattle.path_encoding.specs.Paths.{IsTaken, AreMarks};
ghost use Rattle.path_encoding.specs.Agree.{AgreesWith, AreCasesSaid};
ghost use Rattle.point_runs.specs.Told.{TellsAlong, RunsAlong};

use path_encoding::{a_path_that_returns_makes_it_hold, the_path_returns};

/// At a point where the layout of paths holds, and that tells the values along the path which it takes, the
/// arguments have a run along this path.
pub fn a_point_is_a_run()
    ensures { (it : SoundFunc) (spots : PathSpots) (point : List ℤ) → IsSound it
        → AreSpotsOf it spots → AreMarks spots point → Holds (path_layout it spots) point
        → (path : List ℕ) → IsTaken it spots point path
        → (args : List ℕ) → AreArguments (widths_of it.func) args
        → AgreesWith it spots point args → TellsAlong it spots point args path
        → RunsAlong it args path }
{
    the_path_returns();
}

/// Where a run goes along the path that a point takes, and the point tells the values along it and which
/// cases its switches have, the layout of paths holds there.
pub fn a_run_is_a_point()
    ensures { (it : SoundFunc) (spots : PathSpots) (point : List ℤ) → IsSound it
        → AreSpotsOf it spots → AreMarks spots point → AreCasesSaid it spots point
        → (path : List ℕ) → IsTaken it spots point path
        → (args : List ℕ) (vals : Vals) (result : RetVal)
        → Run it.func args (map (label_at it) path) vals result
        → AgreesWith it spots point args → TellsAlong it spots point args path
        → Holds (path_layout it spots) point }
{
    a_path_that_returns_makes_it_hold();
}
