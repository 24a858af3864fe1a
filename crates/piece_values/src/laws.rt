//! Laws of the definitions that contracts cite. Each is the contract of a function that does nothing.

ghost use Rattle.std.specs.Prelude.{◌≡◌, ℕ, ℤ, List, length, zip, All};
ghost use Rattle.ll_verifier.specs.Sound.{SoundFunc, IsSound};
ghost use Rattle.ir_pieces.specs.declared.list.Placed.{Placed};
ghost use Rattle.ir_pieces.specs.Lists.{ArePlaced, AreInRanges, AllHold, AreReady};
ghost use Rattle.path_encoding.specs.declared.spots.PathSpots.{PathSpots};
ghost use Rattle.path_encoding.specs.Spots.{AreSpotsOf};
ghost use Rattle.path_encoding.specs.Paths.{IsTaken, AreMarks};
ghost use Rattle.path_encoding.specs.Agree.{AgreesWith};
ghost use Rattle.point_runs.specs.Told.{TellsAlong};
ghost use Rattle.piece_values.specs.Known.{AreKnown};
ghost use Rattle.piece_values.specs.Owners.{ArePiecesOf};
ghost use Rattle.piece_values.specs.Ready.{IsReady, IsArgument};

/// Where values lie in their ranges, constants at their variables, and each piece holds, a point tells the values
/// along the path that it takes: each result is what its item computes, a phi's that of the block before.
pub fn pieces_tell_the_values_along_a_path()
    ensures { (it : SoundFunc) (spots : PathSpots) (point : List ℤ) → IsSound it
        → AreSpotsOf it spots → AreMarks spots point → AreKnown it spots point
        → (placed : List Placed) (from to : ℕ) → ArePlaced from to placed
        → ArePiecesOf it spots placed → AreInRanges placed point → AllHold placed point
        → (path args : List ℕ) → IsTaken it spots point path → AgreesWith it spots point args
        → TellsAlong it spots point args path }
{}

/// The pieces of a function can be filled in one behind the other, at each point that has the arguments, the
/// constants and a path: what a piece asks of is a parameter, or is given by a piece before it.
pub fn pieces_can_be_filled_in_their_order()
    ensures { (it : SoundFunc) (spots : PathSpots) (placed : List Placed) (path : List ℕ)
        → IsSound it → AreSpotsOf it spots → ArePiecesOf it spots placed
        → AreReady (IsReady it spots path) placed }
{}

/// At a point that is ready, where the pieces lie in their ranges and hold, each name's variables are a value of its
/// width, and the arguments that stand at the parameters' numbers are those that the parameters are given.
pub fn filled_points_are_known()
    ensures known { (it : SoundFunc) (spots : PathSpots) (point : List ℤ) → IsSound it
        → AreSpotsOf it spots → (path : List ℕ) → IsReady it spots path point
        → (placed : List Placed) (from to : ℕ) → ArePlaced from to placed
        → ArePiecesOf it spots placed → AreInRanges placed point → AllHold placed point
        → AreKnown it spots point }
    ensures given { (it : SoundFunc) (spots : PathSpots) (point : List ℤ) → IsSound it
        → AreSpotsOf it spots → (path : List ℕ) → IsReady it spots path point
        → (placed : List Placed) (from to : ℕ) → ArePlaced from to placed
        → ArePiecesOf it spots placed → AreInRanges placed point → AllHold placed point
        → (args : List ℕ) → length args ≡ length it.func.params
        → All (IsArgument point) (zip (zip it.func.params args) spots.values.items)
        → AgreesWith it spots point args }
{}
