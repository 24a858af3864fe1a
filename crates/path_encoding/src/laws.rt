//! Laws of the definitions that contracts cite. Each is the contract of a function that does
//! nothing.

ghost use Rattle.std.specs.Prelude.{◌≡◌, ◌+◌, ◌*◌, ◌<◌, ◌≤◌, ◌++◌, ℕ, ℤ, List, length, Contains, slice_index_or};
ghost use Rattle.mix_system.specs.Row.{number_at};
ghost use Rattle.flow_graph.specs.declared.edge.Edge.{Edge};
ghost use Rattle.ll_rules.specs.Limits.{count_values, count_cases};
ghost use Rattle.portion_cuts.specs.Paths.{passes, takes};
ghost use Rattle.wrap_rows.specs.Piece.{mark_of};
ghost use Rattle.wrap_rows.specs.Small.{IsSmall};
ghost use Rattle.ll_verifier.specs.Sound.{SoundFunc, IsSound};
ghost use Rattle.ir_runs.specs.Values.{Vals};
ghost use Rattle.wrap_rows.specs.Layout.{Holds};
ghost use Rattle.path_encoding.specs.declared.spots.PathSpots.{PathSpots};
ghost use Rattle.path_encoding.specs.Spots.{AreSpotsOf};
ghost use Rattle.path_encoding.specs.PathLayout.{path_layout};
ghost use Rattle.path_encoding.specs.Paths.{IsTaken, AreMarks};
ghost use Rattle.path_encoding.specs.Agree.{AgreesWith, AgreesOn, AreCasesSaid, ReturnsOn};

/// Where blocks and edges are 0 or 1 and the layout of paths holds, a point takes exactly one path
/// from the entry to an end: its blocks and its edges are those that are 1, and no others.
pub fn a_point_has_one_path()
    ensures { (it : SoundFunc) (spots : PathSpots) (point : List ℤ) → IsSound it
        → AreSpotsOf it spots → AreMarks spots point → Holds (path_layout it spots) point
        → (path : List ℕ) × IsTaken it spots point path
        × ((other : List ℕ) → IsTaken it spots point other → other ≡ path) }
{}

/// Where the layout holds at a point and values are what their variables say, they lead along the
/// path that the point takes: each of its blocks goes to the next, and the last one returns.
pub fn the_path_returns()
    ensures { (it : SoundFunc) (spots : PathSpots) (point : List ℤ) → IsSound it
        → AreSpotsOf it spots → AreMarks spots point → Holds (path_layout it spots) point
        → (path : List ℕ) → IsTaken it spots point path
        → (args : List ℕ) (vals : Vals)
        → AgreesWith it spots point args → AgreesOn it spots point vals path
        → ReturnsOn it args vals path }
{}

/// The path of values that return makes the layout of paths hold at a point that says what they
/// are: its blocks and edges are 1 and no others, a case is 1 exactly where its switch has its
/// number, and the variables of what the path asks have its values.
pub fn a_path_that_returns_makes_it_hold()
    ensures { (it : SoundFunc) (spots : PathSpots) (point : List ℤ) → IsSound it
        → AreSpotsOf it spots → AreMarks spots point → AreCasesSaid it spots point
        → (path : List ℕ) → IsTaken it spots point path
        → (args : List ℕ) (vals : Vals)
        → AgreesWith it spots point args → AgreesOn it spots point vals path
        → ReturnsOn it args vals path → Holds (path_layout it spots) point }
{}

/// The numbers of blocks and edges alone tell which path a point takes.
pub fn blocks_and_edges_tell_the_path()
    ensures marks { (it : SoundFunc) (spots : PathSpots) (point other : List ℤ)
        → AreSpotsOf it spots
        → ((var : ℕ) → Contains (spots.blocks.items ++ spots.edges.items) var
        → number_at other var ≡ number_at point var)
        → AreMarks spots point → AreMarks spots other }
    ensures taken { (it : SoundFunc) (spots : PathSpots) (point other : List ℤ)
        → AreSpotsOf it spots
        → ((var : ℕ) → Contains (spots.blocks.items ++ spots.edges.items) var
        → number_at other var ≡ number_at point var)
        → (path : List ℕ) → IsTaken it spots point path → IsTaken it spots other path }
{}

/// At a point that takes a path, each block is 1 where the path passes it and else 0, and each edge
/// is 1 where the path takes it and else 0.
pub fn a_path_marks_its_blocks_and_edges()
    ensures blocks { (it : SoundFunc) (spots : PathSpots) (point : List ℤ) → AreSpotsOf it spots
        → AreMarks spots point → (path : List ℕ) → IsTaken it spots point path
        → (at : ℕ) → at < length spots.blocks.items
        → number_at point (slice_index_or spots.blocks.items at 0) ≡ mark_of (passes path at) }
    ensures edges { (it : SoundFunc) (spots : PathSpots) (point : List ℤ) → AreSpotsOf it spots
        → AreMarks spots point → (path : List ℕ) → IsTaken it spots point path
        → (k : ℕ) (edge : Edge) → k < length spots.edges.items
        → slice_index_or it.flow.edges k edge ≡ edge
        → number_at point (slice_index_or spots.edges.items k 0) ≡ mark_of (takes path edge) }
{}

/// The numbers of the layout of paths are small. It has at most two rows for each block, and its
/// clauses are at most as many as the function's parameters, blocks, values and cases allow: 10,049
/// at all limits.
pub fn what_paths_lay_is_little()
    ensures small { (it : SoundFunc) (spots : PathSpots) → IsSound it
        → IsSmall (path_layout it spots) }
    ensures rows { (it : SoundFunc) (spots : PathSpots)
        → length (path_layout it spots).rows ≤ 2 * length it.flow.order }
    ensures clauses { (it : SoundFunc) (spots : PathSpots) → IsSound it
        → length (path_layout it spots).clauses ≤ 1 + length it.func.params
        + 7 * length it.func.blocks + 2 * count_values it.func + 4 * count_cases it.func }
{}
