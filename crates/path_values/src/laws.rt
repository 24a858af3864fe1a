//! Laws of the definitions that contracts cite. Each is the contract of a function that does nothing.

ghost use Rattle.std.specs.Prelude.{◌≡◌, ℕ, List, map, Contains};
ghost use Rattle.wx_base.specs.Args.{AreArguments};
ghost use Rattle.ll_tree.specs.declared.func.Func.{Func};
ghost use Rattle.ll_tree.specs.declared.block.Block.{Block};
ghost use Rattle.ll_tree.specs.declared.block.Instr.{Instr};
ghost use Rattle.ll_rules.specs.Items.{op_parts, end_parts};
ghost use Rattle.ll_verifier.specs.Rules.{Rules};
ghost use Rattle.ir_meaning.specs.declared.value.Val.{Val};
ghost use Rattle.ir_runs.specs.Values.{Vals};
ghost use Rattle.ir_runs.specs.Walk.{Walk, LeadOn, names_on, widths_of};
ghost use Rattle.path_values.specs.Way.{IsWay, HasValues, AreTheValues, AreKnown, told, told_of};

/// A way has one map of values. Where a value is told for each name, and the told values are those of the
/// parameters and of the items, it is the map of what is told of the way's names.
pub fn values_on_a_way_are_one()
    ensures told { (func : Func) (args : List ℕ) (blocks : List Block) (value : List ℕ → Val)
        → Rules func → IsWay func blocks → HasValues func args blocks (told value)
        → AreTheValues func args blocks (told_of (names_on func blocks) value) }
    ensures one { (func : Func) (args : List ℕ) (blocks : List Block) (value : List ℕ → Val)
        → Rules func → IsWay func blocks → HasValues func args blocks (told value)
        → (vals : Vals) → AreTheValues func args blocks vals
        → vals ≡ told_of (names_on func blocks) value }
{}

/// No instruction or terminator on a way names what isn't a parameter or a result of its blocks.
pub fn operands_on_a_way_are_known()
    ensures body { (func : Func) (blocks : List Block) → Rules func → IsWay func blocks
        → (block : Block) → Contains blocks block
        → (instr : Instr) → Contains block.body instr → AreKnown func blocks (op_parts instr.op) }
    ensures ends { (func : Func) (blocks : List Block) → Rules func → IsWay func blocks
        → (block : Block) → Contains blocks block → AreKnown func blocks (end_parts block.end) }
{}

/// A walk goes a way, and has its values.
pub fn walks_go_a_way()
    ensures way { (func : Func) (args : List ℕ) (path : List (List ℕ)) (vals : Vals) → Rules func
        → (walk : Walk func args path vals) → IsWay func walk.blocks }
    ensures values { (func : Func) (args : List ℕ) (path : List (List ℕ)) (vals : Vals)
        → (walk : Walk func args path vals) → AreTheValues func args walk.blocks vals }
    ensures path { (func : Func) (args : List ℕ) (path : List (List ℕ)) (vals : Vals) → Rules func
        → (walk : Walk func args path vals) → path ≡ map (λ block. block.label) walk.blocks }
{}

/// A way along which its values lead from each block to the next is a walk.
pub fn a_way_with_values_that_leads_on_is_a_walk()
    ensures { (func : Func) (args : List ℕ) (blocks : List Block) (vals : Vals) → Rules func
        → AreArguments (widths_of func) args → IsWay func blocks
        → AreTheValues func args blocks vals → LeadOn func args vals blocks
        → (walk : Walk func args (map (λ block. block.label) blocks) vals)
        × (walk.blocks ≡ blocks) }
{}
