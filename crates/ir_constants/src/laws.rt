//! Laws of the definitions that contracts cite. Each is the contract of a function that does nothing.

ghost use Rattle.std.specs.Prelude.{◌≤◌, ℕ, List, length, sum_by, flat_map, Contains};
ghost use Rattle.ll_tree.specs.declared.block.Block.{Block};
ghost use Rattle.ll_tree.specs.declared.block.Operand.TheVariants.{Const};
ghost use Rattle.ir_constants.specs.Constants.{constants_of, HasVar};
ghost use Rattle.ir_constants.specs.Counted.{counted_in, most_in};

/// The variable of a counted constant has its number.
pub fn counted_constants_have_their_variables()
    ensures { (blocks : List Block) (n : ℕ) → Contains (flat_map counted_in blocks) (Const n)
        → HasVar (constants_of blocks) n }
{}

/// Blocks have no more constants than operands.
pub fn constants_are_few()
    ensures { (blocks : List Block) → length (constants_of blocks) ≤ sum_by most_in blocks }
{}
