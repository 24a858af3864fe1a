ghost use Rattle.std.specs.Prelude.{◌≡◌, ◌<◌, length};
ghost use Rattle.ll_tree.specs.declared.func.Func.{Func};
ghost use Rattle.ll_flow.specs.Paths.{label_of, GoesTo};
ghost use Rattle.ir_runs.specs.Costs.{LabelCosts};

use ll_links::BlockId;

/// What the blocks and the edges of a function cost. No call takes memory.
pub trait PathCosts {
    /// The function.
    ghost func: { Self → Func };

    /// The costs by labels.
    ghost costs: { Self → LabelCosts };

    /// The cost of the block at a place.
    fn block(&self, block: BlockId) -> u32
        requires { block.0 < length (func self.now).blocks }
        ensures { result ≡ (costs self.now).block (label_of (func self.now) block.0) };

    /// The cost of the edge from a block to one of its targets.
    fn edge(&self, from: BlockId, to: BlockId) -> u32
        requires from { from.0 < length (func self.now).blocks }
        requires to { to.0 < length (func self.now).blocks }
        requires goes { GoesTo (func self.now) (label_of (func self.now) from.0)
            (label_of (func self.now) to.0) }
        ensures { result ≡ (costs self.now).edge (label_of (func self.now) from.0)
            (label_of (func self.now) to.0) };
}
