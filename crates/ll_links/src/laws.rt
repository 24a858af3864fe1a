ghost use Rattle.std.specs.Prelude.{◌≡◌, ◌<◌, ◌+◌, ℕ, List, length, slice_index_or};
ghost use Rattle.ll_tree.specs.declared.block.Block.{Block};
ghost use Rattle.ll_tree.specs.declared.block.Phi.{Phi};
ghost use Rattle.ll_tree.specs.declared.block.Instr.{Instr};
ghost use Rattle.ll_rules.specs.Items.{OfPhi, OfInstr, OfEnd};
ghost use Rattle.ll_links.specs.Items.{item_at};

/// The items of a block are its phis, behind them its instructions, and last its terminator.
pub fn items_of_a_block()
    ensures phi { (blocks : List Block) (at item : ℕ) (block : Block) (phi : Phi)
        → at < length blocks → slice_index_or blocks at block ≡ block → item < length block.phis
        → item_at blocks at item ≡ OfPhi (slice_index_or block.phis item phi) }
    ensures instr { (blocks : List Block) (at item : ℕ) (block : Block) (instr : Instr)
        → at < length blocks → slice_index_or blocks at block ≡ block → item < length block.body
        → item_at blocks at (length block.phis + item)
        ≡ OfInstr (slice_index_or block.body item instr) }
    ensures end { (blocks : List Block) (at : ℕ) (block : Block)
        → at < length blocks → slice_index_or blocks at block ≡ block
        → item_at blocks at (length block.phis + length block.body) ≡ OfEnd block.end }
{}
