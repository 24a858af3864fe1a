ghost use Rattle.std.specs.Prelude.{◌≡◌, ◌+◌, ◌<◌, ◌^◌, length, IfOk};
ghost use Rattle.ll_links.specs.Table as spec;

use ll_tree::Block;
use std::alloc::Global;
use wx_base::NoMemory;

// How many items stand before those of each block.
pub fn list_starts(alloc: Global, blocks: &[Block]) -> Result<Vec<u32>, NoMemory>
    requires { spec.count_items blocks.now < 2 ^ 32 }
    ensures { IfOk result (λ starts. starts.items ≡ spec.starts_from 0 blocks.now) }
{
    let mut starts = Vec::new(alloc);
    let mut start = 0;
    for block in blocks {
        starts.push(start)?;
        start += count_in(block);
    }
    Ok(starts)
}

fn count_in(block: &Block) -> u32
    requires { spec.count_in block.now < 2 ^ 32 }
    ensures { result ≡ spec.count_in block.now }
{
    block.phis.len() as u32 + block.body.len() as u32 + 1
}
