//! Numbers in place of the names of a function.

ghost use Rattle.std.specs.Prelude.{◌≤◌, length};
ghost use Rattle.ll_links.specs.Items.{items_at};

use ll_links::BlockId;
use ll_verifier::Sound;
use std::alloc::Global;
use wx_base::NoMemory;

/// The bits of the parameters, and for each item, in the kept order of the blocks, its operands,
/// its blocks and its value.
pub fn links_text(alloc: Global, sound: &Sound) -> Result<String, NoMemory> {
    let mut line = format!(in alloc; "{} bits", sound.bits())?;
    for block in sound.order() {
        line.push_str(block_text(alloc, sound, *block)?.as_str())?;
    }
    Ok(line)
}

fn block_text(alloc: Global, sound: &Sound, block: BlockId) -> Result<String, NoMemory> {
    let mut line = String::new(alloc);
    for item in 0..item_count(sound, block) {
        let links = sound.links(block, item);
        let (sources, blocks, result) = (links.sources, links.blocks, links.result);
        let text = format!(in alloc; "; {sources:?} {blocks:?} {result:?}")?;
        line.push_str(text.as_str())?;
    }
    Ok(line)
}

// The items of a block that have numbers are its phis, its instructions and its terminator.
#[tactic(auto, using(crate::proofs::ItemLaws::item_within))]
fn item_count(sound: &Sound, block: BlockId) -> u32
    ensures { result ≤ length (items_at sound.now.func.blocks block.0) }
{
    let Some(found) = sound.func().blocks.items().get(block.0 as usize) else {
        return 0;
    };
    let before = found.phis.len().saturating_add(found.body.len());
    match u32::try_from(before.saturating_add(1)) {
        Ok(count) => count,
        Err(_) => 0,
    }
}
