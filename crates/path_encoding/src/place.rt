ghost use Rattle.std.specs.Prelude.{◌≡◌, ◌<◌, ◌≤◌, length, slice_index_or};
ghost use Rattle.ll_verifier.specs.Sound.{IsSound};
ghost use Rattle.portion_cuts.specs.Paths as spec;
ghost use Rattle.ll_rules.specs.declared.limits.TheConstants.{MAX_CASES};
ghost use Rattle.path_encoding.specs.Spots.{cases_of, cases_before};

use ll_links::BlockId;
use ll_tree::{Block, End};
use ll_verifier::Sound;

/// The place in the file of the block at a position. It takes no memory.
pub fn place_at(sound: &Sound, at: u32) -> BlockId
    requires { at < length sound.now.flow.order }
    ensures place { result.0 ≡ spec.place_at sound.now at }
    ensures within { result.0 < length sound.now.func.blocks }
    ensures sound { IsSound sound.now }
{
    sound.order()[at as usize]
}

/// The block at a place. It takes no memory.
pub fn block_in(sound: &Sound, place: BlockId) -> &Block
    requires { place.0 < length sound.now.func.blocks }
    ensures { result.now ≡ slice_index_or sound.now.func.blocks place.0 result.now }
{
    &sound.func().blocks.items()[place.0 as usize]
}

/// How many cases the switches of a function have together. It takes no memory.
pub fn count_cases(sound: &Sound) -> usize
    ensures count { result ≡ cases_before sound.now (length sound.now.flow.order) }
    ensures few { result ≤ MAX_CASES }
{
    let blocks = sound.order().len() as u32;
    count_over(sound, blocks)
}

fn count_over(sound: &Sound, blocks: u32) -> usize
    requires sound { IsSound sound.now }
    requires blocks { blocks ≡ length sound.now.flow.order }
    ensures count { result ≡ cases_before sound.now (length sound.now.flow.order) }
    ensures few { result ≤ MAX_CASES }
{
    let mut count = 0;
    for at in 0..blocks {
        let place = place_at(sound, at);
        let block = block_in(sound, place);
        let mine = case_count(&block.end);
        count += mine;
    }
    count
}

/// How many cases a terminator has. It takes no memory.
pub fn case_count(end: &End) -> usize
    ensures { result ≡ length (cases_of end.now) }
{
    match end {
        End::Switch { cases, .. } => cases.items().len(),
        End::RetVoid => 0,
        End::Ret { .. } => 0,
        End::Br { .. } => 0,
        End::CondBr { .. } => 0,
        End::Unreachable => 0,
    }
}
