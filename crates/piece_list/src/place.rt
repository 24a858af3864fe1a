ghost use Rattle.std.specs.Prelude.{◌≡◌, ◌<◌, length, slice_index_or};
ghost use Rattle.ll_verifier.specs.Sound.{IsSound};
ghost use Rattle.path_encoding.specs.Spots as spec;

use ll_links::{BlockId, Position};
use ll_tree::Block;
use ll_verifier::Sound;
use portion_cuts::block_at;

/// The block at a position of the kept order. It takes no memory.
pub fn block_of(sound: &Sound, at: u32) -> &Block
    requires { at < length sound.now.flow.order }
    ensures block { result.now ≡ spec.block_at sound.now at }
    ensures sound { IsSound sound.now }
{
    let place = block_at(sound, Position(at));
    block_in(sound, place)
}

fn block_in(sound: &Sound, place: BlockId) -> &Block
    requires { place.0 < length sound.now.func.blocks }
    ensures { result.now ≡ slice_index_or sound.now.func.blocks place.0 result.now }
{
    &sound.func().blocks.items()[place.0 as usize]
}
