ghost use Rattle.std.specs.Prelude.{◌≡◌, ◌<◌, ◌≤◌, map, sum_by, length, All, IfOk, IfErr};
ghost use Rattle.ll_rules.specs.Items.{labels_of, values_of};
ghost use Rattle.ll_links.specs.Items.{items_at, item_at};
ghost use Rattle.ll_links.specs.Links.{AreLinks, IsPhi, block_id, source_coming};
ghost use Rattle.ll_flow.specs.Paths.{label_of};
ghost use Rattle.ll_tree.specs.Formed.{IsFormed};
ghost use Rattle.ll_verifier.specs.Rules.{IsRefusal, Rules};
ghost use Rattle.ll_verifier.specs.Order.{position_edge};
ghost use Rattle.ll_verifier.specs.Sound as spec;
ghost use Rattle.ll_verifier.specs.Sound.{IsChecked, IsSound};

use crate::items::check;
use crate::paths::Checked;
use crate::{PositionEdge, Rejected, VerifyFault};
use ll_links::{BlockId, Links, Source};
use ll_tree::{Func, Param};
use std::alloc::Global;
use std::marker::Model;

/// A function that keeps all rules of its language, with the order of its blocks and its edges.
///
/// Contracts see the function, its flow by the places of its blocks, and the numbers of what its items name.
#[derive(Drop)]
pub struct Sound {
    func: Func,
    checked: Checked,
    bits: u32,
}

impl Model for Sound {
    ghost use Rattle.ll_verifier.specs.Sound.{SoundFunc};

    ghost Value = { SoundFunc };

    ghost use Rattle.ll_verifier.specs.Sound.{sound_of, IsKept};

    ghost view = { sound_of };

    ghost invariant = { IsKept };
}

/// The function as a sound one, exactly where it keeps all rules; else the first rule that it breaks, and
/// the function as it came.
pub fn verify(alloc: Global, func: Func) -> Result<Sound, Rejected>
    requires { IsFormed func }
    ensures func { IfOk result (λ sound. sound.func ≡ func) }
    ensures sound { IfOk result IsSound }
    ensures same { IfErr result (λ rejected. rejected.func ≡ func) }
    ensures fault { IfErr result (λ rejected. IsRefusal func rejected.fault) }
{
    match check(alloc, &func) {
        Ok(Ok(checked)) => Ok(Sound::new(func, checked)),
        Ok(Err(fault)) => Err(Rejected { func, fault }),
        Err(_) => Err(Rejected {
            func,
            fault: VerifyFault::NoMemory,
        }),
    }
}

impl Sound {
    fn new(func: Func, checked: Checked) -> Sound
        requires formed { IsFormed func }
        requires checked { IsChecked func checked }
        ensures func { result.func ≡ func }
        ensures sound { IsSound result }
    {
        let bits = bits_of(func.params.items());
        Sound {
            func,
            checked,
            bits,
        }
    }

    /// The function. It takes no memory.
    pub fn func(&self) -> &Func
        ensures func { result.now ≡ self.now.func }
        ensures rules { Rules self.now.func }
    {
        &self.func
    }

    /// The blocks in the kept order: again and again the block of least place in the file whose predecessors
    /// have all been taken. It takes no memory.
    pub fn order(&self) -> &[BlockId]
        ensures order { result.now ≡ map block_id self.now.flow.order }
        ensures sound { IsSound self.now }
    {
        self.checked.order.as_slice()
    }

    /// The edges by positions in the kept order, each pair once, sorted. It takes no memory.
    pub fn edges(&self) -> &[PositionEdge]
        ensures edges { result.now ≡ map position_edge self.now.flow.edges }
        ensures sound { IsSound self.now }
    {
        self.checked.edges.as_slice()
    }

    /// What an item names and what it gives, by numbers: the item of the block that stands behind so many of its
    /// phis and instructions; the terminator is the last. It takes no memory and constant time.
    pub fn links(&self, block: BlockId, item: u32) -> Links
        requires { item < length (items_at self.now.func.blocks block.0) }
        ensures links { AreLinks (values_of self.now.func) (labels_of self.now.func)
            (item_at self.now.func.blocks block.0 item) result }
        ensures sound { IsSound self.now }
    {
        self.checked.links.item(block, item)
    }

    /// What the operand of a phi stands for where the block before on the path is `from`: that of the first entry
    /// that names it, `None` where none does. It takes no memory.
    pub fn incoming(&self, block: BlockId, phi: u32, from: BlockId) -> Option<Source>
        requires item { phi < length (items_at self.now.func.blocks block.0) }
        requires phi { IsPhi (item_at self.now.func.blocks block.0 phi) }
        requires from { from.0 < length self.now.func.blocks }
        ensures { result ≡ source_coming (values_of self.now.func) (label_of self.now.func from.0)
            (item_at self.now.func.blocks block.0 phi) }
    {
        self.links(block, phi).source_from(from)
    }

    /// The sum of the parameters' widths.
    pub fn bits(&self) -> u32
        ensures { result ≡ spec.bits_of self.now.func }
    {
        self.bits
    }
}

fn bits_of(params: &[Param]) -> u32
    requires few { length params.now ≤ 64 }
    requires widths { All (λ param. param.width ≤ 32) params.now }
    ensures { result ≡ sum_by (λ param. param.width) params.now }
{
    let mut bits = 0;
    for param in params {
        bits += param.width;
    }
    bits
}
