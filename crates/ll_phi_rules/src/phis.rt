ghost use Rattle.std.specs.Prelude.{◌≡◌, ◌≤◌, map, length, slice_index_or, [], if◌then◌else◌, IfOk, IsTrue, true, false};
ghost use Rattle.std.specs.List.{list_all};
ghost use Rattle.ll_rules.specs.Items.{targets_of};
ghost use Rattle.name_table.specs.Names.{AreDifferent};
ghost use Rattle.ll_phi_rules.specs.Phis as spec;

use crate::counts::{count_froms, count_targets, is_column};
use crate::firsts::operands_agree;
use ll_item_rules::SiteTest;
use ll_items::{ItemRef, PartRef, SiteRef};
use ll_tree::{Block, Case, End, Operand, PhiEntry};
use name_table::NameTable;
use std::alloc::Global;
use std::marker::Model;
use wx_base::{NoMemory, Sequence};

/// The rule that a phi has as many entries for a block as the block has targets that are the phi's block,
/// and one operand for it. Contracts see the blocks.
///
/// A phi that keeps the rule is seen to do so by the places of its entries' labels: by a look-up for each
/// entry, and a number for each block. Only where that isn't seen are labels compared.
#[derive(Drop)]
pub struct PhiEntriesDiffer<'t, 'a> {
    blocks: &'t [Block],
    labels: &'t NameTable<'a>,
    // How often the targets of each block name each label.
    targets: Sequence<Sequence<u64>>,
}

impl<'t, 'a> Model for PhiEntriesDiffer<'t, 'a> {
    ghost use Rattle.std.specs.Prelude.{List};
    ghost use Rattle.ll_tree.specs.declared.block.Block.{Block as BlockView};
    ghost use Rattle.ll_phi_rules.specs.Counts.{KnowsTargets};

    ghost Value = { List BlockView };

    ghost view = { λ test. test.blocks.now };

    ghost invariant = { λ test. KnowsTargets test.blocks.now test.labels.now test.targets };
}

impl<'t, 'a> SiteTest for PhiEntriesDiffer<'t, 'a> {
    ghost fails = { λ test site. spec.differ_at test site };

    fn fails(&self, alloc: Global, site: SiteRef, _parts: &[PartRef]) -> Result<bool, NoMemory> {
        match site.what {
            ItemRef::Phi(phi) => self.differ(alloc, site.block, phi.entries.items()),
            ItemRef::Instr(_) | ItemRef::End(_) => Ok(false),
        }
    }
}

impl<'t, 'a> PhiEntriesDiffer<'t, 'a> {
    /// The rule over blocks with different labels, and the table of the labels.
    pub fn new(
        alloc: Global,
        blocks: &'t [Block],
        labels: &'t NameTable<'a>,
    ) -> Result<PhiEntriesDiffer<'t, 'a>, NoMemory>
        requires labels { labels.now ≡ map (λ block. block.label) blocks.now }
        requires different { AreDifferent labels.now }
        ensures { IfOk result (λ test. test ≡ blocks.now) }
    {
        let targets = count_targets(alloc, labels, blocks)?;
        Ok(PhiEntriesDiffer {
            blocks,
            labels,
            targets,
        })
    }

    fn differ(&self, alloc: Global, block: u32, entries: &[PhiEntry]) -> Result<bool, NoMemory>
        ensures { IfOk result (λ differ. differ ≡ spec.entries_differ self.now
            (slice_index_or (map (λ block. block.label) self.now) block []) entries.now) }
    {
        if self.is_kept(alloc, block, entries)? {
            return Ok(false);
        }
        Ok(entries_differ(self.blocks, label_at(self.blocks, block), entries))
    }

    // Whether entries are seen to keep the rule by the places of their labels.
    fn is_kept(&self, alloc: Global, block: u32, entries: &[PhiEntry]) -> Result<bool, NoMemory>
        ensures { IfOk result (λ kept. IsTrue kept → spec.entries_differ self.now
            (slice_index_or (map (λ block. block.label) self.now) block []) entries.now ≡ false) }
    {
        if !self.counts_agree(alloc, block, entries)? {
            return Ok(false);
        }
        operands_agree(alloc, self.labels, entries)
    }

    fn counts_agree(
        &self,
        alloc: Global,
        block: u32,
        entries: &[PhiEntry],
    ) -> Result<bool, NoMemory>
        ensures { IfOk result (λ agree. IsTrue agree → list_all (spec.has_entries
            (slice_index_or (map (λ block. block.label) self.now) block [])
            entries.now) self.now ≡ true) }
    {
        if block as usize >= self.blocks.len() {
            return Ok(false);
        }
        let counts = count_froms(alloc, self.labels, entries)?;
        Ok(is_column(self.targets.items(), block as usize, counts.items()))
    }
}

// The label of the block at a place, empty past the end.
fn label_at(blocks: &[Block], place: u32) -> &[u8]
    ensures { result.now ≡ slice_index_or (map (λ block. block.label) blocks.now) place [] }
{
    match blocks.get(place as usize) {
        Some(block) => block.label.bytes(),
        None => b"",
    }
}

fn entries_differ(blocks: &[Block], label: &[u8], entries: &[PhiEntry]) -> bool
    ensures { result ≡ spec.entries_differ blocks.now label.now entries.now }
{
    !(all_have_entries(blocks, label, entries) && all_agree(entries))
}

fn all_have_entries(blocks: &[Block], label: &[u8], entries: &[PhiEntry]) -> bool
    ensures { result ≡ list_all (spec.has_entries label.now entries.now) blocks.now }
{
    for block in blocks {
        if entries_for(block.label.bytes(), entries) != targets_at(label, &block.end) {
            return false;
        }
    }
    true
}

// How many entries name the block.
fn entries_for(label: &[u8], entries: &[PhiEntry]) -> u64
    ensures { result ≡ spec.times label.now (map (λ entry. entry.from) entries.now) }
{
    let mut count: u64 = 0;
    for entry in entries {
        count += one_if(entry.from.bytes() == label);
    }
    count
}

// How often a terminator names the label.
fn targets_at(label: &[u8], end: &End) -> u64
    ensures { result ≡ spec.times label.now (targets_of end.now) }
{
    match end {
        End::RetVoid | End::Ret { .. } | End::Unreachable => 0,
        End::Br { to } => one_if(to.bytes() == label),
        End::CondBr { yes, no, .. } => one_if(yes.bytes() == label) + one_if(no.bytes() == label),
        End::Switch { default, cases, .. } => one_if(default.bytes() == label)
            + cases_at(label, cases.items()),
    }
}

fn cases_at(label: &[u8], cases: &[Case]) -> u64
    ensures times { result ≡ spec.times label.now (map (λ case. case.to) cases.now) }
    ensures few { result ≤ length cases.now }
{
    let mut count: u64 = 0;
    for case in cases {
        count += one_if(case.to.bytes() == label);
    }
    count
}

fn one_if(is_there: bool) -> u64
    ensures { result ≡ (if is_there then 1 else 0) }
{
    if is_there { 1 } else { 0 }
}

fn all_agree(entries: &[PhiEntry]) -> bool
    ensures { result ≡ spec.all_agree entries.now }
{
    for at in 0..entries.len() {
        let (_, later) = entries.split_at(at + 1);
        if !agrees(&entries[at], later) {
            return false;
        }
    }
    true
}

fn agrees(entry: &PhiEntry, others: &[PhiEntry]) -> bool
    ensures { result ≡ list_all (spec.agree entry.now) others.now }
{
    others.iter().all(|other| {
        other.from.bytes() != entry.from.bytes() || same_operand(&entry.value, &other.value)
    })
}

pub fn same_operand(operand: &Operand, other: &Operand) -> bool
    ensures { result ≡ spec.same_operand operand.now other.now }
{
    match (operand, other) {
        (Operand::Name(name), Operand::Name(second)) => name.bytes() == second.bytes(),
        (Operand::Const(number), Operand::Const(second)) => number == second,
        (Operand::Poison, Operand::Poison) => true,
        _ => false,
    }
}
