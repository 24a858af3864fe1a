ghost use Rattle.std.specs.Prelude.{◌≡◌, ◌++◌, map, length, slice_index_or, IfOk, OnOk, IsTrue};
ghost use Rattle.ll_rules.specs.Items.{targets_of};
ghost use Rattle.name_table.specs.Names.{AreDifferent};
ghost use Rattle.ll_phi_rules.specs.Counts.{counts_of, target_counts};

use ll_items::NameList;
use ll_tree::{Block, Case, End, PhiEntry};
use name_table::NameTable;
use std::alloc::Global;
use wx_base::{NoMemory, Sequence};

// How often the targets of each block name each label.
pub fn count_targets(
    alloc: Global,
    labels: &NameTable,
    blocks: &[Block],
) -> Result<Sequence<Sequence<u64>>, NoMemory>
    requires { AreDifferent labels.now }
    ensures { IfOk result (λ rows. rows ≡ target_counts labels.now blocks.now) }
{
    let mut rows = Sequence::new(alloc);
    for block in blocks {
        let targets = list_targets(alloc, &block.end)?;
        let counts = count_names(alloc, labels, targets.items())?;
        rows.push(counts)?;
    }
    Ok(rows)
}

// How often the entries name each label.
pub fn count_froms(
    alloc: Global,
    labels: &NameTable,
    entries: &[PhiEntry],
) -> Result<Sequence<u64>, NoMemory>
    requires { AreDifferent labels.now }
    ensures { IfOk result (λ counts.
        counts ≡ counts_of labels.now (map (λ entry. entry.from) entries.now)) }
{
    let froms = list_froms(alloc, entries)?;
    count_names(alloc, labels, froms.items())
}

// How often each label stands among names.
fn count_names(
    alloc: Global,
    labels: &NameTable,
    names: &[&[u8]],
) -> Result<Sequence<u64>, NoMemory>
    requires { AreDifferent labels.now }
    ensures { IfOk result (λ counts.
        counts ≡ counts_of labels.now (map (λ name. name.now) names.now)) }
{
    let mut counts = vec![in alloc; 0; labels.len()]?;
    for name in names {
        let Some(place) = labels.find(name) else {
            continue;
        };
        counts[place] += 1;
    }
    Ok(Sequence::from_vec(counts))
}

// Whether these are the numbers at one place of each row.
pub fn is_column(rows: &[Sequence<u64>], place: usize, numbers: &[u64]) -> bool
    requires { length numbers.now ≡ length rows.now }
    ensures { IsTrue result → numbers.now ≡ map (λ row. slice_index_or row place 0) rows.now }
{
    for (at, row) in rows.iter().enumerate() {
        if number_at(row.items(), place) != numbers[at] {
            return false;
        }
    }
    true
}

// The number at a place, 0 past the end.
fn number_at(numbers: &[u64], place: usize) -> u64
    ensures { result ≡ slice_index_or numbers.now place 0 }
{
    match numbers.get(place) {
        Some(number) => *number,
        None => 0,
    }
}

fn list_froms<'a>(alloc: Global, entries: &'a [PhiEntry]) -> Result<NameList<'a>, NoMemory>
    ensures { IfOk result (λ list. list ≡ map (λ entry. entry.from) entries.now) }
{
    let mut list = NameList::new(alloc);
    for entry in entries {
        list.push(entry.from.bytes())?;
    }
    Ok(list)
}

// The labels to which a terminator may go, as often as they are written.
fn list_targets<'a>(alloc: Global, end: &'a End) -> Result<NameList<'a>, NoMemory>
    ensures { IfOk result (λ list. list ≡ targets_of end.now) }
{
    let mut list = NameList::new(alloc);
    match end {
        End::RetVoid | End::Ret { .. } | End::Unreachable => {}
        End::Br { to } => list.push(to.bytes())?,
        End::CondBr { yes, no, .. } => {
            list.push(yes.bytes())?;
            list.push(no.bytes())?;
        }
        End::Switch { default, cases, .. } => {
            list.push(default.bytes())?;
            push_cases(&mut list, cases.items())?;
        }
    }
    Ok(list)
}

fn push_cases<'a>(list: &mut NameList<'a>, cases: &'a [Case]) -> Result<(), NoMemory>
    ensures { OnOk result (list.new ≡ list.old ++ map (λ case. case.to) cases.now) }
{
    for case in cases {
        list.push(case.to.bytes())?;
    }
    Ok(())
}
