ghost use Rattle.std.specs.Prelude.{◌≡◌, IfOk, IsTrue, true};
ghost use Rattle.ll_phi_rules.specs.Phis as spec;

use crate::phis::same_operand;
use ll_tree::PhiEntry;
use name_table::NameTable;
use std::alloc::Global;
use wx_base::NoMemory;

// Whether each entry has the operand of the first for its block. For each place of a label an entry is kept:
// where that entry names another block, none for this block came before.
pub fn operands_agree(
    alloc: Global,
    labels: &NameTable,
    entries: &[PhiEntry],
) -> Result<bool, NoMemory>
    ensures { IfOk result (λ agree. IsTrue agree → spec.all_agree entries.now ≡ true) }
{
    let mut firsts = vec![in alloc; 0; labels.len()]?;
    for (at, entry) in entries.iter().enumerate() {
        let Some(place) = labels.find(entry.from.bytes()) else {
            return Ok(false);
        };
        let first = &entries[firsts[place]];
        if first.from.bytes() != entry.from.bytes() {
            firsts[place] = at;
            continue;
        }
        if !same_operand(&first.value, &entry.value) {
            return Ok(false);
        }
    }
    Ok(true)
}
