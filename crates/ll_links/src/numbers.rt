ghost use Rattle.std.specs.Prelude.{◌≡◌, ◌<◌, ◌^◌, length};
ghost use Rattle.ll_items.specs.Parts.{part_of};
ghost use Rattle.ll_items.specs.Sites.{item_of};
ghost use Rattle.ll_links.specs.Links as spec;

use crate::{BlockId, Source, ValueId};
use ll_item_rules::ValueTable;
use ll_items::{ItemRef, PartRef};
use ll_tree::{Op, Operand};
use name_table::NameTable;
use wx_base::Name;

/// The value that an item gives, `None` where it gives none or its name is no value's.
pub fn result_of(values: &ValueTable, item: ItemRef) -> Option<ValueId>
    requires { length values.now < 2 ^ 32 }
    ensures { result ≡ spec.result_of values.now (item_of item.entry) }
{
    match item {
        ItemRef::Phi(phi) => number_of(values, &phi.name),
        ItemRef::Instr(instr) => match instr.op {
            Op::Assume { .. } => None,
            _ => number_of(values, &instr.name),
        },
        ItemRef::End(_) => None,
    }
}

// What a part of an item stands for, where it is an operand.
pub fn source_in(values: &ValueTable, part: PartRef) -> Option<Source>
    requires { length values.now < 2 ^ 32 }
    ensures { result ≡ spec.source_in values.now (part_of part.entry) }
{
    match part {
        PartRef::Use { operand, .. } => source_of(values, operand),
        PartRef::Goal { .. } => None,
    }
}

// The block that a part of an item names, where it is a label.
pub fn block_in(labels: &NameTable, part: PartRef) -> Option<BlockId>
    requires { length labels.now < 2 ^ 32 }
    ensures { result ≡ spec.block_in labels.now (part_of part.entry) }
{
    match part {
        PartRef::Use { .. } => None,
        PartRef::Goal { label } => block_of(labels, label),
    }
}

/// What an operand stands for, `None` exactly where its name is no value's.
pub fn source_of(values: &ValueTable, operand: &Operand) -> Option<Source>
    requires { length values.now < 2 ^ 32 }
    ensures { result ≡ spec.source_of values.now operand.now }
{
    match operand {
        Operand::Name(name) => match number_of(values, name) {
            Some(number) => Some(Source::Value(number)),
            None => None,
        },
        Operand::Const(number) => Some(Source::Const(*number)),
        Operand::Poison => Some(Source::Poison),
    }
}

fn number_of(values: &ValueTable, name: &Name) -> Option<ValueId>
    requires { length values.now < 2 ^ 32 }
    ensures { result ≡ spec.number_of values.now name.now }
{
    match values.number(name.bytes()) {
        Some(number) => Some(ValueId(number as u32)),
        None => None,
    }
}

/// The block with a label, `None` exactly where no block has it.
pub fn block_of(labels: &NameTable, label: &Name) -> Option<BlockId>
    requires { length labels.now < 2 ^ 32 }
    ensures { result ≡ spec.block_of labels.now label.now }
{
    match labels.find(label.bytes()) {
        Some(place) => Some(BlockId(place as u32)),
        None => None,
    }
}
