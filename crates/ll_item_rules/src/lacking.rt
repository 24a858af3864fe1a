ghost use Rattle.std.specs.Prelude.{◌≡◌, map, is_some};
ghost use Rattle.std.specs.Option.{option_copied};
ghost use Rattle.ll_rules.specs.Items.{parts_of};
ghost use Rattle.ll_items.specs.Parts.{part_of};
ghost use Rattle.ll_item_rules.specs.Lacking as spec;

use crate::{SiteTest, ValueTable};
use ll_items::{PartRef, SiteRef};
use ll_tree::Operand;
use name_table::NameTable;
use std::alloc::Global;
use wx_base::{Name, NoMemory};

/// The rule that each operand names a value and each label a block.
#[derive(Clone, Copy)]
pub struct Lacking<'t, 'a> {
    pub values: &'t ValueTable<'a>,
    pub labels: &'t NameTable<'a>,
}

impl<'t, 'a> SiteTest for Lacking<'t, 'a> {
    ghost fails = { λ test site. is_some
        (spec.lacking_name test.values.now test.labels.now (parts_of site.what)) };

    fn fails(&self, _alloc: Global, _site: SiteRef, parts: &[PartRef]) -> Result<bool, NoMemory> {
        Ok(lacking_name(self.values, self.labels, parts).is_some())
    }
}

/// The first name of these operands and labels that is no value's or no block's.
pub fn lacking_name<'a>(
    values: &ValueTable,
    labels: &NameTable,
    parts: &[PartRef<'a>],
) -> Option<&'a Name>
    ensures { option_copied result
        ≡ spec.lacking_name values.now labels.now (map part_of parts.now) }
{
    for part in parts {
        let name = lacking_in(values, labels, *part);
        if name.is_some() {
            return name;
        }
    }
    None
}

fn lacking_in<'a>(values: &ValueTable, labels: &NameTable, part: PartRef<'a>) -> Option<&'a Name>
    ensures { option_copied result ≡ spec.lacking_in values.now labels.now (part_of part.entry) }
{
    match part {
        PartRef::Use { operand, .. } => lacking_value(values, operand),
        PartRef::Goal { label } => lacking_label(labels, label),
    }
}

fn lacking_value<'a>(values: &ValueTable, operand: &'a Operand) -> Option<&'a Name>
    ensures { option_copied result ≡ spec.lacking_value values.now operand.now }
{
    let Operand::Name(name) = operand else {
        return None;
    };
    if values.number(name.bytes()).is_some() {
        return None;
    }
    Some(name)
}

fn lacking_label<'a>(labels: &NameTable, label: &'a Name) -> Option<&'a Name>
    ensures { option_copied result ≡ spec.lacking_label labels.now label.now }
{
    if labels.find(label.bytes()).is_some() {
        return None;
    }
    Some(label)
}
