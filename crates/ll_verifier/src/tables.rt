ghost use Rattle.std.specs.Prelude.{IfOk};
ghost use Rattle.ll_verifier.specs.Rules.{HasNames};
ghost use Rattle.ll_verifier.specs.Tables.{AreTables};

use ll_item_rules::ValueTable;
use ll_items::{Sites, list_labels, list_sites, list_values};
use ll_tree::Func;
use name_table::{NameTable, table_of};
use std::alloc::Global;
use wx_base::NoMemory;

/// The items of a function, and its values and labels by their names.
#[derive(Drop)]
pub struct Tables<'a> {
    pub sites: Sites<'a>,
    pub values: ValueTable<'a>,
    pub labels: NameTable<'a>,
}

// The tables of a function whose names differ.
pub fn tables_of(alloc: Global, func: &Func) -> Result<Tables, NoMemory>
    requires { HasNames func.now }
    ensures { IfOk result (λ tables. AreTables func.now tables) }
{
    let sites = list_sites(alloc, func)?;
    let values = ValueTable::new(alloc, list_values(alloc, func)?)?;
    let list = list_labels(alloc, func)?;
    let labels = table_of(alloc, list.items())?;
    Ok(Tables {
        sites,
        values,
        labels,
    })
}
