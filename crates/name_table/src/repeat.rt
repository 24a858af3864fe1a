ghost use Rattle.std.specs.Prelude.{◌≡◌, IfOk, MatchOption, map};
ghost use Rattle.name_table.specs.Names.{AreDifferent, IsFirstRepeat};

use crate::NameTable;
use std::alloc::Global;
use wx_base::NoMemory;

/// The first place at which a name stands that stood before, `None` exactly where all names differ.
pub fn first_repeat(alloc: Global, names: &[&[u8]]) -> Result<Option<usize>, NoMemory>
    ensures { let spelled = map (λ name. name.now) names.now in
        IfOk result (λ repeat. MatchOption repeat (AreDifferent spelled) (IsFirstRepeat spelled)) }
{
    let mut table = NameTable::new(alloc);
    for (at, name) in names.iter().enumerate() {
        if !table.add(name)? {
            return Ok(Some(at));
        }
    }
    Ok(None)
}

/// The table of different names, in their order.
pub fn table_of<'a>(alloc: Global, names: &[&'a [u8]]) -> Result<NameTable<'a>, NoMemory>
    requires { AreDifferent (map (λ name. name.now) names.now) }
    ensures { IfOk result (λ table. table ≡ map (λ name. name.now) names.now) }
{
    let mut table = NameTable::new(alloc);
    for name in names {
        table.add(name)?;
    }
    Ok(table)
}
