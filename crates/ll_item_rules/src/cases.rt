ghost use Rattle.std.specs.Prelude.{◌≡◌, map, is_some, IfOk};
ghost use Rattle.ll_items.specs.Sites.{item_of};
ghost use Rattle.ll_item_rules.specs.Cases as spec;

use crate::SiteTest;
use indexmap::IndexSet;
use ll_items::{ItemRef, PartRef, SiteRef};
use ll_tree::{Case, End};
use std::alloc::Global;
use wx_base::NoMemory;

/// The rule that no switch has a number twice.
#[derive(Clone, Copy)]
pub struct RepeatedCase;

impl SiteTest for RepeatedCase {
    ghost fails = { λ test site. is_some (spec.repeated_case site.what) };

    fn fails(&self, alloc: Global, site: SiteRef, _parts: &[PartRef]) -> Result<bool, NoMemory> {
        Ok(repeated_case(alloc, site.what)?.is_some())
    }
}

/// The number of a switch whose second place comes first, `None` where all numbers differ or the item is
/// no switch.
pub fn repeated_case(alloc: Global, item: ItemRef) -> Result<Option<u32>, NoMemory>
    ensures { IfOk result (λ repeated. repeated ≡ spec.repeated_case (item_of item.entry)) }
{
    match item {
        ItemRef::End(End::Switch { cases, .. }) => repeated(alloc, cases.items()),
        _ => Ok(None),
    }
}

fn repeated(alloc: Global, cases: &[Case]) -> Result<Option<u32>, NoMemory>
    ensures { IfOk result (λ repeated.
        repeated ≡ spec.repeated (map (λ case. case.value) cases.now)) }
{
    let mut seen: IndexSet<u32> = IndexSet::new(alloc);
    for case in cases {
        if !seen.insert(case.value)? {
            return Ok(Some(case.value));
        }
    }
    Ok(None)
}
