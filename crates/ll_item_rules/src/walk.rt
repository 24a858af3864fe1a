ghost use Rattle.std.specs.Prelude.{◌≡◌, map, IfOk, MatchOption, true};
ghost use Rattle.ll_rules.specs.Items.{parts_of};
ghost use Rattle.ll_items.specs.Parts.{part_of};
ghost use Rattle.ll_items.specs.Sites.{item_of, site_of};
ghost use Rattle.ll_item_rules.specs.First.{IsFirst, NoneFails};

use ll_items::{PartRef, Parts, SiteRef, Sites, push_parts};
use std::alloc::Global;
use wx_base::NoMemory;

/// A rule that an item may break.
pub trait SiteTest {
    ghost use Rattle.std.specs.Prelude.{Bool};
    ghost use Rattle.ll_items.specs.Sites.{Site};

    ghost fails: { Self → Site → Bool };

    /// Whether an item with these operands and labels breaks the rule. A test may take memory.
    fn fails(&self, alloc: Global, site: SiteRef, parts: &[PartRef]) -> Result<bool, NoMemory>
        requires { map part_of parts.now ≡ parts_of (item_of site.what) }
        ensures { IfOk result (λ answer. answer ≡ fails self.now (site_of site.entry)) };
}

/// The first item that breaks a rule, `None` exactly where none does.
pub fn first_site<'a, T: SiteTest>(
    alloc: Global,
    sites: &Sites<'a>,
    test: &T,
) -> Result<Option<SiteRef<'a>>, NoMemory>
    ensures { IfOk result (λ found. MatchOption found (NoneFails (T.fails test.now) sites.now)
        (λ site. IsFirst (T.fails test.now) sites.now (site_of site))) }
{
    let mut parts = Parts::new(alloc);
    let items = sites.items();
    for site in items {
        parts.clear();
        push_parts(&mut parts, site.what)?;
        if test.fails(alloc, *site, parts.items())? {
            return Ok(Some(*site));
        }
    }
    Ok(None)
}
