ghost use Rattle.std.specs.Prelude.{◌≡◌, ◌<◌, IfOk, MatchOption, length};
ghost use Rattle.ll_items.specs.Sites.{site_of, sites_of};
ghost use Rattle.ll_item_rules.specs.First.{NoneFails};
ghost use Rattle.ll_verifier.specs.Rules.{spot_of, StandsFirst};

use crate::Spot;
use ll_item_rules::{SiteTest, first_site};
use ll_items::{SiteRef, Sites};
use ll_tree::Func;
use std::alloc::Global;
use wx_base::{Name, NoMemory};

// Where the first item stands that breaks a rule.
pub fn first_spot<T: SiteTest>(
    alloc: Global,
    func: &Func,
    sites: &Sites,
    test: &T,
) -> Result<Option<Spot>, NoMemory>
    requires { sites.now ≡ sites_of func.now }
    ensures { IfOk result
        (λ found. MatchOption found (NoneFails (T.fails test.now) (sites_of func.now))
        (StandsFirst func.now (T.fails test.now))) }
{
    match first_site(alloc, sites, test)? {
        Some(site) => Ok(Some(spot(alloc, func, site)?)),
        None => Ok(None),
    }
}

// Where an item stands, by its block's label.
pub fn spot(alloc: Global, func: &Func, site: SiteRef) -> Result<Spot, NoMemory>
    requires { site.block < length func.now.blocks }
    ensures { IfOk result (λ spot. spot ≡ spot_of func.now (site_of site.entry)) }
{
    let blocks = func.blocks.items();
    let block = Name::new(alloc, blocks[site.block as usize].label.bytes())?;
    Ok(Spot {
        block,
        item: site.item,
    })
}
