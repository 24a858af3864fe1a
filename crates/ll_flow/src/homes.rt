ghost use Rattle.std.specs.Prelude.{◌≡◌, ◌++◌, ◌∷◌, [], map, IfOk, OnOk};
ghost use Rattle.std.specs.List.{flat_map};
ghost use Rattle.ll_rules.specs.Items.{result_width};
ghost use Rattle.ll_items.specs.Sites.{site_of, sites_of};
ghost use Rattle.ll_flow.specs.declared.homes.Home.TheVariants as home;
ghost use Rattle.ll_flow.specs.Homes as spec;

use ll_items::{ItemRef, SiteRef, Sites};
use ll_tree::{Func, Op, Param};
use std::alloc::Global;
use wx_base::{NoMemory, Sequence};

/// Where a value is given: a parameter before each path begins, a phi or an instruction in its block, with
/// so many items before it.
#[derive(Clone, Copy, Debug, PartialEq, Eq)]
pub enum Home {
    Param,
    At { block: u32, item: u32 },
}

/// Where each value is given, by the values' numbers.
pub fn homes_of(alloc: Global, func: &Func, sites: &Sites) -> Result<Sequence<Home>, NoMemory>
    requires { sites.now ≡ sites_of func.now }
    ensures { IfOk result (λ homes. homes ≡ map (λ home. home.1) (spec.homes_of func.now)) }
{
    let mut homes = Sequence::new(alloc);
    push_params(&mut homes, func.params.items())?;
    push_sites(&mut homes, sites.items())?;
    Ok(homes)
}

fn push_params(homes: &mut Sequence<Home>, params: &[Param]) -> Result<(), NoMemory>
    ensures { OnOk result (homes.new ≡ homes.old ++ map (λ param. home.Param) params.now) }
{
    for _param in params {
        homes.push(Home::Param)?;
    }
    Ok(())
}

fn push_sites(homes: &mut Sequence<Home>, sites: &[SiteRef]) -> Result<(), NoMemory>
    ensures { OnOk result
        (homes.new ≡ homes.old
        ++ map (λ home. home.1) (flat_map spec.site_homes (map site_of sites.now))) }
{
    for site in sites {
        push_site(homes, *site)?;
    }
    Ok(())
}

fn push_site(homes: &mut Sequence<Home>, site: SiteRef) -> Result<(), NoMemory>
    ensures { OnOk result
        (homes.new ≡ homes.old ++ map (λ home. home.1) (spec.site_homes (site_of site.entry))) }
{
    let home = Home::At {
        block: site.block,
        item: site.item,
    };
    match site.what {
        ItemRef::Phi(_) => homes.push(home),
        ItemRef::Instr(instr) => push_result(homes, home, &instr.op),
        ItemRef::End(_) => Ok(()),
    }
}

fn push_result(homes: &mut Sequence<Home>, home: Home, op: &Op) -> Result<(), NoMemory>
    ensures { OnOk result
        (homes.new ≡ homes.old
        ++ map (λ home. home.1) (spec.result_home [] home (result_width op.now))) }
{
    match op {
        Op::Assume { .. } => Ok(()),
        _ => homes.push(home),
    }
}
