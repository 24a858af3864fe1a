ghost use Rattle.std.specs.Prelude.{◌≡◌, ◌≤◌, length, IfOk, MatchOption, MatchResult, map, is_some};
ghost use Rattle.ll_rules.specs.Limits.{KeepsLimits};
ghost use Rattle.ll_items.specs.Sites.{sites_of};
ghost use Rattle.ll_item_rules.specs.First.{NoneFails};
ghost use Rattle.ll_item_rules.specs.Constants.{is_not_linear, has_bad_divisor};
ghost use Rattle.ll_phi_rules.specs.Phis.{differ_at};
ghost use Rattle.ll_verifier.specs.Rules as rules;
ghost use Rattle.ll_verifier.specs.Sound.{IsChecked};
ghost use Rattle.ll_verifier.specs.Tables.{AreTables};

use crate::VerifyFault;
use crate::paths::{Checked, check_paths};
use crate::spot::{first_spot, spot};
use crate::tables::{Tables, tables_of};
use ll_item_rules::{
    BadDivisor, Lacking, NotLinear, RepeatedCase, TypeDiffers, first_site, lacking_name,
    repeated_case,
};
use ll_items::{Parts, list_names, push_parts};
use ll_links::resolve;
use ll_phi_rules::PhiEntriesDiffer;
use ll_rules::first_excess;
use ll_tree::Func;
use name_table::first_repeat;
use std::alloc::Global;
use wx_base::{Name, NoMemory};

/// The flow of a function of one block at least and the numbers of what each item names, where it keeps all
/// rules; else the first rule that it breaks. That it is formed isn't asked.
pub fn check(alloc: Global, func: &Func) -> Result<Result<Checked, VerifyFault>, NoMemory>
    requires some_block { 1 ≤ length func.now.blocks }
    ensures { IfOk result
        (λ answer. MatchResult answer (IsChecked func.now) (rules.Breaks func.now)) }
{
    match first_excess(func) {
        Some(excess) => Ok(Err(VerifyFault::TooMany(excess))),
        None => check_names(alloc, func),
    }
}

fn check_names(alloc: Global, func: &Func) -> Result<Result<Checked, VerifyFault>, NoMemory>
    requires some_block { 1 ≤ length func.now.blocks }
    requires limits { KeepsLimits func.now }
    ensures { IfOk result
        (λ answer. MatchResult answer (IsChecked func.now) (rules.Breaks func.now)) }
{
    match repeated_name(alloc, func)? {
        Some(name) => Ok(Err(VerifyFault::NameTwice { name })),
        None => {
            let tables = tables_of(alloc, func)?;
            check_sites(alloc, func, &tables)
        }
    }
}

// The first name that is given twice.
fn repeated_name(alloc: Global, func: &Func) -> Result<Option<Name>, NoMemory>
    ensures { IfOk result
        (λ found. MatchOption found (rules.HasDifferentNames func.now)
        (rules.IsGivenTwice func.now)) }
{
    let names = list_names(alloc, func)?;
    let items = names.items();
    match first_repeat(alloc, items)? {
        Some(at) => Ok(Some(Name::new(alloc, items[at])?)),
        None => Ok(None),
    }
}

fn check_sites(
    alloc: Global,
    func: &Func,
    tables: &Tables,
) -> Result<Result<Checked, VerifyFault>, NoMemory>
    requires some_block { 1 ≤ length func.now.blocks }
    requires names { rules.HasNames func.now }
    requires tables { AreTables func.now tables.now }
    ensures { IfOk result
        (λ answer. MatchResult answer (IsChecked func.now) (rules.Breaks func.now)) }
{
    if let Some(fault) = missing_name(alloc, func, tables)? {
        return Ok(Err(fault));
    }
    if let Some(fault) = other_type(alloc, func, tables)? {
        return Ok(Err(fault));
    }
    if let Some(fault) = repeated_number(alloc, func, tables)? {
        return Ok(Err(fault));
    }
    if let Some(at) = first_spot(alloc, func, &tables.sites, &NotLinear)? {
        return Ok(Err(VerifyFault::NotLinear { at }));
    }
    if let Some(at) = first_spot(alloc, func, &tables.sites, &BadDivisor)? {
        return Ok(Err(VerifyFault::BadDivisor { at }));
    }
    if let Some(fault) = other_entries(alloc, func, tables)? {
        return Ok(Err(fault));
    }
    let links = resolve(alloc, func, &tables.sites, &tables.values, &tables.labels)?;
    check_paths(alloc, func, tables, links)
}

fn missing_name(
    alloc: Global,
    func: &Func,
    tables: &Tables,
) -> Result<Option<VerifyFault>, NoMemory>
    requires names { rules.HasNames func.now }
    requires tables { AreTables func.now tables.now }
    ensures { IfOk result
        (λ found. MatchOption found (NoneFails (rules.lacks_name func.now) (sites_of func.now))
        (rules.Breaks func.now)) }
{
    let test = Lacking {
        values: &tables.values,
        labels: &tables.labels,
    };
    let Some(site) = first_site(alloc, &tables.sites, &test)? else {
        return Ok(None);
    };
    let mut parts = Parts::new(alloc);
    push_parts(&mut parts, site.what)?;
    let Some(name) = lacking_name(&tables.values, &tables.labels, parts.items()) else {
        return Ok(None);
    };
    let name = Name::new(alloc, name.bytes())?;
    let at = spot(alloc, func, site)?;
    Ok(Some(VerifyFault::NoSuchName { name, at }))
}

fn other_type(alloc: Global, func: &Func, tables: &Tables) -> Result<Option<VerifyFault>, NoMemory>
    requires named { rules.IsNamed func.now }
    requires tables { AreTables func.now tables.now }
    ensures { IfOk result
        (λ found. MatchOption found (NoneFails (rules.differs func.now) (sites_of func.now))
        (rules.Breaks func.now)) }
{
    let test = TypeDiffers {
        values: &tables.values,
        ret: func.ret,
    };
    match first_spot(alloc, func, &tables.sites, &test)? {
        Some(at) => Ok(Some(VerifyFault::TypeDiffers { at })),
        None => Ok(None),
    }
}

fn repeated_number(
    alloc: Global,
    func: &Func,
    tables: &Tables,
) -> Result<Option<VerifyFault>, NoMemory>
    requires typed { rules.IsTyped func.now }
    requires tables { AreTables func.now tables.now }
    ensures { IfOk result
        (λ found. MatchOption found (NoneFails rules.repeats_case (sites_of func.now))
        (rules.Breaks func.now)) }
{
    let Some(site) = first_site(alloc, &tables.sites, &RepeatedCase)? else {
        return Ok(None);
    };
    let Some(value) = repeated_case(alloc, site.what)? else {
        return Ok(None);
    };
    let at = spot(alloc, func, site)?;
    Ok(Some(VerifyFault::DuplicateCase { at, value }))
}

fn other_entries(
    alloc: Global,
    func: &Func,
    tables: &Tables,
) -> Result<Option<VerifyFault>, NoMemory>
    requires divides { rules.Divides func.now }
    requires tables { AreTables func.now tables.now }
    ensures { IfOk result (λ found. MatchOption found
        (NoneFails (differ_at func.now.blocks) (sites_of func.now)) (rules.Breaks func.now)) }
{
    let test = PhiEntriesDiffer::new(alloc, func.blocks.items(), &tables.labels)?;
    match first_spot(alloc, func, &tables.sites, &test)? {
        Some(at) => Ok(Some(VerifyFault::PhiEntries { at })),
        None => Ok(None),
    }
}
