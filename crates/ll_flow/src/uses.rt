ghost use Rattle.std.specs.Prelude.{◌≡◌, ◌↔◌, ◌<◌, ◌∷◌, [], map, length, true, false, None, All, Contains, IsTrue, IfOk, MatchOption, is_some};
ghost use Rattle.std.specs.List.{flat_map};
ghost use Rattle.ll_rules.specs.Items.{OfPhi, parts_of};
ghost use Rattle.ll_items.specs.Parts.{part_of};
ghost use Rattle.ll_items.specs.Sites.{site_of, item_of};
ghost use Rattle.name_table.specs.Names.{place_of};
ghost use Rattle.ll_item_rules.specs.First.{NoneFails};
ghost use Rattle.ll_item_rules.specs.Lacking as lacking;
ghost use Rattle.ll_flow.specs.Homes as homes;
ghost use Rattle.ll_flow.specs.Paths.{label_of};
ghost use Rattle.ll_flow.specs.Uses as spec;
ghost use Rattle.ll_flow.specs.Found.{Agrees, AreUses, Finds};
ghost use Rattle.ll_flow.specs.declared.uses.Moment.TheVariants as moment;

use crate::Home;
use flow_rules::{Flow, Use};
use ll_item_rules::ValueTable;
use ll_items::{ItemRef, PartRef, Parts, SiteRef, push_parts};
use ll_tree::{Func, Operand, Phi, PhiEntry};
use name_table::NameTable;
use std::alloc::Global;
use wx_base::{Name, NoMemory};

/// When a block uses a value.
#[derive(Clone, Copy, Debug, PartialEq, Eq)]
pub enum Moment {
    /// At the item that so many items stand before.
    At(u32),
    /// Behind all items, where the block is left.
    Leaving,
}

/// What uses are looked up in.
#[derive(Clone, Copy)]
pub struct Uses<'t, 'a> {
    pub func: &'t Func,
    pub flow: &'t Flow,
    pub homes: &'t [Home],
    pub values: &'t ValueTable<'a>,
    pub labels: &'t NameTable<'a>,
}

/// A use of a value that isn't defined on every path to it.
#[derive(Clone, Copy)]
pub struct Undefined<'a> {
    pub site: SiteRef<'a>,
    pub name: &'a Name,
    pub it: Use,
}

/// The first use by these items whose value isn't defined on every path to it.
pub fn first_in_sites<'a>(
    alloc: Global,
    uses: &Uses,
    sites: &[SiteRef<'a>],
) -> Result<Option<Undefined<'a>>, NoMemory>
    requires tables { AreUses uses.now }
    requires within { All (λ site. site.block < length uses.now.func.now.blocks)
        (map site_of sites.now) }
    requires named { NoneFails
        (λ site. is_some
        (lacking.lacking_name uses.now.values.now uses.now.labels.now (parts_of site.what)))
        (map site_of sites.now) }
    ensures { IfOk result
        (Finds uses.now (flat_map (spec.site_uses uses.now.func.now) (map site_of sites.now))) }
{
    let mut parts = Parts::new(alloc);
    for site in sites {
        parts.clear();
        push_parts(&mut parts, site.what)?;
        match first_in_site(uses, *site, parts.items()) {
            Some(found) => return Ok(Some(found)),
            None => {}
        }
    }
    Ok(None)
}

fn first_in_site<'a>(uses: &Uses, site: SiteRef<'a>, parts: &[PartRef<'a>]) -> Option<Undefined<'a>>
    requires tables { AreUses uses.now }
    requires within { site.block < length uses.now.func.now.blocks }
    requires parts { map part_of parts.now ≡ parts_of (item_of site.what) }
    requires named { is_some
        (lacking.lacking_name uses.now.values.now uses.now.labels.now
        (parts_of (item_of site.what))) ≡ false }
    ensures { Finds uses.now (spec.site_uses uses.now.func.now (site_of site.entry)) result }
{
    match site.what {
        ItemRef::Phi(phi) => first_in_phi(uses, site, phi),
        ItemRef::Instr(_) => first_in_parts(uses, site, parts),
        ItemRef::End(_) => first_in_parts(uses, site, parts),
    }
}

fn first_in_phi<'a>(uses: &Uses, site: SiteRef<'a>, phi: &'a Phi) -> Option<Undefined<'a>>
    requires tables { AreUses uses.now }
    requires here { site.block < length uses.now.func.now.blocks }
    requires named { is_some
        (lacking.lacking_name uses.now.values.now uses.now.labels.now (parts_of (OfPhi phi.now)))
        ≡ false }
    ensures { Finds uses.now
        (flat_map (spec.entry_uses (site_of site.entry)) phi.now.entries) result }
{
    let entries = phi.entries.items();
    for entry in entries {
        match in_entry(uses, site, entry) {
            Some(found) => return Some(found),
            None => {}
        }
    }
    None
}

fn in_entry<'a>(uses: &Uses, site: SiteRef<'a>, entry: &'a PhiEntry) -> Option<Undefined<'a>>
    requires tables { AreUses uses.now }
    requires here { site.block < length uses.now.func.now.blocks }
    requires value { is_some (lacking.lacking_value uses.now.values.now entry.now.value) ≡ false }
    requires from { is_some (lacking.lacking_label uses.now.labels.now entry.now.from) ≡ false }
    ensures { Finds uses.now (spec.entry_uses (site_of site.entry) entry.now) result }
{
    match uses.labels.find(entry.from.bytes()) {
        Some(block) => in_operand(uses, site, &entry.value, block as u32, Moment::Leaving),
        None => None,
    }
}

fn first_in_parts<'a>(
    uses: &Uses,
    site: SiteRef<'a>,
    parts: &[PartRef<'a>],
) -> Option<Undefined<'a>>
    requires tables { AreUses uses.now }
    requires within { site.block < length uses.now.func.now.blocks }
    requires named { is_some
        (lacking.lacking_name uses.now.values.now uses.now.labels.now (map part_of parts.now))
        ≡ false }
    ensures { Finds uses.now
        (flat_map (spec.part_uses (site_of site.entry) (label_of uses.now.func.now site.entry.block)
        (moment.At site.entry.item))
        (map part_of parts.now)) result }
{
    for part in parts {
        match in_part(uses, site, *part) {
            Some(found) => return Some(found),
            None => {}
        }
    }
    None
}

fn in_part<'a>(uses: &Uses, site: SiteRef<'a>, part: PartRef<'a>) -> Option<Undefined<'a>>
    requires tables { AreUses uses.now }
    requires within { site.block < length uses.now.func.now.blocks }
    requires named { is_some
        (lacking.lacking_in uses.now.values.now uses.now.labels.now (part_of part)) ≡ false }
    ensures { Finds uses.now
        (spec.part_uses (site_of site.entry) (label_of uses.now.func.now site.entry.block)
        (moment.At site.entry.item)
        (part_of part.entry)) result }
{
    match part {
        PartRef::Use { operand, .. } => {
            in_operand(uses, site, operand, site.block, Moment::At(site.item))
        }
        PartRef::Goal { .. } => None,
    }
}

fn in_operand<'a>(
    uses: &Uses,
    site: SiteRef<'a>,
    operand: &'a Operand,
    block: u32,
    moment: Moment,
) -> Option<Undefined<'a>>
    requires tables { AreUses uses.now }
    requires here { site.block < length uses.now.func.now.blocks }
    requires within { block < length uses.now.func.now.blocks }
    requires named { is_some (lacking.lacking_value uses.now.values.now operand.now) ≡ false }
    ensures { Finds uses.now
        (spec.operand_uses (site_of site.entry)
        (label_of uses.now.func.now block) moment operand.now) result }
{
    match operand {
        Operand::Name(name) => in_name(uses, site, name, block, moment),
        Operand::Const(_) => None,
        Operand::Poison => None,
    }
}

fn in_name<'a>(
    uses: &Uses,
    site: SiteRef<'a>,
    name: &'a Name,
    block: u32,
    moment: Moment,
) -> Option<Undefined<'a>>
    requires tables { AreUses uses.now }
    requires here { site.block < length uses.now.func.now.blocks }
    requires within { block < length uses.now.func.now.blocks }
    requires named { is_some (place_of name.now (map (λ value. value.0) uses.now.values.now))
        ≡ true }
    ensures { Finds uses.now ((record {
      site = site_of site.entry;
      name = name.now;
      block = label_of uses.now.func.now block;
      moment = moment;
    }) ∷ []) result }
{
    let Some(home) = home_of(uses, name) else {
        return None;
    };
    let it = usage(home, block, moment);
    if uses.flow.is_defined(&it) {
        return None;
    }
    Some(Undefined { site, name, it })
}

// Where the value with this name is given.
fn home_of(uses: &Uses, name: &Name) -> Option<Home>
    requires { AreUses uses.now }
    ensures { MatchOption result
        (place_of name.now (map (λ value. value.0) uses.now.values.now) ≡ None)
        (λ home. Contains (homes.homes_of uses.now.func.now) (name.now, home)) }
{
    match uses.values.number(name.bytes()) {
        Some(number) => Some(uses.homes[number]),
        None => None,
    }
}

// A use in a block of a value that is given there, by places.
fn usage(home: Home, block: u32, moment: Moment) -> Use
    ensures agrees { Agrees home moment result }
    ensures block { result.block ≡ block }
{
    match home {
        Home::Param => Use {
            definition: 0,
            block,
            comes_first: true,
        },
        Home::At {
            block: definition,
            item,
        } => Use {
            definition,
            block,
            comes_first: comes_before(item, moment),
        },
    }
}

fn comes_before(item: u32, moment: Moment) -> bool
    ensures { IsTrue result ↔ spec.ComesBefore item moment }
{
    match moment {
        Moment::At(other) => item < other,
        Moment::Leaving => true,
    }
}
