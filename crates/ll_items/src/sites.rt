ghost use Rattle.std.specs.Prelude.{◌≡◌, ◌+◌, ◌<◌, ◌≤◌, ◌++◌, ◌∷◌, ◌^◌, [], map, length, IfOk, OnOk, OnErr};
ghost use Rattle.ll_rules.specs.Items as items;
ghost use Rattle.ll_rules.specs.Limits.{KeepsLimits};
ghost use Rattle.ll_items.specs.Sites.{item_of, site_of, sites_from, sites_of};

use ll_tree::{Block, End, Func, Instr, Phi};
use std::alloc::Global;
use std::marker::Model;
use wx_base::NoMemory;

/// A phi, an instruction or a terminator, lent by a function.
#[derive(Clone, Copy)]
pub enum ItemRef<'a> {
    Phi(&'a Phi),
    Instr(&'a Instr),
    End(&'a End),
}

/// An item and where it stands: the place of its block in the file, and how many phis and instructions of
/// the block stand before it.
#[derive(Clone, Copy)]
pub struct SiteRef<'a> {
    pub block: u32,
    pub item: u32,
    pub what: ItemRef<'a>,
}

/// Items with their places, in the order of the text.
#[derive(Drop)]
pub struct Sites<'a> {
    sites: Vec<SiteRef<'a>>,
}

impl<'a> Model for Sites<'a> {
    ghost use Rattle.std.specs.Prelude.{List, map};
    ghost use Rattle.ll_items.specs.Sites.{Site, site_of};

    ghost Value = { List Site };

    ghost view = { λ list. map site_of list.sites.items };
}

impl<'a> Sites<'a> {
    /// The list without an item. It takes no memory.
    pub fn new(alloc: Global) -> Sites<'a>
        ensures { result ≡ [] }
    {
        Sites {
            sites: Vec::new(alloc),
        }
    }

    /// Adds an item at the end.
    pub fn push(&mut self, site: SiteRef<'a>) -> Result<(), NoMemory>
        ensures ok { OnOk result (self.new ≡ self.old ++ site_of site.entry ∷ []) }
        ensures err { OnErr result (self.new ≡ self.old) }
    {
        self.sites.push(site)?;
        Ok(())
    }

    /// The items in order.
    pub fn items(&self) -> &[SiteRef<'a>]
        ensures { map site_of result.now ≡ self.now }
    {
        self.sites.as_slice()
    }
}

/// All items of a function, with their places.
pub fn list_sites(alloc: Global, func: &Func) -> Result<Sites, NoMemory>
    requires { KeepsLimits func.now }
    ensures { IfOk result (λ list. list ≡ sites_of func.now) }
{
    let mut list = Sites::new(alloc);
    for (at, block) in func.blocks.items().iter().enumerate() {
        push_block(&mut list, at as u32, block)?;
    }
    Ok(list)
}

fn push_block<'a>(list: &mut Sites<'a>, at: u32, block: &'a Block) -> Result<(), NoMemory>
    requires { length block.now.phis + length block.now.body < 2 ^ 32 }
    ensures { OnOk result (list.new ≡ list.old ++ sites_from at 0 (items.items_of block.now)) }
{
    let phis = block.phis.len() as u32;
    let body = block.body.len() as u32;
    push_phis(list, at, block.phis.items())?;
    push_body(list, at, phis, block.body.items())?;
    list.push(SiteRef {
        block: at,
        item: phis + body,
        what: ItemRef::End(&block.end),
    })
}

fn push_phis<'a>(list: &mut Sites<'a>, block: u32, phis: &'a [Phi]) -> Result<(), NoMemory>
    requires { length phis.now < 2 ^ 32 }
    ensures { OnOk result (list.new ≡ list.old ++ sites_from block 0 (map items.OfPhi phis.now)) }
{
    for (at, phi) in phis.iter().enumerate() {
        list.push(SiteRef {
            block,
            item: at as u32,
            what: ItemRef::Phi(phi),
        })?;
    }
    Ok(())
}

fn push_body<'a>(
    list: &mut Sites<'a>,
    block: u32,
    first: u32,
    body: &'a [Instr],
) -> Result<(), NoMemory>
    requires { first + length body.now < 2 ^ 32 }
    ensures { OnOk result (list.new
        ≡ list.old ++ sites_from block first (map items.OfInstr body.now)) }
{
    for (at, instr) in body.iter().enumerate() {
        list.push(SiteRef {
            block,
            item: first + at as u32,
            what: ItemRef::Instr(instr),
        })?;
    }
    Ok(())
}
