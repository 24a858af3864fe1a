ghost use Rattle.std.specs.Prelude.{◌≡◌, ◌<◌, ◌++◌, ◌^◌, [], map, length, IfOk, OnOk, is_some};
ghost use Rattle.std.specs.List.{filter_map};
ghost use Rattle.ll_rules.specs.Items.{parts_of};
ghost use Rattle.ll_items.specs.Parts.{part_of};
ghost use Rattle.ll_items.specs.Sites.{sites_of};
ghost use Rattle.ll_item_rules.specs.First.{NoneFails};
ghost use Rattle.ll_item_rules.specs.Lacking.{lacking_name};
ghost use Rattle.ll_links.specs.Links as spec;
ghost use Rattle.ll_links.specs.Table.{AreWhole, HasItem, IsItem, count_items};

use crate::numbers::{block_in, result_of, source_in};
use crate::starts::list_starts;
use crate::{BlockId, Links, Source, ValueId};
use flat_lists::FlatLists;
use ll_item_rules::ValueTable;
use ll_items::{PartRef, Parts, Sites, push_parts};
use ll_tree::Func;
use name_table::NameTable;
use std::alloc::Global;
use std::marker::Model;
use wx_base::NoMemory;

/// What each item of a function names and gives, by numbers. Contracts see a list for each item, in the order
/// of the text, and how many items stand before those of each block.
#[derive(Drop)]
pub struct LinkTable {
    sources: FlatLists<Source>,
    blocks: FlatLists<BlockId>,
    results: Vec<Option<ValueId>>,
    starts: Vec<u32>,
}

impl Model for LinkTable {
    ghost use Rattle.ll_links.specs.Table.{LinkLists, lists_of};

    ghost Value = { LinkLists };

    ghost view = { lists_of };
}

impl LinkTable {
    /// What the item of a block names and gives that stands behind so many others of the block. It takes no
    /// memory.
    pub fn item(&self, block: BlockId, item: u32) -> Links
        requires { HasItem self.now block.0 item }
        ensures { IsItem self.now block.0 item result }
    {
        let place = self.starts[block.0 as usize] as usize + item as usize;
        Links {
            sources: self.sources.list(place),
            blocks: self.blocks.list(place),
            result: self.results[place],
        }
    }
}

/// The numbers of what the items of a function name and give. Each name is a value's or a block's, so none is
/// missing.
pub fn resolve(
    alloc: Global,
    func: &Func,
    sites: &Sites,
    values: &ValueTable,
    labels: &NameTable,
) -> Result<LinkTable, NoMemory>
    requires few_values { length values.now < 2 ^ 32 }
    requires few_blocks { length labels.now < 2 ^ 32 }
    requires few_items { count_items func.now.blocks < 2 ^ 32 }
    requires sites { sites.now ≡ sites_of func.now }
    requires named { NoneFails
        (λ site. is_some (lacking_name values.now labels.now (parts_of site.what))) sites.now }
    ensures { IfOk result (AreWhole values.now labels.now func.now.blocks) }
{
    let sources = list_sources(alloc, sites, values)?;
    let blocks = list_blocks(alloc, sites, labels)?;
    let results = list_results(alloc, sites, values)?;
    let starts = list_starts(alloc, func.blocks.items())?;
    Ok(LinkTable {
        sources,
        blocks,
        results,
        starts,
    })
}

fn list_sources(
    alloc: Global,
    sites: &Sites,
    values: &ValueTable,
) -> Result<FlatLists<Source>, NoMemory>
    requires { length values.now < 2 ^ 32 }
    ensures { IfOk result
        (λ lists. lists ≡ (map (λ site. spec.known_sources values.now site.what) sites.now, [])) }
{
    let mut lists = FlatLists::new(alloc);
    let mut parts = Parts::new(alloc);
    let items = sites.items();
    for site in items {
        parts.clear();
        push_parts(&mut parts, site.what)?;
        push_sources(&mut lists, values, parts.items())?;
        lists.close()?;
    }
    Ok(lists)
}

fn push_sources(
    lists: &mut FlatLists<Source>,
    values: &ValueTable,
    parts: &[PartRef],
) -> Result<(), NoMemory>
    requires { length values.now < 2 ^ 32 }
    ensures { OnOk result
        (lists.new ≡ (
          lists.old.0,
          lists.old.1
              ++ filter_map (spec.source_in values.now) (map part_of parts.now),
        )) }
{
    for part in parts {
        if let Some(source) = source_in(values, *part) {
            lists.push(source)?;
        }
    }
    Ok(())
}

fn list_blocks(
    alloc: Global,
    sites: &Sites,
    labels: &NameTable,
) -> Result<FlatLists<BlockId>, NoMemory>
    requires { length labels.now < 2 ^ 32 }
    ensures { IfOk result
        (λ lists. lists ≡ (map (λ site. spec.known_blocks labels.now site.what) sites.now, [])) }
{
    let mut lists = FlatLists::new(alloc);
    let mut parts = Parts::new(alloc);
    let items = sites.items();
    for site in items {
        parts.clear();
        push_parts(&mut parts, site.what)?;
        push_blocks(&mut lists, labels, parts.items())?;
        lists.close()?;
    }
    Ok(lists)
}

fn push_blocks(
    lists: &mut FlatLists<BlockId>,
    labels: &NameTable,
    parts: &[PartRef],
) -> Result<(), NoMemory>
    requires { length labels.now < 2 ^ 32 }
    ensures { OnOk result
        (lists.new ≡ (
          lists.old.0,
          lists.old.1
              ++ filter_map (spec.block_in labels.now) (map part_of parts.now),
        )) }
{
    for part in parts {
        if let Some(block) = block_in(labels, *part) {
            lists.push(block)?;
        }
    }
    Ok(())
}

fn list_results(
    alloc: Global,
    sites: &Sites,
    values: &ValueTable,
) -> Result<Vec<Option<ValueId>>, NoMemory>
    requires { length values.now < 2 ^ 32 }
    ensures { IfOk result
        (λ results. results.items ≡ map (λ site. spec.result_of values.now site.what) sites.now) }
{
    let mut results = Vec::new(alloc);
    let items = sites.items();
    for site in items {
        results.push(result_of(values, site.what))?;
    }
    Ok(results)
}
