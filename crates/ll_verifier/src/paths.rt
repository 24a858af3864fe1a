ghost use Rattle.std.specs.Prelude.{◌≤◌, length, IfOk, MatchOption, MatchResult};
ghost use Rattle.ll_rules.specs.Items.{labels_of, values_of};
ghost use Rattle.ll_links.specs.Table.{AreWhole};
ghost use Rattle.ll_flow.specs.Paths.{IsFlowOf};
ghost use Rattle.ll_flow.specs.Uses.{AllDefined};
ghost use Rattle.ll_verifier.specs.Rules as rules;
ghost use Rattle.ll_verifier.specs.Sound.{IsChecked};
ghost use Rattle.ll_verifier.specs.Tables.{AreTables};

use crate::order::{list_blocks, list_edges};
use crate::spot::spot;
use crate::tables::Tables;
use crate::{PositionEdge, VerifyFault};
use flow_rules::Flow;
use ll_flow::{first_undefined, first_unreached, flow_of};
use ll_links::{BlockId, LinkTable};
use ll_tree::Func;
use std::alloc::Global;
use wx_base::NoMemory;

/// What is kept of a function that keeps all rules: its flow, its blocks in the kept order and the edges between
/// them, and the numbers of what each item names and gives.
#[derive(Drop)]
pub struct Checked {
    pub flow: Flow,
    pub order: Vec<BlockId>,
    pub edges: Vec<PositionEdge>,
    pub links: LinkTable,
}

// The rules that are asked of paths, behind those that are asked of items.
pub fn check_paths(
    alloc: Global,
    func: &Func,
    tables: &Tables,
    links: LinkTable,
) -> Result<Result<Checked, VerifyFault>, NoMemory>
    requires some_block { 1 ≤ length func.now.blocks }
    requires entries { rules.HasEntries func.now }
    requires tables { AreTables func.now tables.now }
    requires whole { AreWhole (values_of func.now) (labels_of func.now) func.now.blocks links }
    ensures { IfOk result
        (λ answer. MatchResult answer (IsChecked func.now) (rules.Breaks func.now)) }
{
    match flow_of(alloc, func, &tables.labels)? {
        Ok(flow) => check_flow(alloc, func, tables, flow, links),
        Err(cycle) => Ok(Err(VerifyFault::Loop { cycle })),
    }
}

fn check_flow(
    alloc: Global,
    func: &Func,
    tables: &Tables,
    flow: Flow,
    links: LinkTable,
) -> Result<Result<Checked, VerifyFault>, NoMemory>
    requires acyclic { rules.IsAcyclic func.now }
    requires tables { AreTables func.now tables.now }
    requires flow { IsFlowOf func.now flow }
    requires whole { AreWhole (values_of func.now) (labels_of func.now) func.now.blocks links }
    ensures { IfOk result
        (λ answer. MatchResult answer (IsChecked func.now) (rules.Breaks func.now)) }
{
    if let Some(block) = first_unreached(alloc, func, &flow)? {
        return Ok(Err(VerifyFault::Unreached { block }));
    }
    if let Some(fault) = undefined_name(alloc, func, tables, &flow)? {
        return Ok(Err(fault));
    }
    let order = list_blocks(alloc, flow.order())?;
    let edges = list_edges(alloc, flow.edges())?;
    Ok(Ok(Checked {
        flow,
        order,
        edges,
        links,
    }))
}

fn undefined_name(
    alloc: Global,
    func: &Func,
    tables: &Tables,
    flow: &Flow,
) -> Result<Option<VerifyFault>, NoMemory>
    requires connected { rules.IsConnected func.now }
    requires tables { AreTables func.now tables.now }
    requires flow { IsFlowOf func.now flow.now }
    ensures { IfOk result
        (λ found. MatchOption found (AllDefined func.now) (rules.Breaks func.now)) }
{
    let sites = &tables.sites;
    let values = &tables.values;
    let labels = &tables.labels;
    match first_undefined(alloc, func, flow, sites, values, labels)? {
        Some(found) => {
            let at = spot(alloc, func, found.site)?;
            Ok(Some(VerifyFault::NotDefined {
                at,
                name: found.name,
                path: found.path,
            }))
        }
        None => Ok(None),
    }
}
