use crate::edges::{edges_of, joined, number, shown};
use block_order::Places;
use flow_graph::Edges;
use flow_rules::{Flow, FlowFault, Use};
use std::alloc::Global;
use wx_base::{NoMemory, Sequence};

// The flow of `BLOCKS FROM-TO ..`. An edge that leaves the graph is a fault too.
pub fn flow_of(alloc: Global, call: &str) -> Result<Flow, FlowFault> {
    let (blocks, text) = call.split_once(' ').unwrap_or((call, ""));
    let blocks = number(blocks);
    let edges = Sequence::from_vec(edges_of(alloc, text)?);
    flow_within(alloc, blocks, edges)
}

fn flow_within(alloc: Global, blocks: u32, edges: Edges) -> Result<Flow, FlowFault> {
    let leaves = edges
        .items()
        .iter()
        .any(|edge| edge.from >= blocks || edge.to >= blocks);
    if blocks == 0 || leaves {
        return Err(FlowFault::NoMemory);
    }
    Flow::new(alloc, blocks, edges)
}

// The kept order, the edges by positions and the first block without a path, or a cycle.
pub fn flow(alloc: Global, call: &str) -> Result<String, NoMemory> {
    match flow_of(alloc, call) {
        Ok(flow) => described(alloc, &flow),
        Err(FlowFault::Loop(cycle)) => cycle_shown(alloc, &cycle),
        Err(FlowFault::NoMemory) => Err(NoMemory),
    }
}

fn described(alloc: Global, flow: &Flow) -> Result<String, NoMemory> {
    let order = joined(alloc, flow.order())?;
    let edges = shown(alloc, flow.edges())?;
    Ok(match flow.unreached() {
        Some(block) => format!(in alloc; "order{order}, edges{edges}, no path to {block}")?,
        None => format!(in alloc; "order{order}, edges{edges}")?,
    })
}

pub fn cycle_shown(alloc: Global, cycle: &Places) -> Result<String, NoMemory> {
    let blocks = joined(alloc, cycle.items())?;
    Ok(format!(in alloc; "cycle{blocks}")?)
}

// How long a path around a definition is: `DEFINITION BLOCK first|later BLOCKS FROM-TO ..`.
pub fn path(alloc: Global, call: &str) -> Result<String, NoMemory> {
    let (definition, rest) = call.split_once(' ').unwrap_or((call, ""));
    let (block, rest) = rest.split_once(' ').unwrap_or((rest, ""));
    let (place, graph) = rest.split_once(' ').unwrap_or((rest, ""));
    let it = Use {
        definition: number(definition),
        block: number(block),
        comes_first: place == "first",
    };
    match flow_of(alloc, graph) {
        Ok(flow) => path_shown(alloc, &flow, &it),
        Err(_) => Ok(String::from_str(alloc, "no flow")?),
    }
}

fn path_shown(alloc: Global, flow: &Flow, it: &Use) -> Result<String, NoMemory> {
    let blocks = flow.order().len();
    if it.definition as usize >= blocks || it.block as usize >= blocks {
        return Ok(String::from_str(alloc, "no use")?);
    }
    if flow.is_defined(it) {
        return Ok(String::from_str(alloc, "defined")?);
    }
    let path = flow.path_around(alloc, it)?;
    Ok(format!(in alloc; "path of {}", path.len())?)
}
