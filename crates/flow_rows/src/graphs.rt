ghost use Rattle.flow_graph.specs.Paths.{IsForward};

use crate::edges::{edges_of, joined, number, shown};
use crate::flows::{cycle_shown, flow_of};
use block_order::{Ordered, kept_order};
use flow_graph::{Edge, mark_reached, path_to, sorted};
use std::alloc::Global;
use wx_base::NoMemory;

// Edges in order, each once.
pub fn sorted_once(alloc: Global, call: &str) -> Result<String, NoMemory> {
    let edges = sorted(edges_of(alloc, call)?)?;
    shown(alloc, edges.items())
}

// The kept order of `BLOCKS FROM-TO ..`, or a cycle.
pub fn order(alloc: Global, call: &str) -> Result<String, NoMemory> {
    let (blocks, text) = call.split_once(' ').unwrap_or((call, ""));
    order_of(alloc, number(blocks), &edges_of(alloc, text)?)
}

fn order_of(alloc: Global, blocks: u32, edges: &[Edge]) -> Result<String, NoMemory> {
    if edges
        .iter()
        .any(|edge| edge.from >= blocks || edge.to >= blocks)
    {
        return Ok(String::from_str(alloc, "no graph")?);
    }
    match kept_order(alloc, blocks, edges)? {
        Ordered::Order(order) => joined(alloc, order.items()),
        Ordered::Cycle(cycle) => cycle_shown(alloc, &cycle),
    }
}

// Which blocks are reached from the first around one, and a path to another: `WITHOUT TO BLOCKS FROM-TO ..`.
pub fn reached(alloc: Global, call: &str) -> Result<String, NoMemory> {
    let (without, rest) = call.split_once(' ').unwrap_or((call, ""));
    let (to, graph) = rest.split_once(' ').unwrap_or((rest, ""));
    match flow_of(alloc, graph) {
        Ok(flow) => around(
            alloc,
            flow.edges(),
            flow.order().len(),
            number(without),
            number(to),
        ),
        Err(_) => Ok(String::from_str(alloc, "no flow")?),
    }
}

fn around(
    alloc: Global,
    edges: &[Edge],
    count: usize,
    without: u32,
    to: u32,
) -> Result<String, NoMemory>
    requires forward { IsForward count edges.now }
{
    let mut marks = vec![in alloc; false; count]?;
    if to as usize >= count {
        return Ok(String::from_str(alloc, "no block")?);
    }
    mark_reached(edges, 0, without, &mut marks);
    if !marks[to as usize] {
        return marked(alloc, &marks);
    }
    let path = path_to(alloc, edges, 0, without, &marks, to)?;
    let (marks, path) = (marked(alloc, &marks)?, joined(alloc, path.items())?);
    Ok(format!(in alloc; "{marks}, path{path}")?)
}

// A 1 for each mark.
fn marked(alloc: Global, marks: &[bool]) -> Result<String, NoMemory> {
    let mut line = String::new(alloc);
    for mark in marks {
        line.push_str(if *mark { "1" } else { "0" })?;
    }
    Ok(line)
}
