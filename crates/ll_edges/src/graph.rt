ghost use Rattle.std.specs.Prelude.{◌≡◌, ◌↔◌, ℕ, ◌<◌, ◌≤◌, ◌++◌, ◌∷◌, ◌^◌, [], map, length, IfOk, OnOk};
ghost use Rattle.flow_graph.specs.Paths.{HasEdge};
ghost use Rattle.ll_items.specs.Parts.{part_of};
ghost use Rattle.ll_edges.specs.Graph as spec;

use flow_graph::{Edge, Edges};
use ll_items::{ItemRef, PartRef, Parts, push_parts};
use ll_tree::Func;
use name_table::NameTable;
use std::alloc::Global;
use wx_base::{Name, NoMemory};

/// An edge for each target of each block, in the order of the text: from the block's place in the file to
/// that of the block with the target's label.
pub fn graph_of(alloc: Global, func: &Func, labels: &NameTable) -> Result<Edges, NoMemory>
    requires blocks { length func.now.blocks < 2 ^ 32 }
    requires labels { length labels.now < 2 ^ 32 }
    ensures graph { IfOk result (λ graph. graph ≡ spec.edges_in labels.now 0 func.now.blocks) }
    ensures edges { IfOk result
        (λ graph. (from to : ℕ) → HasEdge graph from to
        ↔ spec.LeadsTo labels.now func.now.blocks from to) }
{
    let mut graph = Edges::new(alloc);
    let mut parts = Parts::new(alloc);
    let blocks = func.blocks.items();
    for (at, block) in blocks.iter().enumerate() {
        parts.clear();
        push_parts(&mut parts, ItemRef::End(&block.end))?;
        push_edges(&mut graph, labels, at as u32, parts.items())?;
    }
    Ok(graph)
}

fn push_edges(
    graph: &mut Edges,
    labels: &NameTable,
    from: u32,
    parts: &[PartRef],
) -> Result<(), NoMemory>
    requires { length labels.now < 2 ^ 32 }
    ensures { OnOk result
        (graph.new ≡ graph.old ++ spec.edges_from labels.now from (map part_of parts.now)) }
{
    for part in parts {
        push_edge(graph, labels, from, *part)?;
    }
    Ok(())
}

fn push_edge(
    graph: &mut Edges,
    labels: &NameTable,
    from: u32,
    part: PartRef,
) -> Result<(), NoMemory>
    requires { length labels.now < 2 ^ 32 }
    ensures { OnOk result
        (graph.new ≡ graph.old ++ spec.edge_of labels.now from (part_of part.entry)) }
{
    match part {
        PartRef::Use { .. } => Ok(()),
        PartRef::Goal { label } => push_goal(graph, labels, from, label),
    }
}

fn push_goal(graph: &mut Edges, labels: &NameTable, from: u32, label: &Name) -> Result<(), NoMemory>
    requires { length labels.now < 2 ^ 32 }
    ensures { OnOk result (graph.new ≡ graph.old ++ spec.edge_to labels.now from label.now) }
{
    match labels.find(label.bytes()) {
        Some(place) => graph.push(Edge {
            from,
            to: place as u32,
        }),
        None => Ok(()),
    }
}
