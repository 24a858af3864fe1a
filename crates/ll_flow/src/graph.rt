ghost use Rattle.std.specs.Prelude.{◌≡◌, ◌<◌, ◌≤◌, map, length, All, IfOk, MatchOption, MatchResult};
ghost use Rattle.ll_rules.specs.Items.{labels_of};
ghost use Rattle.ll_rules.specs.Limits.{KeepsLimits};
ghost use Rattle.name_table.specs.Names.{AreDifferent};
ghost use Rattle.ll_flow.specs.Paths.{label_of, AllReached, HasNoLoop, IsCycle, IsFirstUnreached, IsFlowOf};

use flow_rules::{Flow, FlowFault};
use ll_edges::graph_of;
use ll_tree::Func;
use name_table::NameTable;
use std::alloc::Global;
use wx_base::{Name, NoMemory, Sequence};

/// Labels, in order.
pub type Labels = Sequence<Name>;

/// The flow of a function whose labels differ or, exactly where some of its blocks lie on a cycle, the
/// labels of one. Which cycle is given is free.
pub fn flow_of(
    alloc: Global,
    func: &Func,
    labels: &NameTable,
) -> Result<Result<Flow, Labels>, NoMemory>
    requires keeps { KeepsLimits func.now }
    requires entry { 1 ≤ length func.now.blocks }
    requires labels { labels.now ≡ labels_of func.now }
    requires different { AreDifferent (labels_of func.now) }
    ensures { IfOk result (λ answer. MatchResult answer
        (λ flow. HasNoLoop func.now × IsFlowOf func.now flow) (IsCycle func.now)) }
{
    let graph = graph_of(alloc, func, labels)?;
    match Flow::new(alloc, func.blocks.len() as u32, graph) {
        Ok(flow) => Ok(Ok(flow)),
        Err(FlowFault::Loop(places)) => {
            let cycle = labels_at(alloc, func, places.items())?;
            Ok(Err(cycle))
        }
        Err(FlowFault::NoMemory) => Err(NoMemory),
    }
}

/// The labels of the blocks at these places.
pub fn labels_at(alloc: Global, func: &Func, places: &[u32]) -> Result<Labels, NoMemory>
    requires { All (λ place. place < length func.now.blocks) places.now }
    ensures { IfOk result (λ labels. labels ≡ map (label_of func.now) places.now) }
{
    let mut labels = Sequence::new(alloc);
    for place in places {
        labels.push(label_at(alloc, func, *place)?)?;
    }
    Ok(labels)
}

fn label_at(alloc: Global, func: &Func, place: u32) -> Result<Name, NoMemory>
    requires { place < length func.now.blocks }
    ensures { IfOk result (λ label. label ≡ label_of func.now place) }
{
    let blocks = func.blocks.items();
    Name::new(alloc, blocks[place as usize].label.bytes())
}

/// The label of the first block in the file that no path from the entry reaches; `None` exactly where all
/// are reached.
pub fn first_unreached(alloc: Global, func: &Func, flow: &Flow) -> Result<Option<Name>, NoMemory>
    requires flow { IsFlowOf func.now flow.now }
    requires different { AreDifferent (labels_of func.now) }
    ensures { IfOk result
        (λ found. MatchOption found (AllReached func.now) (IsFirstUnreached func.now)) }
{
    match flow.unreached() {
        Some(place) => Ok(Some(label_at(alloc, func, place)?)),
        None => Ok(None),
    }
}
