//! What a table of costs gives the blocks and edges of a function.

ghost use Rattle.std.specs.Prelude.{◌≡◌, length};
ghost use Rattle.sound_costs.specs.Costs.{AreCostsOf};

use crate::told::{named, no_row};
use crate::verdict::MOST;
use ll_links::BlockId;
use ll_verifier::Sound;
use sound_costs::{CostFault, Costs, read_costs};
use std::alloc::Global;
use wx_base::NoMemory;

/// The costs of the blocks in the order of the file, and those of the edges by the places of
/// their ends; or the fault of the table.
pub fn table_text(alloc: Global, sound: &Sound, table: &[u8]) -> Result<String, NoMemory> {
    if table.len() > MOST {
        return no_row(alloc);
    }
    match read_costs(alloc, table, sound) {
        Ok(costs) => costs_text(alloc, sound, &costs),
        Err(fault) => fault_text(alloc, &fault),
    }
}

fn fault_text(alloc: Global, fault: &CostFault) -> Result<String, NoMemory> {
    match fault {
        CostFault::Missing(block) => named(alloc, "missing", block),
        CostFault::NoMemory => Err(NoMemory),
        fault => Ok(format!(in alloc; "{fault}")?),
    }
}

fn costs_text(alloc: Global, sound: &Sound, costs: &Costs) -> Result<String, NoMemory>
    requires { AreCostsOf sound.now.func costs.now }
{
    let blocks = blocks_text(alloc, sound.func().blocks.len(), costs)?;
    let edges = edges_text(alloc, costs)?;
    Ok(format!(in alloc; "blocks{blocks}, edges{edges}")?)
}

fn blocks_text(alloc: Global, count: usize, costs: &Costs) -> Result<String, NoMemory>
    requires { count ≡ length costs.now.lists.blocks }
{
    let mut line = String::new(alloc);
    let Ok(count) = u32::try_from(count) else {
        return Ok(line);
    };
    for block in 0..count {
        line.push_str(format!(in alloc; " {}", costs.of(BlockId(block)))?.as_str())?;
    }
    Ok(line)
}

fn edges_text(alloc: Global, costs: &Costs) -> Result<String, NoMemory> {
    let mut line = String::new(alloc);
    for edge in costs.edges() {
        let cost = costs.edge(BlockId(edge.from), BlockId(edge.to));
        line.push_str(format!(in alloc; " {cost}")?.as_str())?;
    }
    Ok(line)
}
