ghost use Rattle.std.specs.Prelude.{◌≡◌, ◌≤◌, length, zip, slice_index_or};
ghost use Rattle.ll_links.specs.Links.{block_id};
ghost use Rattle.path_encoding.specs.Resolved.{first_of};
ghost use Rattle.path_encoding.specs.Spots as spec;

use crate::{ConstSpot, PathSpots};
use ll_links::{BlockId, Source};
use ll_verifier::{PositionEdge, Sound};
use wrap_rows::ValueVars;

/// Number and mark of what an operand stands for. It takes no memory.
pub fn source_vars(spots: &PathSpots, source: Source) -> ValueVars
    ensures { result ≡ spec.source_vars spots.now source }
{
    match source {
        Source::Value(id) => vars_at(spots.values.as_slice(), id.0),
        Source::Const(number) => ValueVars {
            number: constant_var(spots.constants.as_slice(), number),
            mark: 0,
        },
        Source::Poison => ValueVars { number: 0, mark: 1 },
    }
}

fn vars_at(values: &[ValueVars], at: u32) -> ValueVars
    ensures { result ≡ slice_index_or values.now at (spec.value_vars 0 0) }
{
    match values.get(at as usize) {
        Some(vars) => *vars,
        None => ValueVars { number: 0, mark: 0 },
    }
}

// The variable of a constant. Those of 0 and 1 are the first.
fn constant_var(constants: &[ConstSpot], number: u32) -> u32
    ensures { result ≡ spec.constant_var constants.now number }
{
    if number <= 1 {
        return number;
    }
    for spot in constants {
        if spot.value == number {
            return spot.var;
        }
    }
    0
}

/// The first of some operands.
pub fn first_of(sources: &[Source]) -> Source
    ensures { result ≡ first_of sources.now }
{
    match sources.get(0) {
        Some(source) => *source,
        None => Source::Poison,
    }
}

/// The block that is named there.
pub fn block_named(blocks: &[BlockId], at: usize) -> BlockId
    ensures { result ≡ slice_index_or blocks.now at (block_id 0) }
{
    match blocks.get(at) {
        Some(block) => *block,
        None => BlockId(0),
    }
}

/// The variable of the edge from the block at a position to another. It takes no memory, and time
/// by the count of edges.
pub fn edge_to(sound: &Sound, spots: &PathSpots, at: u32, to: BlockId) -> u32
    requires { length spots.now.edges.items ≡ length sound.now.flow.edges }
    ensures { result ≡ spec.edge_to sound.now spots.now at to.0 }
{
    edge_among(sound.order(), sound.edges(), spots.edges.as_slice(), at, to)
}

fn edge_among(order: &[BlockId], edges: &[PositionEdge], vars: &[u32], at: u32, to: BlockId) -> u32
    requires { length edges.now ≤ length vars.now }
    ensures { result ≡ spec.edge_among order.now (zip edges.now vars.now) at to.0 }
{
    for (item, edge) in edges.iter().enumerate() {
        if goes_to(order, at, to, *edge) {
            return vars[item];
        }
    }
    0
}

fn goes_to(order: &[BlockId], at: u32, to: BlockId, edge: PositionEdge) -> bool
    ensures { result ≡ spec.goes_to order.now at to.0 edge }
{
    edge.from.0 == at && block_named(order, edge.to.0 as usize).0 == to.0
}
