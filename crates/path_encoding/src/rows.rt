ghost use Rattle.std.specs.Prelude.{◌≡◌, ◌==◌, ◌+◌, ◌-◌, ◌^◌, ◌<◌, ◌≤◌, ◌++◌, ◌∷◌, [], map, flat_map, zip, length, pos, All, IfOk, OnOk};
ghost use Rattle.std.specs.List.{filter, range_with_len};
ghost use Rattle.wrap_rows.specs.Normal.{row_of};
ghost use Rattle.wrap_rows.specs.Layout.{clause_from};
ghost use Rattle.path_encoding.specs.Spots.{AreSpotsOf, Exist};
ghost use Rattle.path_encoding.specs.FlowRows as spec;
ghost use Rattle.path_encoding.specs.PathLayout.{flow_clauses};

use crate::PathSpots;
use crate::place::{block_in, place_at};
use ll_tree::End;
use ll_verifier::{PositionEdge, Sound};
use mix_system::{Part, System};
use std::alloc::Global;
use wrap_rows::{add_equation, add_sum, times};
use wx_base::NoMemory;

/// Adds for each block but the entry the sum of the edges into it less the block.
///
/// After want of memory some of the rows may stand.
pub fn add_in_rows(
    alloc: Global,
    sound: &Sound,
    spots: &PathSpots,
    blocks: u32,
    into: &mut System,
) -> Result<(), NoMemory>
    requires spots { AreSpotsOf sound.now spots.now }
    requires known { Exist (length into.old.ranges) spots.now }
    requires blocks { blocks ≡ length sound.now.flow.order }
    requires some { 0 < length sound.now.flow.order }
    requires room { length into.old.rows + length sound.now.flow.order < 2 ^ 31 }
    ensures { OnOk result (into.new ≡ record into.old {
      rows = into.old.rows ++ map row_of (spec.in_rows sound.now spots.now);
    }) }
{
    for at in 1..blocks {
        add_in_row(alloc, sound, spots, at, into)?;
    }
    Ok(())
}

fn add_in_row(
    alloc: Global,
    sound: &Sound,
    spots: &PathSpots,
    at: u32,
    into: &mut System,
) -> Result<(), NoMemory>
    requires spots { AreSpotsOf sound.now spots.now }
    requires known { Exist (length into.old.ranges) spots.now }
    requires at { at < length sound.now.flow.order }
    requires room { length into.old.rows + 1 < 2 ^ 31 }
    ensures { OnOk result (into.new ≡ record into.old {
      rows = into.old.rows ++ row_of (spec.in_row sound.now spots.now at) ∷ [];
    }) }
{
    let var = spots.blocks[at as usize];
    let vars = spots.edges.as_slice();
    let parts = in_parts(alloc, sound.edges(), vars, at, var)?;
    let row = parts.as_slice();
    add_sum(alloc, into, row)?;
    Ok(())
}

// The sum of the edges into a block, less the block.
fn in_parts(
    alloc: Global,
    edges: &[PositionEdge],
    vars: &[u32],
    at: u32,
    block: u32,
) -> Result<Vec<Part>, NoMemory>
    requires { length edges.now ≤ length vars.now }
    ensures { IfOk result (λ parts. parts.items
        ≡ spec.flow_row block (filter (spec.enters at) (zip edges.now vars.now))) }
{
    let mut parts = Vec::new(alloc);
    for (item, edge) in edges.iter().enumerate() {
        if !is_in(*edge, at) {
            continue;
        }
        parts.push(times(1, vars[item]))?;
    }
    parts.push(times(-1, block))?;
    Ok(parts)
}

/// Adds for each block that is left by an edge the sum of the edges out of it less the block.
///
/// After want of memory some of the rows may stand.
pub fn add_out_rows(
    alloc: Global,
    sound: &Sound,
    spots: &PathSpots,
    blocks: u32,
    into: &mut System,
) -> Result<(), NoMemory>
    requires spots { AreSpotsOf sound.now spots.now }
    requires known { Exist (length into.old.ranges) spots.now }
    requires blocks { blocks ≡ length sound.now.flow.order }
    requires room { length into.old.rows + length sound.now.flow.order < 2 ^ 31 }
    ensures { OnOk result (into.new ≡ record into.old {
      rows = into.old.rows ++ map row_of (spec.out_rows sound.now spots.now);
    }) }
{
    for at in 0..blocks {
        let place = place_at(sound, at);
        let block = block_in(sound, place);
        if !goes_on(&block.end) {
            continue;
        }
        add_out_row(alloc, sound, spots, at, into)?;
    }
    Ok(())
}

fn add_out_row(
    alloc: Global,
    sound: &Sound,
    spots: &PathSpots,
    at: u32,
    into: &mut System,
) -> Result<(), NoMemory>
    requires spots { AreSpotsOf sound.now spots.now }
    requires known { Exist (length into.old.ranges) spots.now }
    requires at { at < length sound.now.flow.order }
    requires room { length into.old.rows + 1 < 2 ^ 31 }
    ensures { OnOk result (into.new ≡ record into.old {
      rows = into.old.rows ++ row_of (spec.out_row sound.now spots.now at) ∷ [];
    }) }
{
    let var = spots.blocks[at as usize];
    let vars = spots.edges.as_slice();
    let parts = out_parts(alloc, sound.edges(), vars, at, var)?;
    let row = parts.as_slice();
    add_sum(alloc, into, row)?;
    Ok(())
}

// The sum of the edges out of a block, less the block.
fn out_parts(
    alloc: Global,
    edges: &[PositionEdge],
    vars: &[u32],
    at: u32,
    block: u32,
) -> Result<Vec<Part>, NoMemory>
    requires { length edges.now ≤ length vars.now }
    ensures { IfOk result (λ parts. parts.items
        ≡ spec.flow_row block (filter (spec.leaves at) (zip edges.now vars.now))) }
{
    let mut parts = Vec::new(alloc);
    for (item, edge) in edges.iter().enumerate() {
        if !is_out(*edge, at) {
            continue;
        }
        parts.push(times(1, vars[item]))?;
    }
    parts.push(times(-1, block))?;
    Ok(parts)
}

fn is_in(edge: PositionEdge, at: u32) -> bool
    ensures { result ≡ (edge.to.0 == at) }
{
    edge.to.0 == at
}

fn is_out(edge: PositionEdge, at: u32) -> bool
    ensures { result ≡ (edge.from.0 == at) }
{
    edge.from.0 == at
}

// Whether a block that ends so is left by an edge.
fn goes_on(end: &End) -> bool
    ensures { result ≡ spec.goes_on end.now }
{
    match end {
        End::Br { .. } | End::CondBr { .. } | End::Switch { .. } => true,
        End::RetVoid | End::Ret { .. } | End::Unreachable => false,
    }
}

/// Adds the clauses by which each row from the first one on is 0.
///
/// After want of memory some of the clauses may stand.
pub fn add_flow_clauses(alloc: Global, first: u32, into: &mut System) -> Result<(), NoMemory>
    requires first { first ≤ length into.old.rows }
    requires room { length into.old.clauses + length
        (flow_clauses (length into.old.rows - first)) < 2 ^ 31 }
    ensures { OnOk result (into.new ≡ record into.old {
      clauses = into.old.clauses
          ++ map (clause_from first) (flow_clauses (length into.old.rows - first));
    }) }
{
    let rows = into.rows();
    for row in first..rows {
        add_equation(alloc, into, row, 0)?;
    }
    Ok(())
}
