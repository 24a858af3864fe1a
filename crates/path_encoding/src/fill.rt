ghost use Rattle.std.specs.Prelude.{◌≡◌, ◌==◌, ◌&&◌, ◌<◌, ◌≤◌, ◌++◌, length, All};
ghost use Rattle.mix_system.specs.Row.{number_at};
ghost use Rattle.portion_cuts.specs.Paths.{IsPath, passes};
ghost use Rattle.path_encoding.specs.Spots.{AreSpotsOf, Exist, AreApart, IsBlock, cases_of};
ghost use Rattle.path_encoding.specs.Paths.{positions, EndsThere, IsTaken, AreMarks};
ghost use Rattle.path_encoding.specs.Agree.{AreCasesSaid, asked_var};
ghost use Rattle.path_encoding.specs.Filled.{ChangesOnly};
ghost use Rattle.path_encoding.specs.Filled as spec;

use crate::PathSpots;
use crate::exit::end_links;
use crate::place::{block_in, case_count, place_at};
use crate::vars::{first_of, source_vars};
use ll_links::{BlockId, Position};
use ll_tree::{Block, Case, End};
use ll_verifier::{PositionEdge, Sound};
use wrap_rows::mark_of;

/// Writes the numbers of blocks and edges, 1 where the path visits and takes them and else 0, and
/// changes no others. It takes no memory.
///
/// The spots are the function's, no two of them have one variable, and the path leads from the
/// entry to an end. The time is that of one look at the path for each block and each edge.
pub fn fill_path(sound: &Sound, spots: &PathSpots, path: &[Position], point: &mut [i128])
    requires spots { AreSpotsOf sound.now spots.now }
    requires known { Exist (length point.old) spots.now }
    requires apart { AreApart spots.now }
    requires path { IsPath sound.now.flow.edges (positions path.now) }
    requires ends { EndsThere sound.now (positions path.now) }
    ensures taken { IsTaken sound.now spots.now point.new (positions path.now) }
    ensures marks { AreMarks spots.now point.new }
    ensures kept { ChangesOnly
        (spots.now.blocks.items ++ spots.now.edges.items) point.old point.new }
{
    let edges = sound.edges();
    let blocks = spots.blocks.as_slice();
    let vars = spots.edges.as_slice();
    put_blocks(blocks, path, point);
    put_edges(edges, vars, path, point);
}

fn put_blocks(vars: &[u32], path: &[Position], point: &mut [i128])
    requires { All (λ var. var < length point.old) vars.now }
    ensures { point.new ≡ spec.put_blocks (positions path.now) 0 vars.now point.old }
{
    for (at, var) in vars.iter().enumerate() {
        point[*var as usize] = mark_of(is_passed(path, at));
    }
}

fn is_passed(path: &[Position], at: usize) -> bool
    ensures { result ≡ passes (positions path.now) at }
{
    for position in path {
        if position.0 as usize == at {
            return true;
        }
    }
    false
}

fn put_edges(edges: &[PositionEdge], vars: &[u32], path: &[Position], point: &mut [i128])
    requires each { length edges.now ≤ length vars.now }
    requires known { All (λ var. var < length point.old) vars.now }
    ensures { point.new ≡ spec.put_edges (positions path.now) edges.now vars.now point.old }
{
    for (item, edge) in edges.iter().enumerate() {
        let var = vars[item];
        point[var as usize] = mark_of(is_step(path, *edge));
    }
}

fn is_step(path: &[Position], edge: PositionEdge) -> bool
    ensures { result ≡ spec.is_step (positions path.now) edge }
{
    for item in 1..path.len() {
        if joins(edge, path[item - 1], path[item]) {
            return true;
        }
    }
    false
}

fn joins(edge: PositionEdge, from: Position, to: Position) -> bool
    ensures { result ≡ (edge.from.0 == from.0 && edge.to.0 == to.0) }
{
    edge.from.0 == from.0 && edge.to.0 == to.0
}

/// Writes the numbers of the cases, 1 where the number that their switch asks is the case's and
/// else 0, and changes no others. It takes no memory.
///
/// The spots are the function's, and no case has the variable of another or of a number that is
/// asked.
pub fn fill_cases(sound: &Sound, spots: &PathSpots, point: &mut [i128])
    requires spots { AreSpotsOf sound.now spots.now }
    requires known { Exist (length point.old) spots.now }
    requires apart { AreApart spots.now }
    ensures said { AreCasesSaid sound.now spots.now point.new }
    ensures kept { ChangesOnly spots.now.cases.items point.old point.new }
{
    let blocks = sound.order().len() as u32;
    put_switches(sound, spots, blocks, point);
}

// The cases of each block.
fn put_switches(sound: &Sound, spots: &PathSpots, blocks: u32, point: &mut [i128])
    requires spots { AreSpotsOf sound.now spots.now }
    requires known { Exist (length point.old) spots.now }
    requires apart { AreApart spots.now }
    requires blocks { blocks ≡ length sound.now.flow.order }
    ensures { spec.AreSaidBefore sound.now spots.now point.old point.new
        (length sound.now.flow.order) }
{
    let all = spots.cases.as_slice();
    let mut before = 0;
    for at in 0..blocks {
        let place = place_at(sound, at);
        let block = block_in(sound, place);
        let vars = all.split_at(before).1;
        put_block(sound, spots, at, place, block, vars, point);
        let count = case_count(&block.end);
        before += count;
    }
}

// The cases of a block, whose variables stand first among these.
fn put_block(
    sound: &Sound,
    spots: &PathSpots,
    at: u32,
    place: BlockId,
    block: &Block,
    vars: &[u32],
    point: &mut [i128],
)
    requires at { IsBlock sound.now at place.0 block.now }
    requires spots { Exist (length point.old) spots.now }
    requires each { length (cases_of block.now.end) ≤ length vars.now }
    requires known { All (λ var. var < length point.old) vars.now }
    ensures { point.new ≡ spec.put_cases
        (number_at point.old (asked_var sound.now spots.now block.now.end))
        (cases_of block.now.end) vars.now point.old }
{
    let End::Switch { cases, .. } = &block.end else {
        return;
    };
    let links = end_links(sound, at, place, block);
    let first = first_of(links.sources);
    let value = source_vars(spots, first);
    let number = point[value.number as usize];
    put_cases(cases.items(), vars, number, point);
}

fn put_cases(cases: &[Case], vars: &[u32], number: i128, point: &mut [i128])
    requires each { length cases.now ≤ length vars.now }
    requires known { All (λ var. var < length point.old) vars.now }
    ensures { point.new ≡ spec.put_cases number cases.now vars.now point.old }
{
    for (item, case) in cases.iter().enumerate() {
        let var = vars[item];
        point[var as usize] = mark_of(number == i128::from(case.value));
    }
}
