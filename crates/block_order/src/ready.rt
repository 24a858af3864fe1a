ghost use Rattle.std.specs.Prelude.{◌≡◌, ◌<◌, ◌^◌, ℕ, true, false, length, All, slice_index_or, MatchOption};
ghost use Rattle.block_order.specs.Marks.{AreBlocked, IsFirstFree, IsFirstOpen, IsTakeable, IsStuck};

use flow_graph::Edge;

/// The least block that isn't taken and whose predecessors all are; `None` exactly where each block that
/// isn't taken has such a predecessor. `blocked` is room for work.
pub fn next_ready(edges: &[Edge], taken: &[bool], blocked: &mut [bool]) -> Option<u32>
    requires within { All (λ edge. (edge.from < length taken.now)
        × (edge.to < length taken.now)) edges.now }
    requires room { length blocked.old ≡ length taken.now }
    requires few { length taken.now < 2 ^ 32 }
    ensures { MatchOption result (IsStuck edges.now taken.now) (IsFirstFree edges.now taken.now) }
{
    mark_blocked(edges, taken, blocked);
    first_open(taken, blocked)
}

// Marks the blocks that have a predecessor which isn't taken.
fn mark_blocked(edges: &[Edge], taken: &[bool], blocked: &mut [bool])
    requires within { All (λ edge. (edge.from < length taken.now)
        × (edge.to < length taken.now)) edges.now }
    requires room { length blocked.old ≡ length taken.now }
    ensures { AreBlocked edges.now taken.now blocked.new }
{
    blocked.fill(false);
    for edge in edges {
        if !taken[edge.from as usize] {
            blocked[edge.to as usize] = true;
        }
    }
}

// The first block that is neither taken nor blocked.
fn first_open(taken: &[bool], blocked: &[bool]) -> Option<u32>
    requires same { length blocked.now ≡ length taken.now }
    requires few { length taken.now < 2 ^ 32 }
    ensures { MatchOption result
        ((block : ℕ) → block < length taken.now → ¬ IsTakeable taken.now blocked.now block)
        (IsFirstOpen taken.now blocked.now) }
{
    for block in 0..taken.len() {
        if !taken[block] && !blocked[block] {
            return Some(block as u32);
        }
    }
    None
}

/// The first block that isn't taken.
pub fn first_false(taken: &[bool]) -> Option<u32>
    requires { length taken.now < 2 ^ 32 }
    ensures { MatchOption result
        ((block : ℕ) → block < length taken.now → slice_index_or taken.now block false ≡ true)
        (λ block. (block < length taken.now) × (slice_index_or taken.now block false ≡ false)) }
{
    for block in 0..taken.len() {
        if !taken[block] {
            return Some(block as u32);
        }
    }
    None
}
