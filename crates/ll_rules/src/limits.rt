ghost use Rattle.std.specs.Prelude.{◌≡◌, ◌≤◌, ◌<◌, MatchOption};
ghost use Rattle.ll_rules.specs.Limits.{KeepsLimits, IsFirstExcess};

use crate::count::{count_bits, count_cases, count_edges, count_entries, count_values};
use ll_tree::Func;

/// How many blocks a function may have.
pub const MAX_BLOCKS: u64 = 256;

/// How many parameters.
pub const MAX_PARAMS: u64 = 64;

/// How many parameters, phis and instructions together, an assume as one.
pub const MAX_VALUES: u64 = 2048;

/// How many entries of phis in all.
pub const MAX_ENTRIES: u64 = 2048;

/// How many cases of switches in all.
pub const MAX_CASES: u64 = 1024;

/// How many different pairs of a block and a target.
pub const MAX_EDGES: u64 = 1024;

/// How many bits the `and`, `or` and `xor` instructions may have together.
pub const MAX_BITS: u64 = 4096;

/// What a function may have only so much of.
#[derive(Clone, Copy, Debug, PartialEq, Eq)]
pub enum Limit {
    Blocks,
    Params,
    Values,
    Entries,
    Cases,
    Edges,
    Bits,
}

/// A limit that is exceeded, and how much there is. A count past 64 bits stands at their end.
#[derive(Clone, Copy, Debug, PartialEq, Eq)]
pub struct TooMany {
    pub what: Limit,
    pub count: u64,
}

/// The first limit that a function exceeds, in the order of `Limit`; `None` exactly where it keeps all.
pub fn first_excess(func: &Func) -> Option<TooMany>
    ensures { MatchOption result (KeepsLimits func.now) (IsFirstExcess func.now) }
{
    let blocks = func.blocks.len() as u64;
    if blocks > MAX_BLOCKS {
        return Some(TooMany {
            what: Limit::Blocks,
            count: blocks,
        });
    }
    let params = func.params.len() as u64;
    if params > MAX_PARAMS {
        return Some(TooMany {
            what: Limit::Params,
            count: params,
        });
    }
    let values = count_values(func);
    if values > MAX_VALUES {
        return Some(TooMany {
            what: Limit::Values,
            count: values,
        });
    }
    let entries = count_entries(func);
    if entries > MAX_ENTRIES {
        return Some(TooMany {
            what: Limit::Entries,
            count: entries,
        });
    }
    let cases = count_cases(func);
    if cases > MAX_CASES {
        return Some(TooMany {
            what: Limit::Cases,
            count: cases,
        });
    }
    let edges = count_edges(func);
    if edges > MAX_EDGES {
        return Some(TooMany {
            what: Limit::Edges,
            count: edges,
        });
    }
    let bits = count_bits(func);
    if bits > MAX_BITS {
        return Some(TooMany {
            what: Limit::Bits,
            count: bits,
        });
    }
    None
}
