//! What is asked of a function of LLVM IR beside its form, item by item and as a whole: limits on how much it has,
//! and operands that have to be constant.
#![tactic(auto)]

mod arithmetic;
mod count;
mod limits;

pub use arithmetic::{has_divisor, is_linear};
pub use limits::{
    Limit, MAX_BITS, MAX_BLOCKS, MAX_CASES, MAX_EDGES, MAX_ENTRIES, MAX_PARAMS, MAX_VALUES,
    TooMany, first_excess,
};
