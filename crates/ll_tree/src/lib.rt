//! The tree of a function of LLVM IR: what its text spells, with widths as numbers and constants as the
//! numbers that they stand for; and the canonical text of a tree.
#![tactic(auto)]

mod block;
mod func;
mod limits;
mod naming;
mod op;
mod printing;
mod words;

pub use block::{
    Block, Blocks, Case, Cases, End, Instr, Instrs, Operand, Phi, PhiEntries, PhiEntry, Phis,
};
pub use func::{Func, Param, Params, Range, Ret};
pub use limits::{MAX_WIDTH, MIN_WIDTH};
pub use naming::push_name;
pub use op::{BinKind, CastKind, Flags, Op, Pred};
pub use printing::print;

#[cfg(test)]
mod tests;
