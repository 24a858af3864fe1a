use crate::{RetVal, UndefinedCause};

/// How a run ended.
#[derive(Clone, Copy, Debug, PartialEq, Eq)]
pub enum RunEnd {
    /// It returned. The cost is that of the blocks and edges of its path.
    Done { result: RetVal, cost: u64 },
    /// The behaviour is undefined at the block with this place in the file.
    Undefined { block: u32, cause: UndefinedCause },
}
