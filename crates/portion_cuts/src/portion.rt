use ll_links::Position;

/// Blocks that stand one behind the other in the kept order.
#[derive(Clone, Copy, Debug, PartialEq, Eq)]
pub struct Portion {
    /// The position of the first.
    pub from: Position,
    /// One above the position of the last.
    pub to: Position,
}

/// Blocks inside a branch: those that a path from one block reaches without passing another.
#[derive(Debug, Drop)]
pub struct Region {
    pub from: Position,
    pub to: Position,
    /// Their positions, rising.
    pub blocks: Vec<Position>,
}
