use wrap_rows::ValueVars;

/// Where the blocks, edges, cases, values and constants of a function lie in a system. Variables 0
/// and 1 are the numbers 0 and 1.
#[derive(Debug, Drop)]
pub struct PathSpots {
    /// For each block by its position in the kept order, the variable that is 1 where it is
    /// visited.
    pub blocks: Vec<u32>,
    /// For each edge, as `Sound::edges` lists them, the variable that is 1 where it is taken.
    pub edges: Vec<u32>,
    /// For each case of the switches, by the position of its block and as written, the variable
    /// that is 1 where the switch's number is the case's.
    pub cases: Vec<u32>,
    /// Number and mark of each value, by its number among the values.
    pub values: Vec<ValueVars>,
    /// The constants that have a variable of their own.
    pub constants: Vec<ConstSpot>,
}

/// A constant and its variable.
#[derive(Clone, Copy, Debug, PartialEq, Eq)]
pub struct ConstSpot {
    pub value: u32,
    pub var: u32,
}
