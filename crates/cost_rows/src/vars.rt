/// Where the variables of a function's blocks and edges lie in a system.
#[derive(Clone, Copy, Debug)]
pub struct PathVars<'a> {
    /// Of the blocks, by their positions.
    pub blocks: &'a [u32],
    /// Of the edges, in the order of the verified function.
    pub edges: &'a [u32],
}
