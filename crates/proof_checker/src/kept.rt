use crate::Reason;
use mix_system::Lits;
use open_levels::OpenLevels;
use proof_term::Goal;
use tree_check::OpenBoxes;

/// How far a text was read: what its next line may be, with what is kept for it.
#[derive(Debug, Drop)]
pub enum Kept {
    Header,
    Shape,
    Goal,
    /// A step, or the end of the last of these levels.
    Step(OpenLevels),
    /// A node of a theory's tree.
    Tree(Theory),
    /// Nothing: a proof with that goal has ended.
    End(Goal),
}

/// A theory whose tree is in work.
#[derive(Debug, Drop)]
pub struct Theory {
    /// The levels on the last of which it stands. In force is the box of the next node.
    pub levels: OpenLevels,
    pub clause: Lits,
    /// The bounds go back to those of the level at this mark.
    pub mark: usize,
    pub boxes: OpenBoxes,
}

/// What the lines so far come to.
#[derive(Debug, Drop)]
pub enum Found {
    /// All pass.
    At(Kept),
    /// The first that fails has this reason.
    Failed(Reason),
}
