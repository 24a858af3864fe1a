use mix_system::Numbers;
use proof_term::Nodes;

/// How a search ended.
#[derive(Debug, Drop)]
pub(crate) enum Ended {
    /// At a whole point inside all bounds.
    Point(Numbers),
    /// With no box left.
    Refuted,
    /// With the budget spent.
    Spent,
}

/// The nodes of a search, how many boxes are left, and how it ended.
#[derive(Debug, Drop)]
pub(crate) struct Searched {
    pub(crate) nodes: Nodes,
    pub(crate) left: usize,
    pub(crate) ended: Ended,
}
