use mix_system::Numbers;

/// What is found of a system.
#[derive(Debug, Drop)]
pub enum Mix {
    /// A point that fits, meets the goal and all cuts.
    Found(Numbers),
    /// There is no such point: the steps end with the empty clause.
    Impossible,
    /// The budget is spent.
    Spent,
}
