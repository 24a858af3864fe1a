/// What a propagation ended with.
#[derive(Clone, Copy, Debug, PartialEq, Eq)]
pub enum Spread {
    /// Every clause has a true literal or two that aren't false.
    Quiet,
    /// The clause of that number is false.
    Conflict(u32),
    /// The tally is at its budget, and some clause implies a literal.
    Spent,
}
