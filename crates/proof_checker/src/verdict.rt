use proof_term::Goal;
use wx_num::Excess;

/// Why a line of a proof's text fails.
#[derive(Clone, Copy, Debug, PartialEq, Eq)]
pub enum Reason {
    /// It isn't a line of the text, or it may not stand there.
    BadText,
    /// A number lies outside its range, or names no variable, no row or no clause so far.
    OutOfRange,
    /// A cut would open one level too many.
    TooDeep,
    /// The clause of a lemma doesn't follow along its hints.
    Hints,
    /// A leaf takes a literal that isn't in the box.
    NotInBox,
    /// Some variable of a leaf doesn't cancel out.
    NotZero,
    /// The bounds of a leaf add up to 0 or more.
    NotContradictory,
    /// A number that the line forms lies outside 128 bits.
    TooLarge(Excess),
    /// The text or a level ends before the empty clause.
    Unfinished,
    /// The text was made for a system with other counts. These are the system's own.
    OtherSystem { vars: u32, clauses: u32 },
}

/// The answer to a proof's text.
#[derive(Clone, Copy, Debug, PartialEq, Eq)]
pub enum Verdict {
    /// The text is valid, and its proof has this goal.
    Yes(Goal),
    /// The first line that fails, counted from 1, and why.
    No { line: u64, reason: Reason },
}
