use std::error::Error;
use std::fmt;

/// An operation on two whole numbers.
#[derive(Clone, Copy, Debug, PartialEq, Eq)]
pub enum NumOp {
    /// `x + y`.
    Plus,
    /// `x - y`.
    Minus,
    /// `x * y`.
    Times,
}

/// A step that would overflow: the exact result of `op` on `x` and `y` lies outside `i128`.
#[derive(Clone, Copy, Debug, PartialEq, Eq)]
pub struct Excess {
    pub op: NumOp,
    pub x: i128,
    pub y: i128,
}

impl fmt::Display for NumOp {
    fn fmt<W: fmt::Write>(&self, f: &mut fmt::Formatter<W>) -> fmt::Result {
        match self {
            NumOp::Plus => write!(f, "+"),
            NumOp::Minus => write!(f, "-"),
            NumOp::Times => write!(f, "*"),
        }
    }
}

impl fmt::Display for Excess {
    fn fmt<W: fmt::Write>(&self, f: &mut fmt::Formatter<W>) -> fmt::Result {
        let Excess { op, x, y } = *self;
        write!(f, "{x} {op} {y} does not fit in 128 bits")
    }
}

impl Error for Excess {}
