use mix_system::{Numbers, Term, Terms};
use wx_num::NumOp;

/// The place of a tableau that forms a number, by the terms of its equations.
#[derive(Clone, Copy, Debug, PartialEq, Eq)]
pub enum Place {
    /// The value of a basic term: the sum of its equation's other terms at their values.
    Value {
        basic: Term,
    },
    /// The comparison of that value with a bound: the denominator times the bound.
    Compare {
        basic: Term,
        bound: i128,
    },
    /// A pivot in which `entering` takes the place of `basic`: the equation of `changed` is formed
    /// anew.
    Pivot {
        basic: Term,
        entering: Term,
        changed: Term,
    },
    /// The combination of bounds by which a basic term's equation refutes them.
    Combine {
        basic: Term,
    },
}

/// Two numbers that a tableau forms, and whose operation leaves 128 bits: the basis of the tableau
/// in any order, the values of all other terms in the order of terms, and the place that forms them.
#[derive(Debug, Drop)]
pub struct TableauExcess {
    pub basis: Terms,
    pub rest: Numbers,
    pub place: Place,
    pub op: NumOp,
    pub x: i128,
    pub y: i128,
}
