/// Why the behaviour of a function on some arguments is undefined.
#[derive(Clone, Copy, Debug, PartialEq, Eq)]
pub enum UndefinedCause {
    /// A `br` on poison.
    PoisonBranch,
    /// A `switch` on poison.
    PoisonSwitch,
    /// A `noundef` result is poison.
    PoisonReturn,
    /// `unreachable` is reached.
    Unreachable,
    /// A parameter that is `noundef` and ranged is poison.
    PoisonArgument,
    /// An `llvm.assume` of another condition than 1.
    FalseAssume,
}
