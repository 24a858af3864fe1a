ghost use Rattle.std.specs.Prelude.{◌≡◌, ◌<◌};
ghost use Rattle.ir_meaning.specs.Value.{FitsWidth, select_of};

/// What an operation gives.
#[derive(Clone, Copy, Debug, PartialEq, Eq)]
pub enum Val {
    /// No number: the result of an operation that its operands or its flags bar.
    Poison,
    /// A number of the operation's width.
    Num(u32),
}

/// The arm that the condition names, poison or not: `yes` where it is 1, `no` where it is 0. Poison where the condition is.
pub fn select(c: Val, yes: Val, no: Val) -> Val
    requires condition { FitsWidth 1 c }
    ensures value { result ≡ select_of c yes no }
{
    match c {
        Val::Poison => Val::Poison,
        Val::Num(1) => yes,
        Val::Num(_) => no,
    }
}
