use ll_links::{BlockId, Source};
use ll_tree::{BinKind, CastKind, Flags, Pred, Range};
use wx_base::Sequence;

/// A block with numbers in place of names. Slots hold the values of the function by their numbers.
#[derive(Drop)]
pub struct BlockCode {
    pub steps: Sequence<Step>,
    pub exit: Exit,
}

/// One instruction.
#[derive(Clone, Copy, Debug, PartialEq, Eq)]
pub enum Step {
    /// The result of an operation, and its slot.
    Give { op: StepOp, to: u32 },
    /// An `llvm.assume`.
    Assume { cond: Source },
}

/// Two operands of `width` bits, and the flags of their operation.
#[derive(Clone, Copy, Debug, PartialEq, Eq)]
pub struct Pair {
    pub flags: Flags,
    pub width: u32,
    pub left: Source,
    pub right: Source,
}

/// An operation on what its operands stand for.
#[derive(Clone, Copy, Debug, PartialEq, Eq)]
pub enum StepOp {
    Bin(BinKind, Pair),
    Cmp(Pred, Pair),
    Cast {
        kind: CastKind,
        flags: Flags,
        from: u32,
        arg: Source,
        to: u32,
    },
    Select {
        cond: Source,
        first: Source,
        second: Source,
    },
    Abs {
        width: u32,
        arg: Source,
        strict: bool,
    },
}

/// A phi on an edge: the operand for that edge, and the phi's slot.
#[derive(Clone, Copy, Debug, PartialEq, Eq)]
pub struct PhiMove {
    pub source: Source,
    pub to: u32,
}

/// An edge: the block to which it leads, and that block's phis.
#[derive(Drop)]
pub struct Jump {
    pub to: BlockId,
    pub moves: Sequence<PhiMove>,
}

/// A number of a `switch` and where it leads.
#[derive(Drop)]
pub struct CaseCode {
    pub value: u32,
    pub jump: Jump,
}

/// How a block ends.
#[derive(Drop)]
pub enum Exit {
    RetVoid,
    /// A result of `width` bits, which is poison outside the range, and may be poison unless it is `noundef`.
    Ret {
        width: u32,
        noundef: bool,
        range: Option<Range>,
        value: Source,
    },
    Br {
        jump: Jump,
    },
    CondBr {
        cond: Source,
        on_one: Jump,
        on_zero: Jump,
    },
    Switch {
        value: Source,
        default: Jump,
        cases: Sequence<CaseCode>,
    },
    Unreachable,
}
