use crate::Op;
use wx_base::{Name, Sequence};

/// A basic block: its phis, then its instructions, then its terminator.
#[derive(Debug, Drop)]
pub struct Block {
    pub label: Name,
    pub phis: Phis,
    pub body: Instrs,
    pub end: End,
}

/// The basic blocks of a function in the order of its text. The first is the entry.
pub type Blocks = Sequence<Block>;

/// A phi: its value is that of the entry for the block before on the path ("phi Instruction").
#[derive(Debug, Drop)]
pub struct Phi {
    pub name: Name,
    pub width: u32,
    pub entries: PhiEntries,
}

/// The phis of a block.
pub type Phis = Sequence<Phi>;

/// A value and the label of the block from which it comes.
#[derive(Debug, Drop)]
pub struct PhiEntry {
    pub value: Operand,
    pub from: Name,
}

/// The entries of a phi.
pub type PhiEntries = Sequence<PhiEntry>;

/// An instruction and the name of its result, which is empty where it has none.
#[derive(Debug, Drop)]
pub struct Instr {
    pub name: Name,
    pub op: Op,
}

/// The instructions of a block.
pub type Instrs = Sequence<Instr>;

/// The name of a parameter or a result, a constant as the number below 2^width that it stands for, or
/// `poison`.
#[derive(Debug, Drop)]
pub enum Operand {
    Name(Name),
    Const(u32),
    Poison,
}

/// The terminator of a block ("Terminator Instructions").
#[derive(Debug, Drop)]
pub enum End {
    /// `ret void`.
    RetVoid,
    /// `ret` of a value of `width` bits.
    Ret {
        width: u32,
        value: Operand,
    },
    /// `br label`.
    Br {
        to: Name,
    },
    /// `br i1`: to `yes` on 1, to `no` on 0.
    CondBr {
        cond: Operand,
        yes: Name,
        no: Name,
    },
    /// `switch` over a value of `width` bits.
    Switch {
        width: u32,
        value: Operand,
        default: Name,
        cases: Cases,
    },
    /// `unreachable`.
    Unreachable,
}

/// A number of a `switch`, with the width that is written at it, and the label to which it goes.
#[derive(Debug, Drop)]
pub struct Case {
    pub width: u32,
    pub value: u32,
    pub to: Name,
}

/// The cases of a `switch`.
pub type Cases = Sequence<Case>;
