ghost use Rattle.std.specs.Prelude.{◌≡◌, ◌+◌, ◌%◌, ◌^◌};
ghost use Rattle.number_runner.specs.Bias.{bias_of};

use crate::Mask;
use ir_runner::{PhiMove, StepOp};
use ll_links::{BlockId, Source};
use wx_base::Sequence;

/// A block over numbers.
#[derive(Drop)]
pub struct NumberBlock {
    pub steps: Sequence<NumberStep>,
    pub exit: NumberExit,
}

/// The sum of two values that no flag bars. All but the mask are numbers of values.
#[derive(Clone, Copy, Debug)]
pub struct Sum {
    pub left: u32,
    pub right: u32,
    pub mask: Mask,
    pub to: u32,
}

/// The sum of a value and a number that no flag bars.
#[derive(Clone, Copy, Debug)]
pub struct SumConst {
    pub left: u32,
    pub number: u32,
    pub mask: Mask,
    pub to: u32,
}

/// One instruction.
#[derive(Clone, Copy, Debug)]
pub enum NumberStep {
    Add(Sum),
    AddConst(SumConst),
    /// Any other operation.
    Give { op: StepOp, to: u32 },
    Assume { cond: Source },
}

/// An edge: where it leads, the phis there, and the costs of edge and block.
#[derive(Drop)]
pub struct NumberJump {
    pub to: BlockId,
    pub moves: Sequence<PhiMove>,
    pub edge: u32,
    pub block: u32,
}

/// A number of a `switch` and where it leads.
#[derive(Drop)]
pub struct NumberCase {
    pub value: u32,
    pub jump: NumberJump,
}

/// A comparison of a value with a number, and the branch on it. Signed readings are compared as numbers that are
/// raised by half of the numbers of the width.
#[derive(Drop)]
pub struct Fork {
    pub left: u32,
    pub number: u32,
    pub mask: Mask,
    pub signed: bool,
    pub bias: u32,
    /// The number, raised.
    pub bound: u32,
    /// The number of the comparison's own value.
    pub to: u32,
    pub on_one: NumberJump,
    pub on_zero: NumberJump,
    ghost raised: { bias ≡ bias_of mask.width signed },
    ghost bounds: { bound ≡ (number + bias) % 2 ^ mask.width },
}

/// How a block ends.
#[derive(Drop)]
pub enum NumberExit {
    Equal(Fork),
    Differ(Fork),
    Below(Fork),
    AtMost(Fork),
    Above(Fork),
    AtLeast(Fork),
    Branch {
        cond: u32,
        on_one: NumberJump,
        on_zero: NumberJump,
    },
    Go(NumberJump),
    Switch {
        value: u32,
        default: NumberJump,
        cases: Sequence<NumberCase>,
    },
    Void,
    /// A result without a range.
    Return {
        value: Source,
    },
    /// An end that is left to a run over values.
    Other,
}
