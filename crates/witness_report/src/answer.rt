use cost_table::CostFault;
use ir_runs::{RetVal, UndefinedCause};
use ll_reader::ReadFault;
use ll_verifier::VerifyFault;
use wx_base::{Args, Name, Path, Sequence};

/// What `wcet` answers.
#[derive(Debug, Drop)]
pub enum Answer {
    /// No arguments have a run that costs more than the witness. The bounds say how much of the cost is spent at most
    /// in each portion of the function, where the way to the worst case gives them.
    Exact {
        witness: Witness,
        how: How,
        portions: Bounds,
    },
    /// No arguments have a run.
    NoRun {
        how: How,
    },
    /// The run on the arguments that were given.
    Ran(Witness),
    /// The arguments that were given have no run: at the end of this block what happens isn't defined.
    Undefined {
        block: Name,
        cause: UndefinedCause,
    },
    /// The words are no command.
    Usage,
    /// The outside failed while this file was read.
    FetchFault(Which),
    /// This file is longer than its limit.
    TooLong(Which),
    /// FILE gives no function of the wanted name.
    Read(ReadFault),
    /// The function breaks a rule.
    Verify(VerifyFault),
    /// COSTS is no table of the function's costs.
    Cost(CostFault),
    /// The parameters have more bits in all than are tried.
    TooWide {
        bits: u32,
    },
    /// The argument at this place, counted from 0, isn't a number of its parameter's type, or has no parameter; or
    /// there are only so many arguments.
    BadArgs {
        place: u32,
    },
    NoMemory,
}

/// Arguments with a run of the function: the labels that it visits, what it returns and what it costs.
#[derive(Debug, Drop)]
pub struct Witness {
    pub args: Args,
    pub path: Path,
    pub result: RetVal,
    /// The sum of the costs of the visited blocks and of the edges between them.
    pub cost: u64,
}

/// The most that a run spends between two blocks, or from a block to the end.
#[derive(Debug, Drop)]
pub struct PortionBound {
    pub from: Name,
    pub to: Option<Name>,
    pub bound: u64,
}

/// Bounds of portions, in the order of the portions.
pub type Bounds = Sequence<PortionBound>;

/// The way to a worst case.
#[derive(Clone, Copy, Debug, PartialEq, Eq)]
pub enum How {
    /// All arguments were tried, as there are few.
    Trial,
    /// All arguments were tried, as it was asked for.
    Brute,
}

/// One of the files that a command names.
#[derive(Clone, Copy, Debug, PartialEq, Eq)]
pub enum Which {
    File,
    Costs,
    Proof,
}
