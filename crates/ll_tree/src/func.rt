use crate::Blocks;
use wx_base::{Name, Sequence};

/// A function, as its text spells it (LLVM Language Reference, "Functions").
#[derive(Debug, Drop)]
pub struct Func {
    pub name: Name,
    pub ret: Ret,
    /// Whether the result is `noundef`: to return poison is undefined.
    pub ret_noundef: bool,
    /// The numbers that the result may be. Another one becomes poison.
    pub ret_range: Option<Range>,
    pub params: Params,
    pub blocks: Blocks,
}

/// The type of a function's result: `void`, or an integer of so many bits.
#[derive(Clone, Copy, Debug, PartialEq, Eq)]
pub enum Ret {
    Void,
    Int(u32),
}

/// A parameter, an integer of `width` bits.
#[derive(Debug, Drop)]
pub struct Param {
    pub name: Name,
    pub width: u32,
    /// The numbers that the argument may be. Another one becomes poison.
    pub range: Option<Range>,
    /// Whether the parameter is both `noundef` and ranged: an argument outside the range is undefined.
    pub strict: bool,
}

/// The parameters of a function, in order.
pub type Params = Sequence<Param>;

/// The numbers from `lo` up to `hi` without it or, where `lo` is the greater, those from `lo` on and those
/// below `hi` ("Parameter Attributes", `range`).
#[derive(Clone, Copy, Debug, PartialEq, Eq)]
pub struct Range {
    pub lo: u32,
    pub hi: u32,
}
