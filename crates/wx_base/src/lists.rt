ghost use Rattle.std.specs.Prelude.{◌<◌, ◌^◌};

use crate::{Copied, Name, NoMemory, Sequence};
use std::alloc::Global;

/// The words of a command line, without the program's name.
pub type Words = Sequence<Name>;

/// Names in an order that matters.
pub type Names = Sequence<Name>;

/// The labels of the basic blocks that a run visits, in order.
pub type Path = Sequence<Name>;

/// One argument: an integer of `width` bits, whose value is below 2^width.
#[derive(Clone, Copy, Debug, PartialEq, Eq)]
pub struct Arg {
    pub width: u32,
    pub value: u32,
    ghost fits: { value < 2 ^ width },
}

/// The arguments of a function, in the order of its parameters.
pub type Args = Sequence<Arg>;

impl Copied for Arg {
    fn copy(&self, _alloc: Global) -> Result<Arg, NoMemory> {
        Ok(*self)
    }
}
