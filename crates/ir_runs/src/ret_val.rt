/// What a run returns.
#[derive(Clone, Copy, Debug, PartialEq, Eq)]
pub enum RetVal {
    Void,
    /// Poison of so many bits.
    Poison(u32),
    /// A number of `width` bits, below 2^width.
    Num { width: u32, value: u32 },
}
