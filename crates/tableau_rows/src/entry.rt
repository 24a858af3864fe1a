/// A column with its coefficient.
#[derive(Clone, Copy, Debug, PartialEq, Eq)]
pub struct Entry {
    pub column: u32,
    pub coeff: i128,
}
