// What the pieces of divisions share.
ghost use Rattle.std.specs.Prelude.{◌≡◌};
ghost use Rattle.div_rows.specs.Division.{is_exact, chosen, other};

use ll_tree::Flags;

/// Which result of a division is the value.
#[derive(Clone, Copy, Debug, PartialEq, Eq)]
pub enum DivisionKind {
    Quotient,
    Remainder,
}

impl DivisionKind {
    /// Whether a remainder is barred.
    pub(crate) fn is_exact(self, flags: Flags) -> bool
        ensures { result ≡ is_exact self flags }
    {
        match self {
            DivisionKind::Quotient => flags.exact,
            DivisionKind::Remainder => false,
        }
    }

    /// What is the value.
    pub(crate) fn chosen(self, quotient: u32, remainder: u32) -> u32
        ensures { result ≡ chosen self quotient remainder }
    {
        match self {
            DivisionKind::Quotient => quotient,
            DivisionKind::Remainder => remainder,
        }
    }

    /// What isn't the value.
    pub(crate) fn other(self, quotient: u32, remainder: u32) -> u32
        ensures { result ≡ other self quotient remainder }
    {
        match self {
            DivisionKind::Quotient => remainder,
            DivisionKind::Remainder => quotient,
        }
    }
}
