//! Why no function was read.

ghost use Rattle.std.specs.Prelude.{◌≡◌};
ghost use Rattle.ll_grammar.specs.declared.stop.Refusal.{Refusal};
ghost use Rattle.ll_reader.specs.FileSpells.{fault_of};

use ll_grammar::Refusal;
use ll_token::TokenFault;
use thiserror::Error;
use wx_base::{Name, NoMemory};

/// Why a file gave no function. The first of these that is so is answered. A `line` is counted from 1 in the
/// file, and `text` is the token as it is written there.
#[derive(Debug, Drop, Error)]
pub enum ReadFault {
    /// No function of the file has the name.
    #[error("no function has the name")]
    NoFunction,
    /// Two functions of the file have the name.
    #[error("two functions have the name")]
    TwoFunctions,
    /// No line behind the function's first begins with `}`.
    #[error("no line closes the function")]
    NotClosed,
    /// The function's text has no tokens: its first fault. The place is counted from the first byte of the
    /// define line.
    #[error("a token is faulty")]
    Token(TokenFault),
    /// A word of LLVM, or a called function, that isn't read here.
    #[error("a word isn't in the profile")]
    NotInProfile { line: u32, text: Name },
    /// An integer type that isn't one of `i1` to `i32`.
    #[error("an integer's width isn't 1 to 32")]
    BadWidth { line: u32, text: Name },
    /// A literal that isn't one of its type, or a range's second number that is its first.
    #[error("a literal isn't one of its type")]
    BadLiteral { line: u32, text: Name },
    /// Something else than a label behind a terminator.
    #[error("a label is wanted")]
    NoLabel { line: u32, text: Name },
    /// Any other token that may not stand at its place.
    #[error("a token is unexpected")]
    Unexpected { line: u32, text: Name },
    #[error("out of memory")]
    NoMemory,
}

impl From<NoMemory> for ReadFault {
    ghost use Rattle.std.specs.Prelude.{◌≡◌};
    ghost use Rattle.ll_reader.specs.declared.fault.ReadFault.TheVariants as faults;

    ghost from_gives = { λ _ fault. fault ≡ faults.NoMemory };

    fn from(_: NoMemory) -> Self {
        ReadFault::NoMemory
    }
}

/// The fault of a token that was refused.
pub fn refused(refusal: Refusal, line: u32, text: Name) -> ReadFault
    ensures { result ≡ fault_of refusal line text }
{
    match refusal {
        Refusal::NotInProfile => ReadFault::NotInProfile { line, text },
        Refusal::BadWidth => ReadFault::BadWidth { line, text },
        Refusal::BadLiteral => ReadFault::BadLiteral { line, text },
        Refusal::NoLabel => ReadFault::NoLabel { line, text },
        Refusal::Unexpected => ReadFault::Unexpected { line, text },
    }
}
