ghost use Rattle.std.specs.Prelude.{◌≡◌, ◌≢◌, drop, map, string_bytes, IfOk};
ghost use Rattle.std.specs.IoError.{error_kind};
ghost use Rattle.std.specs.Process.{exit_status};
ghost use Rattle.std.specs.Vec.Iter.{into_iter_items};
ghost use Rattle.witness_report.specs.Status.{status_of};
ghost use Rattle.wcet_core.specs.Edge.{no_words_status, IsCause};
ghost use Rattle.wcet_core.specs.declared.edge.NoWords.TheVariants as causes;

use std::alloc::Global;
use std::env::Args;
use std::io;
use std::process::ExitCode;
use witness_report::Outcome;
use wx_base::{Name, NoMemory, Sequence, Words};

/// Why there are no words to be had.
#[derive(Clone, Copy, Debug, PartialEq, Eq)]
pub enum NoWords {
    NoMemory,
    /// The runtime refused them, as one that isn't UTF-8.
    Refused,
}

impl From<NoMemory> for NoWords {
    ghost from_gives = { λ _ cause. cause ≡ causes.NoMemory };

    fn from(_: NoMemory) -> Self {
        NoWords::NoMemory
    }
}

impl From<io::Error> for NoWords {
    ghost from_gives = { λ error cause. IsCause (error_kind error) cause };

    fn from(error: io::Error) -> Self {
        match error.kind() {
            io::ErrorKind::OutOfMemory => NoWords::NoMemory,
            _ => NoWords::Refused,
        }
    }
}

impl NoWords {
    /// The status of the process where there are no words: 6 where memory was wanting, and 7 where they were
    /// refused.
    pub fn exit_code(self) -> ExitCode
        ensures { exit_status result ≡ no_words_status self }
    {
        match self {
            NoWords::NoMemory => ExitCode::from(6),
            NoWords::Refused => ExitCode::from(7),
        }
    }
}

/// The status that the process ends with.
pub fn exit_code(outcome: &Outcome) -> ExitCode
    ensures { exit_status result ≡ status_of outcome.now }
{
    ExitCode::from(outcome.status())
}

/// The words of a command line: all but the first, which is the program's name, in order.
pub fn words_of(alloc: Global, mut all: Args) -> Result<Words, NoMemory>
    ensures { IfOk result (λ words. words ≡ map string_bytes (drop 1 (into_iter_items all))) }
{
    let _program = all.next();
    words_among(alloc, all)
}

// The texts as names, in order.
fn words_among(alloc: Global, texts: Args) -> Result<Words, NoMemory>
    ensures { IfOk result (λ names. names ≡ map string_bytes (into_iter_items texts)) }
{
    let mut names = Sequence::with_capacity(alloc, texts.len())?;
    for text in texts {
        names.push(Name::from_vec(text.into_bytes()))?;
    }
    Ok(names)
}
