ghost use Rattle.std.specs.Prelude.{◌≡◌};
ghost use Rattle.witness_report.specs.Status.{answer_status, status_of};

use crate::Answer;

/// What a call answered, and whether its text was written.
#[derive(Debug, Drop)]
pub struct Outcome {
    pub answer: Answer,
    pub written: Written,
}

impl Outcome {
    /// The status of the process: 0 for an exact answer or a run, also for one that isn't defined, 1 for a refusal, 2
    /// where the words are no command, 5 where the outside failed and 6 where memory was wanting. Where the text was
    /// not fully written, that alone decides.
    pub fn status(&self) -> u8
        ensures { result ≡ status_of self.now }
    {
        match self.written {
            Written::NoMemory => 6,
            Written::Failed => 5,
            Written::Full => self.answer.status(),
        }
    }
}

/// How much of the text was written.
#[derive(Clone, Copy, Debug, PartialEq, Eq)]
pub enum Written {
    Full,
    /// The sink failed, and a front of the text may have been written.
    Failed,
    /// Memory was wanting, and nothing was written.
    NoMemory,
}

impl Answer {
    // The status where the text was written.
    fn status(&self) -> u8
        ensures { result ≡ answer_status self.now }
    {
        match self {
            Answer::Exact { .. }
            | Answer::NoRun { .. }
            | Answer::Ran(_)
            | Answer::Undefined { .. } => 0,
            Answer::Read(_)
            | Answer::Verify(_)
            | Answer::Cost(_)
            | Answer::TooLong(_)
            | Answer::TooWide { .. }
            | Answer::BadArgs { .. } => 1,
            Answer::Usage => 2,
            Answer::FetchFault(_) => 5,
            Answer::NoMemory => 6,
        }
    }
}
