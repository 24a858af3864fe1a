use ir_runs::{RetVal, UndefinedCause};
use ll_reader::ReadFault;
use std::alloc::Global;
use witness_report::{Answer, Bounds, How, Outcome, Which, Witness, Written, text};
use wx_base::{Args, Name, NoMemory, Path};

// `WRITTEN ANSWER WORD`: the status of an answer whose text was written so far, and its text.
pub fn answer(alloc: Global, call: &str) -> Result<String, NoMemory> {
    let (written, rest) = call.split_once(' ').unwrap_or((call, ""));
    let (kind, word) = rest.split_once(' ').unwrap_or((rest, ""));
    let outcome = outcome_of(alloc, written, kind, word)?;
    shown(alloc, &outcome)
}

fn outcome_of(alloc: Global, written: &str, kind: &str, word: &str) -> Result<Outcome, NoMemory> {
    Ok(Outcome {
        answer: answer_of(alloc, kind, word)?,
        written: written_of(written),
    })
}

fn shown(alloc: Global, outcome: &Outcome) -> Result<String, NoMemory> {
    let lines = one_line(alloc, &text(alloc, &outcome.answer)?)?;
    Ok(format!(in alloc; "{}, {lines}", outcome.status())?)
}

// Lines as one, with a `/` for each line feed.
pub fn one_line(alloc: Global, bytes: &[u8]) -> Result<String, NoMemory> {
    let mut line = String::new(alloc);
    for byte in bytes {
        line.push(match *byte {
            b'\n' => '/',
            byte => char::from(byte),
        })?;
    }
    Ok(line)
}

fn written_of(word: &str) -> Written {
    match word {
        "failed" => Written::Failed,
        "unwritten" => Written::NoMemory,
        _ => Written::Full,
    }
}

fn answer_of(alloc: Global, kind: &str, word: &str) -> Result<Answer, NoMemory> {
    Ok(match kind {
        "exact" => Answer::Exact {
            witness: witness(alloc, word)?,
            how: How::Trial,
            portions: Bounds::new(alloc),
        },
        "ran" => Answer::Ran(witness(alloc, word)?),
        "none" => Answer::NoRun { how: How::Brute },
        "undefined" => Answer::Undefined {
            block: Name::new(alloc, word.as_bytes())?,
            cause: UndefinedCause::Unreachable,
        },
        "usage" => Answer::Usage,
        "fetch" => Answer::FetchFault(which(word)),
        "too-long" => Answer::TooLong(which(word)),
        "not-closed" => Answer::Read(ReadFault::NotClosed),
        "too-wide" => Answer::TooWide { bits: number(word) },
        "bad-args" => Answer::BadArgs {
            place: number(word),
        },
        _ => Answer::NoMemory,
    })
}

// A run without arguments that visits one block, returns nothing and costs 7.
fn witness(alloc: Global, block: &str) -> Result<Witness, NoMemory> {
    let mut path = Path::new(alloc);
    path.push(Name::new(alloc, block.as_bytes())?)?;
    Ok(Witness {
        args: Args::new(alloc),
        path,
        result: RetVal::Void,
        cost: 7,
    })
}

fn which(word: &str) -> Which {
    match word {
        "file" => Which::File,
        "costs" => Which::Costs,
        _ => Which::Proof,
    }
}

fn number(word: &str) -> u32 {
    word.parse::<u32>().unwrap_or(0)
}
