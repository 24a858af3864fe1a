ghost use Rattle.std.specs.Prelude.{◌≤◌, IfOk};

use crate::answers::one_line;
use command_words::{arguments_of, job_of};
use ll_tree::Param;
use std::alloc::Global;
use wx_base::{Name, NoMemory, Sequence, Words};

// What words ask for: the command, its names, and how many arguments. Each blank parts two words.
pub fn job(alloc: Global, call: &str) -> Result<String, NoMemory> {
    let words = parted(alloc, call)?;
    let Some(job) = job_of(&words) else {
        return Ok(String::from_str(alloc, "none")?);
    };
    let mut line = format!(in alloc; "{:?}", job.command)?;
    for name in [job.function, job.file, job.costs] {
        line.push(' ')?;
        line.push_str(one_line(alloc, name.bytes())?.as_str())?;
    }
    let count = job.arguments.len();
    Ok(format!(in alloc; "{line} and {count}")?)
}

// `WIDTH WIDTH WORD..`: the arguments that the words give to two parameters of these widths, or the bad place.
pub fn arguments(alloc: Global, call: &str) -> Result<String, NoMemory> {
    let (one, rest) = call.split_once(' ').unwrap_or((call, ""));
    let (other, words) = rest.split_once(' ').unwrap_or((rest, ""));
    let params = [param(alloc, one)?, param(alloc, other)?];
    let words = parted(alloc, words)?;
    match arguments_of(alloc, &params, words.items())? {
        Ok(args) => Ok(format!(in alloc; "{:?}", args.items())?),
        Err(place) => Ok(format!(in alloc; "bad at {place}")?),
    }
}

fn param(alloc: Global, width: &str) -> Result<Param, NoMemory>
    ensures { IfOk result (λ param. param.width ≤ 32) }
{
    Ok(Param {
        name: Name::new(alloc, b"x")?,
        width: width.parse::<u32>().unwrap_or(1).min(32),
        range: None,
        strict: false,
    })
}

fn parted(alloc: Global, text: &str) -> Result<Words, NoMemory> {
    let mut words = Sequence::new(alloc);
    if !text.is_empty() {
        for word in text.split(' ') {
            words.push(Name::new(alloc, word.as_bytes())?)?;
        }
    }
    Ok(words)
}
