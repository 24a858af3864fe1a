use crate::answers::one_line;
use std::alloc::Global;
use std::process::ExitCode;
use std::str::SplitWhitespace;
use wcet_core::{NoWords, exit_code, run, words_of};
use wx_base::{MemFiles, MemSink, Name, NoMemory, Sequence, Words};

const TRIANGLE: &str = "define i8 @f(i8 %x) {
entry:
  %c = icmp eq i8 %x, 77
  br i1 %c, label %heavy, label %end
heavy:
  br label %end
end:
  ret i8 %x
}
";

const COSTS: &str = "wcet costs 1
%entry 1
%heavy 4
%end 1
";

// `READ PUT TAKEN WORD..`: what the words of a command line write, on a function with a heavy block and its costs, in
// memory, where the call READ of the files fails, and the call PUT of the sink after so many bytes; then the status,
// and how many files were stored. A call that isn't made doesn't fail.
pub fn command(alloc: Global, call: &str) -> Result<String, NoMemory> {
    let mut words = call.split_whitespace();
    let read = number(words.next());
    let broken = (number(words.next()), number(words.next()) as usize);
    let mut files = files(alloc, read)?;
    let mut out = MemSink::new(alloc, [broken].to_vec(alloc)?);
    let words = named(alloc, words)?;
    let outcome = run(alloc, &words, &mut files, &mut out);
    let written = one_line(alloc, out.bytes())?;
    let (status, stored) = (status_of(&exit_code(&outcome)), files.stored().len());
    Ok(format!(in alloc; "{written} {status}, {stored} stored")?)
}

fn number(word: Option<&str>) -> u64 {
    word.unwrap_or("").parse::<u64>().unwrap_or(0)
}

fn files(alloc: Global, failing: u64) -> Result<MemFiles, NoMemory> {
    let mut pairs = Vec::new(alloc);
    for (name, text) in [("FILE", TRIANGLE), ("COSTS", COSTS)] {
        pairs.push((
            Name::new(alloc, name.as_bytes())?,
            text.as_bytes().to_vec(alloc)?,
        ))?;
    }
    Ok(MemFiles::new(alloc, pairs, [failing].to_vec(alloc)?))
}

fn named(alloc: Global, texts: SplitWhitespace<'_>) -> Result<Words, NoMemory> {
    let mut words = Sequence::new(alloc);
    for word in texts {
        words.push(Name::new(alloc, word.as_bytes())?)?;
    }
    Ok(words)
}

// The status of an exit code, of those up to 7.
fn status_of(code: &ExitCode) -> u8 {
    for status in 0..8 {
        if *code == ExitCode::from(status) {
            return status;
        }
    }
    8
}

// What is kept of the words of a command line.
pub fn words(alloc: Global, call: &str) -> Result<String, NoMemory> {
    let mut all = Vec::new(alloc);
    for word in call.split_whitespace() {
        all.push(String::from_str(alloc, word)?)?;
    }
    match words_of(alloc, all.into_iter()) {
        Ok(words) => listed(alloc, &words),
        Err(cause) => Ok(format!(in alloc; "{cause:?}")?),
    }
}

fn listed(alloc: Global, words: &Words) -> Result<String, NoMemory> {
    let mut line = format!(in alloc; "{} words:", words.len())?;
    for word in words.items() {
        line.push(' ')?;
        line.push_str(one_line(alloc, word.bytes())?.as_str())?;
    }
    Ok(line)
}

// The status where there are no words.
pub fn without_words(alloc: Global, cause: &str) -> Result<String, NoMemory> {
    let cause = match cause {
        "refused" => NoWords::Refused,
        _ => NoWords::NoMemory,
    };
    Ok(format!(in alloc; "{}", status_of(&cause.exit_code()))?)
}
