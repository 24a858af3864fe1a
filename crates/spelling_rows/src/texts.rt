use proof_spelling::{TextFault, parse, print};
use proof_term::Proof;
use std::alloc::Global;
use wx_base::NoMemory;

// What a text gives.
pub fn text(alloc: Global, marked: &str) -> Result<String, NoMemory> {
    let bytes = bytes_of(alloc, marked)?;
    answer(alloc, bytes.as_slice())
}

// A text with line feeds for its marks.
fn bytes_of(alloc: Global, marked: &str) -> Result<Vec<u8>, NoMemory> {
    let mut bytes = Vec::new(alloc);
    for byte in marked.as_bytes() {
        bytes.push(if *byte == b'/' { b'\n' } else { *byte })?;
    }
    Ok(bytes)
}

// The line of a text's fault, or whether the proof that it spells is printed as the text again.
fn answer(alloc: Global, bytes: &[u8]) -> Result<String, NoMemory> {
    match parse(alloc, bytes)? {
        Ok(proof) => again(alloc, &proof, bytes),
        Err(TextFault { line }) => Ok(format!(in alloc; "fault {line}")?),
    }
}

fn again(alloc: Global, proof: &Proof, bytes: &[u8]) -> Result<String, NoMemory> {
    let printed = print(alloc, proof)?;
    let steps = proof.steps.items().len();
    if printed.as_slice() == bytes {
        return Ok(format!(in alloc; "{steps} steps, printed again")?);
    }
    Ok(format!(in alloc; "{steps} steps, printed otherwise")?)
}

// What each beginning of a text gives, by its length: a new answer is told where it first comes.
pub fn beginnings(alloc: Global, marked: &str) -> Result<String, NoMemory> {
    let bytes = bytes_of(alloc, marked)?;
    let mut told = String::new(alloc);
    let mut last = String::new(alloc);
    for len in 0..bytes.len() {
        let (front, _) = bytes.split_at(len);
        let found = answer(alloc, front)?;
        if last == found {
            continue;
        }
        told.push_str(format!(in alloc; "{len}: {found}; ")?.as_str())?;
        last = found;
    }
    Ok(told)
}

// What a text gives a part of which is repeated.
pub fn repeated(alloc: Global, call: &str) -> Result<String, NoMemory> {
    let (times, marked) = call.split_once(' ').unwrap_or((call, ""));
    let (front, rest) = marked.split_once('|').unwrap_or((marked, ""));
    let (part, back) = rest.split_once('|').unwrap_or((rest, ""));
    let mut bytes = bytes_of(alloc, front)?;
    let part = bytes_of(alloc, part)?;
    for _ in 0..times.parse::<u64>().unwrap_or(0) {
        bytes.extend_from_slice(part.as_slice())?;
    }
    bytes.extend_from_slice(bytes_of(alloc, back)?.as_slice())?;
    answer(alloc, bytes.as_slice())
}
