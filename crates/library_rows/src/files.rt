use std::alloc::Global;
use wx_base::{Files, Name, NoMemory};

// What a files object answers to `fetch NAME LIMIT`, `store NAME BYTES` or `faults`.
pub fn answer<F: Files>(alloc: Global, files: &mut F, call: &str) -> Result<String, NoMemory> {
    let (verb, rest) = call.split_once(' ').unwrap_or((call, ""));
    let (name, last) = rest.split_once(' ').unwrap_or((rest, ""));
    let name = name_of(alloc, name)?;
    match verb {
        "fetch" => fetch(alloc, files, &name, last),
        "store" => store(alloc, files, &name, last),
        _ => Ok(format!(in alloc; "{} faults", files.faults())?),
    }
}

// `#` stands for a byte that is no text.
fn name_of(alloc: Global, word: &str) -> Result<Name, NoMemory> {
    if word == "#" {
        Name::new(alloc, &[255])
    } else {
        Name::new(alloc, word.as_bytes())
    }
}

fn fetch<F: Files>(
    alloc: Global,
    files: &mut F,
    name: &Name,
    limit: &str,
) -> Result<String, NoMemory> {
    let limit = limit.parse::<u64>().unwrap_or(0);
    Ok(match files.fetch(alloc, name, limit) {
        Ok(bytes) => text(alloc, &bytes)?,
        Err(error) => format!(in alloc; "{error}")?,
    })
}

fn store<F: Files>(
    alloc: Global,
    files: &mut F,
    name: &Name,
    bytes: &str,
) -> Result<String, NoMemory> {
    Ok(match files.store(alloc, name, bytes.as_bytes()) {
        Ok(()) => String::from_str(alloc, "kept")?,
        Err(error) => format!(in alloc; "{error}")?,
    })
}

// Bytes as they print.
pub fn text(alloc: Global, bytes: &[u8]) -> Result<String, NoMemory> {
    Ok(String::from_str(alloc, str::from_utf8(bytes).unwrap_or("no text"))?)
}

// How many names were asked for, and what was stored.
pub fn kept(alloc: Global, asked: &[Name], stored: &[(Name, Vec<u8>)]) -> Result<String, NoMemory> {
    let mut line = format!(in alloc; "{} asked", asked.len())?;
    for (name, bytes) in stored {
        line.push_str(", ")?;
        line.push_str(text(alloc, name.bytes())?.as_str())?;
        line.push_str(" ")?;
        line.push_str(text(alloc, bytes)?.as_str())?;
    }
    Ok(line)
}
