//! Rows: a word for what is asked, and a text.

use std::alloc::Global;
use wx_base::{Name, NoMemory};

/// What is asked.
#[derive(Debug, Drop)]
pub enum Row {
    /// What a file's function with this name is read as.
    Read {
        file: Vec<u8>,
        name: Name,
        prints: bool,
    },
    /// The tokens of a text.
    Tokens(Vec<u8>),
    /// The name that the one token of a text holds.
    Held(Vec<u8>),
}

/// The bytes that a text stands for. Some that a row can't show are written as other characters: LF as `~`, CR as
/// `^`, tab as `'`, NUL as `&`, a vertical tab as `+`, and 255 as `?`.
fn plain(alloc: Global, text: &str) -> Result<Vec<u8>, NoMemory> {
    let mut bytes = Vec::new(alloc);
    for byte in text.as_bytes() {
        bytes.push(match *byte {
            b'~' => b'\n',
            b'^' => b'\r',
            b'\'' => b'\t',
            b'&' => 0,
            b'+' => 11,
            b'?' => 255,
            other => other,
        })?;
    }
    Ok(bytes)
}

/// A function `e` of one block, with this first line and this third one.
fn of_lines(alloc: Global, head: &str, line: &str) -> Result<Row, NoMemory> {
    let text = format!(in alloc; "{head}~entry:~  {line}~  ret i8 %x~}}~")?;
    Ok(Row::Read {
        file: plain(alloc, text.as_str())?,
        name: Name::new(alloc, b"e")?,
        prints: false,
    })
}

/// A name and a whole file.
fn of_file(alloc: Global, case: &str, prints: bool) -> Result<Option<Row>, NoMemory> {
    let Some((name, text)) = case.split_once('|') else {
        return Ok(None);
    };
    Ok(Some(Row::Read {
        file: plain(alloc, text)?,
        name: Name::new(alloc, name.as_bytes())?,
        prints,
    }))
}

/// What a row asks: `None` where it begins with no word of those.
///
/// `line TEXT` is the third line of a function, and `head TEXT` the first line of one; `file NAME|TEXT` is a
/// whole file, and so is `print NAME|TEXT`, where the canonical text is wanted. `tokens TEXT` and `name TEXT`
/// ask for the tokens of a text, and for the name that its one token holds.
pub fn row_of(alloc: Global, row: &str) -> Result<Option<Row>, NoMemory> {
    let Some((word, text)) = row.split_once(' ') else {
        return Ok(None);
    };
    match word {
        "line" => Ok(Some(of_lines(alloc, "define i8 @e(i8 %x) {", text)?)),
        "head" => Ok(Some(of_lines(alloc, text, "")?)),
        "file" => of_file(alloc, text, false),
        "print" => of_file(alloc, text, true),
        "tokens" => Ok(Some(Row::Tokens(plain(alloc, text)?))),
        "name" => Ok(Some(Row::Held(plain(alloc, text)?))),
        _ => Ok(None),
    }
}
