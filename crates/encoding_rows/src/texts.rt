//! The texts that rows stand for.

use std::alloc::Global;
use wx_base::NoMemory;

/// The longest text that is read.
pub const MOST: usize = 1 << 20;

pub fn no_row(alloc: Global) -> Result<String, NoMemory> {
    Ok(String::from_str(alloc, "no row")?)
}

/// The bytes of a text: LF is written as `~`.
pub fn plain(alloc: Global, text: &str) -> Result<Vec<u8>, NoMemory> {
    let mut bytes = Vec::new(alloc);
    for byte in text.as_bytes() {
        bytes.push(if *byte == b'~' { b'\n' } else { *byte })?;
    }
    Ok(bytes)
}
