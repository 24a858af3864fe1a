//! The texts that rows stand for.

use std::alloc::Global;
use wx_base::NoMemory;

/// The bytes of a text: LF is written as `~`, and CR as `^`.
pub fn plain(alloc: Global, text: &str) -> Result<Vec<u8>, NoMemory> {
    let mut bytes = Vec::new(alloc);
    for byte in text.as_bytes() {
        bytes.push(plain_byte(*byte))?;
    }
    Ok(bytes)
}

fn plain_byte(byte: u8) -> u8 {
    match byte {
        b'~' => b'\n',
        b'^' => b'\r',
        other => other,
    }
}

/// So many copies of a piece between a head and a tail.
#[derive(Clone, Copy)]
pub struct Copies<'a> {
    head: &'a str,
    piece: &'a str,
    tail: &'a str,
    count: u32,
}

/// `HEAD|PIECE|TAIL|COUNT`
pub fn copies_of(call: &str) -> Option<Copies> {
    let (head, rest) = call.split_once('|')?;
    let (piece, rest) = rest.split_once('|')?;
    let (tail, count) = rest.split_once('|')?;
    Some(Copies {
        head,
        piece,
        tail,
        count: count.parse::<u32>().ok()?,
    })
}

/// The bytes of a text with so many copies more. A `#` is the number of the copy, from 0 on, and a
/// `$` that of the next one, in four digits. The tail counts as the copy behind the last.
pub fn copied(alloc: Global, copies: Copies, more: u32) -> Result<Vec<u8>, NoMemory> {
    let count = copies.count.saturating_add(more);
    let mut text = Vec::new(alloc);
    push_copy(&mut text, copies.head, 0)?;
    for number in 0..count {
        push_copy(&mut text, copies.piece, number)?;
    }
    push_copy(&mut text, copies.tail, count)?;
    Ok(text)
}

fn push_copy(text: &mut Vec<u8>, piece: &str, number: u32) -> Result<(), NoMemory> {
    for byte in piece.as_bytes() {
        match *byte {
            b'#' => push_number(text, number)?,
            b'$' => push_number(text, number.saturating_add(1))?,
            other => text.push(plain_byte(other))?,
        }
    }
    Ok(())
}

fn push_number(text: &mut Vec<u8>, number: u32) -> Result<(), NoMemory> {
    for unit in [1000, 100, 10, 1] {
        text.push(b'0' + (number / unit % 10) as u8)?;
    }
    Ok(())
}
