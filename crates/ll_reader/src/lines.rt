//! The lines of a file.

ghost use Rattle.std.specs.Prelude.{◌≡◌, ◌<◌, ◌≤◌, ◌^◌, length};
ghost use Rattle.ll_reader.specs.FileLines.{has_prefix, is_define, is_closing, is_of, first_len, StandBefore};

use memchr::memchr;

/// A line that begins the text of a function, or one that ends it.
#[derive(Clone, Copy)]
pub enum LineKind {
    /// `define` and a space or tab stand at its front.
    Define,
    /// `}` stands at its front.
    Closing,
}

/// Whole lines at the front of some bytes: how many bytes they have, and how many lines they are.
#[derive(Clone, Copy)]
pub struct Passed {
    pub len: usize,
    pub lines: u32,
}

#[tactic(auto, unfolding(crate::specs::FileLines::has_prefix))]
fn has_prefix(prefix: &[u8], bytes: &[u8]) -> bool
    ensures { result ≡ has_prefix prefix.now bytes.now }
{
    bytes.starts_with(prefix)
}

#[tactic(auto, unfolding(crate::specs::FileLines::is_define))]
fn is_define(line: &[u8]) -> bool
    ensures { result ≡ is_define line.now }
{
    has_prefix(b"define ", line) || has_prefix(b"define\t", line)
}

#[tactic(auto, unfolding(crate::specs::FileLines::is_closing))]
fn is_closing(line: &[u8]) -> bool
    ensures { result ≡ is_closing line.now }
{
    match line {
        [first, ..] => *first == b'}',
        [] => false,
    }
}

fn is_of(kind: LineKind, line: &[u8]) -> bool
    ensures { result ≡ is_of kind line.now }
{
    match kind {
        LineKind::Define => is_define(line),
        LineKind::Closing => is_closing(line),
    }
}

/// How many bytes the first line has, its LF included.
pub fn line_len(bytes: &[u8]) -> usize
    requires { length bytes.now < 2 ^ 31 }
    ensures len { result ≡ first_len bytes.now }
    ensures within { result ≤ length bytes.now }
{
    match memchr(b'\n', bytes) {
        Some(inside) => inside + 1,
        None => bytes.len(),
    }
}

/// The lines before the first of a kind: all where none is of it.
pub fn lines_before(kind: LineKind, bytes: &[u8]) -> Passed
    requires { length bytes.now < 2 ^ 31 }
    ensures { StandBefore kind bytes.now result }
{
    let mut len = 0;
    let mut lines = 0;
    while len < bytes.len() {
        let (_, rest) = bytes.split_at(len);
        let first = line_len(rest);
        let (line, _) = rest.split_at(first);
        if is_of(kind, line) {
            return Passed { len, lines };
        }
        len += first;
        lines += 1;
    }
    Passed { len, lines }
}
