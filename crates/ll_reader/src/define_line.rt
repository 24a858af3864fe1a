//! The name of a define line.

ghost use Rattle.std.specs.Prelude.{◌≡◌, ◌<◌, ◌≤◌, ◌^◌, ◌↔◌, List, ℕ, IsTrue, IfOk, IfSome, Some, length};
ghost use Rattle.std.specs.List.{prefix_len};
ghost use Rattle.ll_token.specs.Bytes.{is_run_byte, is_inner};
ghost use Rattle.ll_reader.specs.DefineLine.{IsFirstSigil, IsNamed, StandsBehind, name_len};

use ll_token::local_name;
use std::alloc::Global;
use wx_base::{Name, NoMemory};

/// The place of the first `@` outside of a string. Strings end with their line at the latest.
fn sigil_place(line: &[u8]) -> Option<usize>
    ensures { IsFirstSigil line.now result }
{
    let mut in_string = false;
    for (at, byte) in line.iter().enumerate() {
        if *byte == b'"' {
            in_string = !in_string;
            continue;
        }
        if *byte == b'@' && !in_string {
            return Some(at);
        }
    }
    None
}

fn run_len(bytes: &[u8]) -> usize
    ensures len { result ≡ prefix_len is_run_byte bytes.now }
    ensures bound { result ≤ length bytes.now }
{
    bytes
        .iter()
        .take_while(|byte| byte.is_ascii_alphanumeric()
            || matches!(**byte, b'-' | b'$' | b'.' | b'_'))
        .count()
}

fn inner_len(bytes: &[u8]) -> usize
    ensures len { result ≡ prefix_len is_inner bytes.now }
    ensures bound { result ≤ length bytes.now }
{
    bytes
        .iter()
        .take_while(|byte| **byte != b'"' && **byte != b'\n')
        .count()
}

/// How many bytes a run or a string at the front has.
#[tactic(auto, unfolding(crate::specs::DefineLine::name_len))]
fn name_len(bytes: &[u8]) -> usize
    requires { length bytes.now < 2 ^ 31 }
    ensures len { result ≡ name_len bytes.now }
    ensures bound { result ≤ length bytes.now }
{
    match bytes {
        [] => 0,
        [b'"', rest @ ..] => (inner_len(rest) + 2).min(bytes.len()),
        _ => run_len(bytes),
    }
}

/// The global name of which these bytes stand behind the `@`, whatever follows it.
fn name_behind(alloc: Global, bytes: &[u8]) -> Result<Option<Name>, NoMemory>
    requires { length bytes.now < 2 ^ 31 }
    ensures found { IfOk result (λ found. IfSome found (StandsBehind bytes.now)) }
    ensures only { (name : List ℕ) → StandsBehind bytes.now name
        → IfOk result (λ found. found ≡ Some name) }
{
    let (written, _) = bytes.split_at(name_len(bytes));
    let mut local = Vec::new(alloc);
    local.push(b'%')?;
    local.extend_from_slice(written)?;
    local_name(alloc, &local)
}

/// Whether a define line has the name: the global name at its first `@` outside of a string.
pub fn is_named(alloc: Global, line: &[u8], name: &Name) -> Result<bool, NoMemory>
    requires { length line.now < 2 ^ 31 }
    ensures { IfOk result (λ is. IsTrue is ↔ IsNamed line.now name.now) }
{
    let Some(at) = sigil_place(line) else {
        return Ok(false);
    };
    let (_, behind) = line.split_at(at + 1);
    match name_behind(alloc, behind)? {
        Some(found) => Ok(found.same(name)),
        None => Ok(false),
    }
}
