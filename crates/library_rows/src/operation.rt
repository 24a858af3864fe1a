ghost use Rattle.std.specs.Prelude.{◌≡◌, IfSome};
ghost use Rattle.ir_meaning.specs.Whole.{IsWidth};
ghost use Rattle.ir_meaning.specs.Value.{FitsWidth};
ghost use Rattle.ir_meaning.specs.Rows.{divides};

use crate::names::{bin_kind, cast_kind, flags_of, pred};
use ir_meaning::{Val, abs, bin, cast, cmp, select};
use ll_tree::{BinKind, Flags};
use std::alloc::Global;
use wx_base::NoMemory;

// What an operation gives: its name, its flags, its width and its operands. A conversion's last word is its target's width.
pub fn answer(alloc: Global, call: &str) -> Result<String, NoMemory> {
    Ok(match value_of(call) {
        Some(Val::Num(number)) => format!(in alloc; "{number}")?,
        Some(Val::Poison) => String::from_str(alloc, "poison")?,
        None => String::from_str(alloc, "no call")?,
    })
}

// `None` where no such call may be made.
fn value_of(call: &str) -> Option<Val> {
    let mut words = call.split_whitespace();
    let (name, flags) = (words.next()?, flags_of(words.next()?)?);
    let width = width_of(words.next()?)?;
    let first = value_in(width, words.next()?)?;
    let last = words.next()?;
    if let Some(kind) = cast_kind(name) {
        return Some(cast(kind, &flags, width, width_of(last)?, first));
    }
    let second = value_in(width, last)?;
    if let Some(pred) = pred(name) {
        return Some(cmp(pred, &flags, width, first, second));
    }
    if let Some(kind) = bin_kind(name) {
        return bin_value(kind, &flags, width, first, second);
    }
    match name {
        "abs" => Some(abs(flags.nsw, width, first)),
        "select" => Some(select(value_in(1, words.next()?)?, first, second)),
        _ => None,
    }
}

fn width_of(word: &str) -> Option<u32>
    ensures { IfSome result IsWidth }
{
    match word.parse::<u32>() {
        Ok(width) if 1 <= width && width <= 32 => Some(width),
        _ => None,
    }
}

// A number of the width, or poison.
fn value_in(width: u32, word: &str) -> Option<Val>
    requires { IsWidth width }
    ensures { IfSome result (FitsWidth width) }
{
    if word == "poison" {
        return Some(Val::Poison);
    }
    let number = word.parse::<u32>().ok()?;
    if u64::from(number) < 1 << width {
        Some(Val::Num(number))
    } else {
        None
    }
}

// `None` where the divisor is 0.
fn bin_value(kind: BinKind, flags: &Flags, width: u32, first: Val, second: Val) -> Option<Val>
    requires width { IsWidth width }
    requires first { FitsWidth width first }
    requires second { FitsWidth width second }
{
    if is_division(kind) && second == Val::Num(0) {
        return None;
    }
    Some(bin(kind, flags, width, first, second))
}

fn is_division(kind: BinKind) -> bool
    ensures { result ≡ divides kind }
{
    match kind {
        BinKind::Udiv | BinKind::Sdiv | BinKind::Urem | BinKind::Srem => true,
        _ => false,
    }
}
