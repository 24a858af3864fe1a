ghost use Rattle.std.specs.Prelude.{◌≡◌, ◌∷◌, ◌++◌, [], codes, decimal, OnOk};
ghost use Rattle.std.specs.List.{flat_map};
ghost use Rattle.ll_tree.specs.Words.{type_word};
ghost use Rattle.witness_report.specs.Parts.{line, local, spaced, typed_number, spaced_arg, spaced_name, spaced_spot, spaced_value};

use ir_runs::RetVal;
use itoa::Buffer;
use ll_tree::push_name;
use ll_verifier::Spot;
use wx_base::{Arg, Name, NoMemory};

pub fn push(text: &mut Vec<u8>, more: &[u8]) -> Result<(), NoMemory>
    ensures { OnOk result (text.new.items ≡ text.old.items ++ more.now) }
{
    text.extend_from_slice(more)?;
    Ok(())
}

pub fn push_number(text: &mut Vec<u8>, number: u64) -> Result<(), NoMemory>
    ensures { OnOk result (text.new.items ≡ text.old.items ++ decimal number) }
{
    let mut digits = Buffer::new();
    push(text, digits.format(number).as_bytes())
}

/// A line of some words.
pub fn push_line(text: &mut Vec<u8>, words: &[u8]) -> Result<(), NoMemory>
    ensures { OnOk result (text.new.items ≡ text.old.items ++ line words.now) }
{
    push(text, words)?;
    push(text, b"\n")
}

/// Some words and a number.
pub fn push_words_number(text: &mut Vec<u8>, words: &[u8], number: u64) -> Result<(), NoMemory>
    ensures { OnOk result (text.new.items ≡ text.old.items ++ (words.now ++ decimal number)) }
{
    push(text, words)?;
    push_number(text, number)
}

/// A line of some words and a number.
pub fn push_number_line(text: &mut Vec<u8>, words: &[u8], number: u64) -> Result<(), NoMemory>
    ensures { OnOk result (text.new.items ≡ text.old.items ++ line (words.now ++ decimal number)) }
{
    push_words_number(text, words, number)?;
    push(text, b"\n")
}

/// A line of some words, a spot and a number.
pub fn push_spot_number_line(
    text: &mut Vec<u8>,
    words: &[u8],
    at: &Spot,
    number: u64,
) -> Result<(), NoMemory>
    ensures { OnOk result (text.new.items
        ≡ text.old.items ++ line (words.now ++ (spaced_spot at.now ++ spaced (decimal number)))) }
{
    push(text, words)?;
    push_spot(text, at)?;
    push_spaced_number(text, number)?;
    push(text, b"\n")
}

/// A line of some words and names.
pub fn push_names_line(text: &mut Vec<u8>, words: &[u8], names: &[Name]) -> Result<(), NoMemory>
    ensures { OnOk result (text.new.items
        ≡ text.old.items ++ line (words.now ++ flat_map spaced_name names.now)) }
{
    push(text, words)?;
    push_names(text, names)?;
    push(text, b"\n")
}

/// A line of some words and a name.
pub fn push_name_line(text: &mut Vec<u8>, words: &[u8], name: &Name) -> Result<(), NoMemory>
    ensures { OnOk result (text.new.items
        ≡ text.old.items ++ line (words.now ++ spaced_name name.now)) }
{
    push(text, words)?;
    push_spaced_name(text, name)?;
    push(text, b"\n")
}

/// A line of some words and a spot.
pub fn push_spot_line(text: &mut Vec<u8>, words: &[u8], at: &Spot) -> Result<(), NoMemory>
    ensures { OnOk result (text.new.items
        ≡ text.old.items ++ line (words.now ++ spaced_spot at.now)) }
{
    push(text, words)?;
    push_spot(text, at)?;
    push(text, b"\n")
}

pub fn push_names(text: &mut Vec<u8>, names: &[Name]) -> Result<(), NoMemory>
    ensures { OnOk result (text.new.items ≡ text.old.items ++ flat_map spaced_name names.now) }
{
    for name in names {
        push_spaced_name(text, name)?;
    }
    Ok(())
}

pub fn push_args(text: &mut Vec<u8>, args: &[Arg]) -> Result<(), NoMemory>
    ensures { OnOk result (text.new.items ≡ text.old.items ++ flat_map spaced_arg args.now) }
{
    for arg in args {
        push_arg(text, *arg)?;
    }
    Ok(())
}

#[tactic(auto, unfolding(crate::specs::Parts::spaced_value))]
pub fn push_value(text: &mut Vec<u8>, value: RetVal) -> Result<(), NoMemory>
    ensures { OnOk result (text.new.items ≡ text.old.items ++ spaced_value value) }
{
    match value {
        RetVal::Void => push(text, b" void"),
        RetVal::Poison(_) => push(text, b" poison"),
        RetVal::Num {
            width,
            value: number,
        } => {
            push(text, b" ")?;
            push_typed_number(text, width, number)
        }
    }
}

#[tactic(auto, unfolding(crate::specs::Parts::spaced_spot))]
pub fn push_spot(text: &mut Vec<u8>, at: &Spot) -> Result<(), NoMemory>
    ensures { OnOk result (text.new.items ≡ text.old.items ++ spaced_spot at.now) }
{
    push_spaced_name(text, &at.block)?;
    push_spaced_number(text, u64::from(at.item))
}

/// A blank and a word.
pub fn push_spaced(text: &mut Vec<u8>, word: &[u8]) -> Result<(), NoMemory>
    ensures { OnOk result (text.new.items ≡ text.old.items ++ spaced word.now) }
{
    push(text, b" ")?;
    push(text, word)
}

/// A blank and a number.
pub fn push_spaced_number(text: &mut Vec<u8>, number: u64) -> Result<(), NoMemory>
    ensures { OnOk result (text.new.items ≡ text.old.items ++ spaced (decimal number)) }
{
    push(text, b" ")?;
    push_number(text, number)
}

pub fn push_spaced_name(text: &mut Vec<u8>, name: &Name) -> Result<(), NoMemory>
    ensures { OnOk result (text.new.items ≡ text.old.items ++ spaced_name name.now) }
{
    push(text, b" ")?;
    push_local(text, name)
}

/// A local name, as the canonical text of a function has it.
pub fn push_local(text: &mut Vec<u8>, name: &Name) -> Result<(), NoMemory>
    ensures { OnOk result (text.new.items ≡ text.old.items ++ local name.now) }
{
    push(text, b"%")?;
    push_name(text, name.bytes())
}

fn push_arg(text: &mut Vec<u8>, arg: Arg) -> Result<(), NoMemory>
    ensures { OnOk result (text.new.items ≡ text.old.items ++ spaced_arg arg) }
{
    push(text, b" ")?;
    push_typed_number(text, arg.width, arg.value)
}

#[tactic(auto, unfolding(crate::specs::Parts::typed_number))]
fn push_typed_number(text: &mut Vec<u8>, width: u32, value: u32) -> Result<(), NoMemory>
    ensures { OnOk result (text.new.items ≡ text.old.items ++ typed_number width value) }
{
    push(text, b"i")?;
    push_number(text, u64::from(width))?;
    push(text, b" ")?;
    push_number(text, u64::from(value))
}
