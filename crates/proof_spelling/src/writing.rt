ghost use Rattle.std.specs.Prelude.{◌≡◌, ◌<◌, ◌^◌, ◌∷◌, ◌++◌, [], codes, decimal, OnOk, All, FitsSigned};
ghost use Rattle.std.specs.List.{flat_map};
ghost use Rattle.std.specs.Int.{w128};
ghost use Rattle.std.specs.Fmt.{signed_decimal};
ghost use Rattle.proof_spelling.specs.Text.{spaced, term_text, side_text, literal_text, spaced_literal, spaced_number, spaced_bound};
ghost use Rattle.proof_spelling.specs.Ranges.{TermFits, LitFits};

use itoa::Buffer;
use mix_system::{Lit, Side, Term};
use wx_base::NoMemory;

pub(crate) fn push(text: &mut Vec<u8>, more: &[u8]) -> Result<(), NoMemory>
    ensures { OnOk result (text.new.items ≡ text.old.items ++ more.now) }
{
    text.extend_from_slice(more)?;
    Ok(())
}

fn push_index(text: &mut Vec<u8>, number: u32) -> Result<(), NoMemory>
    ensures text { OnOk result (text.new.items ≡ text.old.items ++ decimal number) }
    ensures fits { number < 2 ^ 32 }
{
    let mut digits = Buffer::new();
    push(text, digits.format(number).as_bytes())
}

fn push_signed(text: &mut Vec<u8>, number: i128) -> Result<(), NoMemory>
    ensures text { OnOk result (text.new.items ≡ text.old.items ++ signed_decimal number) }
    ensures fits { FitsSigned w128 number }
{
    let mut digits = Buffer::new();
    push(text, digits.format(number).as_bytes())
}

// A number of 64 bits, with the space before it.
pub(crate) fn push_long(text: &mut Vec<u8>, number: u64) -> Result<(), NoMemory>
    ensures text { OnOk result (text.new.items ≡ text.old.items ++ spaced_number number) }
    ensures fits { number < 2 ^ 64 }
{
    push(text, b" ")?;
    let mut digits = Buffer::new();
    push(text, digits.format(number).as_bytes())
}

// A number of 32 bits, with the space before it.
pub(crate) fn push_number(text: &mut Vec<u8>, number: u32) -> Result<(), NoMemory>
    ensures text { OnOk result (text.new.items ≡ text.old.items ++ spaced_number number) }
    ensures fits { number < 2 ^ 32 }
{
    push(text, b" ")?;
    push_index(text, number)
}

// A number of 128 bits, with the space before it.
pub(crate) fn push_bound(text: &mut Vec<u8>, bound: i128) -> Result<(), NoMemory>
    ensures text { OnOk result (text.new.items ≡ text.old.items ++ spaced_bound bound) }
    ensures fits { FitsSigned w128 bound }
{
    push(text, b" ")?;
    push_signed(text, bound)
}

// A term, with the space before it.
pub(crate) fn push_term(text: &mut Vec<u8>, term: Term) -> Result<(), NoMemory>
    ensures text { OnOk result (text.new.items ≡ text.old.items ++ spaced (term_text term)) }
    ensures fits { TermFits term }
{
    match term {
        Term::Var(number) => {
            push(text, b" v")?;
            push_index(text, number)
        }
        Term::Row(number) => {
            push(text, b" r")?;
            push_index(text, number)
        }
    }
}

fn push_side(text: &mut Vec<u8>, side: Side) -> Result<(), NoMemory>
    ensures { OnOk result (text.new.items ≡ text.old.items ++ side_text side) }
{
    match side {
        Side::Le => push(text, b"<="),
        Side::Ge => push(text, b">="),
    }
}

// A literal, with the space before it.
pub(crate) fn push_literal(text: &mut Vec<u8>, lit: Lit) -> Result<(), NoMemory>
    ensures text { OnOk result (text.new.items ≡ text.old.items ++ spaced_literal lit) }
    ensures fits { LitFits lit }
{
    push_term(text, lit.term)?;
    push_side(text, lit.side)?;
    push_signed(text, lit.bound)
}

pub(crate) fn push_literals(text: &mut Vec<u8>, lits: &[Lit]) -> Result<(), NoMemory>
    ensures text { OnOk result (text.new.items ≡
        text.old.items ++ flat_map spaced_literal lits.now) }
    ensures fits { OnOk result (All LitFits lits.now) }
{
    for lit in lits {
        push_literal(text, *lit)?;
    }
    Ok(())
}

pub(crate) fn push_numbers(text: &mut Vec<u8>, numbers: &[u32]) -> Result<(), NoMemory>
    ensures text { OnOk result (text.new.items ≡
        text.old.items ++ flat_map spaced_number numbers.now) }
    ensures fits { OnOk result (All (λ number. number < 2 ^ 32) numbers.now) }
{
    for number in numbers {
        push_number(text, *number)?;
    }
    Ok(())
}
