ghost use Rattle.std.specs.Prelude.{◌≡◌, ◌∷◌, ◌++◌, [], codes, decimal, OnOk};
ghost use Rattle.ll_tree.specs.Words.{type_word};
ghost use Rattle.ll_tree.specs.Naming.{name_text};
ghost use Rattle.ll_tree.specs.Pieces.{piece_text};
ghost use Rattle.ll_tree.specs.Text.{literal, operand_piece};

use crate::Operand;
use crate::naming::{push, push_name};
use itoa::Buffer;
use wx_base::{Name, NoMemory};

pub fn push_number(text: &mut Vec<u8>, number: u32) -> Result<(), NoMemory>
    ensures { OnOk result (text.new.items ≡ text.old.items ++ decimal number) }
{
    let mut digits = Buffer::new();
    push(text, digits.format(number).as_bytes())
}

/// The type of an integer of so many bits.
pub fn push_type(text: &mut Vec<u8>, width: u32) -> Result<(), NoMemory>
    ensures { OnOk result (text.new.items ≡ text.old.items ++ type_word width) }
{
    push(text, b"i")?;
    push_number(text, width)
}

/// A local name.
pub fn push_local(text: &mut Vec<u8>, name: &Name) -> Result<(), NoMemory>
    ensures { OnOk result (text.new.items ≡ text.old.items ++ 37 ∷ name_text name.now) }
{
    push(text, b"%")?;
    push_name(text, name.bytes())
}

/// A number of so many bits.
pub fn push_literal(text: &mut Vec<u8>, width: u32, number: u32) -> Result<(), NoMemory>
    ensures { OnOk result (text.new.items ≡ text.old.items ++ piece_text (literal width number)) }
{
    if width != 1 {
        push_number(text, number)
    } else if number == 0 {
        push(text, b"false")
    } else {
        push(text, b"true")
    }
}

pub fn push_operand(text: &mut Vec<u8>, width: u32, operand: &Operand) -> Result<(), NoMemory>
    ensures { OnOk result (text.new.items ≡ text.old.items
        ++ piece_text (operand_piece width operand.now)) }
{
    match operand {
        Operand::Name(name) => push_local(text, name),
        Operand::Const(number) => push_literal(text, width, *number),
        Operand::Poison => push(text, b"poison"),
    }
}
