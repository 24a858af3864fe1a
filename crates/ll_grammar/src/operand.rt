//! Operands, with their types, and the labels of targets.

ghost use Rattle.std.specs.Prelude.{◌≡◌, ◌≤◌, IfOk};
ghost use Rattle.ll_grammar.specs.Reading.{Gives};
ghost use Rattle.ll_grammar.specs.Forms.{operand, typed, of_width, second, target, next_target};

use crate::cursor::Cursor;
use crate::stop::{Place, Stop};
use crate::words::is_text;
use ll_token::TokenKind;
use ll_tree::Operand;
use std::alloc::Global;
use wx_base::Name;

/// An operand of this width: a local name, `poison` or a literal.
#[tactic(auto, unfolding(crate::specs::Forms::operand))]
pub fn operand(alloc: Global, cursor: &mut Cursor, width: u32) -> Result<Operand, Stop>
    requires { width ≤ 32 }
    ensures { Gives result cursor.new (operand width cursor.old) }
{
    if cursor.is_kind(TokenKind::Local) {
        let name = cursor.next_name(alloc)?;
        cursor.advance();
        return Ok(Operand::Name(name));
    }
    if is_text(cursor.word(), b"poison") {
        cursor.advance();
        return Ok(Operand::Poison);
    }
    Ok(Operand::Const(cursor.literal(width)?))
}

/// A type, and an operand of it.
#[tactic(auto, unfolding(crate::specs::Forms::typed))]
pub fn typed(alloc: Global, cursor: &mut Cursor) -> Result<(u32, Operand), Stop>
    ensures reads { Gives result cursor.new (typed cursor.old) }
    ensures few { IfOk result (λ typed. typed.0 ≤ 32) }
{
    let width = cursor.width()?;
    let operand = operand(alloc, cursor, width)?;
    Ok((width, operand))
}

/// The type of this width, and an operand of it.
#[tactic(auto, unfolding(crate::specs::Forms::of_width))]
pub fn of_width(alloc: Global, cursor: &mut Cursor, width: u32) -> Result<Operand, Stop>
    requires { width ≤ 32 }
    ensures { Gives result cursor.new (of_width width cursor.old) }
{
    cursor.one_width(width)?;
    operand(alloc, cursor, width)
}

/// A comma and an operand of this width.
#[tactic(auto, unfolding(crate::specs::Forms::second))]
pub fn second(alloc: Global, cursor: &mut Cursor, width: u32) -> Result<Operand, Stop>
    requires { width ≤ 32 }
    ensures { Gives result cursor.new (second width cursor.old) }
{
    cursor.mark(b',')?;
    operand(alloc, cursor, width)
}

/// `label` and a name.
#[tactic(auto, unfolding(crate::specs::Forms::target))]
pub fn target(alloc: Global, cursor: &mut Cursor) -> Result<Name, Stop>
    ensures { Gives result cursor.new (target cursor.old) }
{
    cursor.keyword(b"label")?;
    cursor.name(alloc, TokenKind::Local, Place::Other)
}

/// A comma, `label` and a name.
#[tactic(auto, unfolding(crate::specs::Forms::next_target))]
pub fn next_target(alloc: Global, cursor: &mut Cursor) -> Result<Name, Stop>
    ensures { Gives result cursor.new (next_target cursor.old) }
{
    cursor.mark(b',')?;
    target(alloc, cursor)
}
