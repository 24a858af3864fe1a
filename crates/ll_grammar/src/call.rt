//! Calls of functions of LLVM: those with a result, and `llvm.assume`.

ghost use Rattle.std.specs.Prelude.{◌≡◌, ◌≤◌};
ghost use Rattle.ll_grammar.specs.Reading.{Gives};
ghost use Rattle.ll_grammar.specs.Forms.{is_call_word, call_words, called, last_argument, close_call, value_call, assume_callee, void, assume};

use crate::cursor::Cursor;
use crate::opcodes::{Callee, callee_of, no_flags};
use crate::operand::of_width;
use crate::stop::{Place, Stop};
use crate::words::is_text;
use ll_token::TokenKind;
use ll_tree::{Op, Operand};
use std::alloc::Global;

/// Whether a word is the first of a call.
#[tactic(auto, unfolding(crate::specs::Forms::is_call_word))]
pub fn is_call_word(word: &[u8]) -> bool
    ensures { result ≡ is_call_word word.now }
{
    is_text(word, b"call") || is_text(word, b"tail") || is_text(word, b"notail")
}

/// `call`, and the word before it where there is one.
#[tactic(auto, unfolding(crate::specs::Forms::call_words))]
fn call_words(cursor: &mut Cursor) -> Result<(), Stop>
    ensures { Gives result cursor.new (call_words cursor.old) }
{
    if !is_text(cursor.word(), b"call") {
        cursor.advance();
    }
    cursor.keyword(b"call")
}

/// The name of a function with operands of this width.
#[tactic(auto, unfolding(crate::specs::Forms::called, crate::specs::Forms::callee_at))]
fn called(alloc: Global, cursor: &mut Cursor, width: u32) -> Result<Callee, Stop>
    ensures { Gives result cursor.new (called width cursor.old) }
{
    if !cursor.is_kind(TokenKind::Global) {
        return cursor.stop(Place::Callee);
    }
    let name = cursor.next_name(alloc)?;
    let Some(callee) = callee_of(width, name.bytes()) else {
        return cursor.stop(Place::Callee);
    };
    cursor.advance();
    Ok(callee)
}

/// The second argument, and what the call computes.
#[tactic(auto, unfolding(crate::specs::Forms::last_argument))]
fn last_argument(
    alloc: Global,
    cursor: &mut Cursor,
    callee: Callee,
    width: u32,
    first: Operand,
) -> Result<Op, Stop>
    requires { width ≤ 32 }
    ensures { Gives result cursor.new (last_argument callee width first cursor.old) }
{
    match callee {
        Callee::Bin(kind) => Ok(Op::Bin {
            kind,
            flags: no_flags(),
            width,
            left: first,
            right: of_width(alloc, cursor, width)?,
        }),
        Callee::Abs => {
            cursor.one_width(1)?;
            let strict = cursor.literal(1)? == 1;
            Ok(Op::Abs {
                width,
                arg: first,
                strict,
            })
        }
    }
}

/// The parenthesis that closes, and the group of attributes where one is written.
#[tactic(auto, unfolding(crate::specs::Forms::close_call))]
fn close_call(cursor: &mut Cursor) -> Result<(), Stop>
    ensures { Gives result cursor.new (close_call cursor.old) }
{
    cursor.mark(b')')?;
    if cursor.is_group() {
        cursor.advance();
    }
    Ok(())
}

/// A call with a result.
#[tactic(auto, unfolding(crate::specs::Forms::value_call))]
pub fn value_call(alloc: Global, cursor: &mut Cursor) -> Result<Op, Stop>
    ensures { Gives result cursor.new (value_call cursor.old) }
{
    call_words(cursor)?;
    let width = cursor.width()?;
    let callee = called(alloc, cursor, width)?;
    cursor.mark(b'(')?;
    let first = of_width(alloc, cursor, width)?;
    cursor.mark(b',')?;
    let op = last_argument(alloc, cursor, callee, width, first)?;
    close_call(cursor)?;
    Ok(op)
}

/// The name `llvm.assume`.
#[tactic(auto, unfolding(crate::specs::Forms::assume_callee, crate::specs::Forms::assume_at))]
fn assume_callee(alloc: Global, cursor: &mut Cursor) -> Result<(), Stop>
    ensures { Gives result cursor.new (assume_callee cursor.old) }
{
    if !cursor.is_kind(TokenKind::Global) {
        return cursor.stop(Place::Callee);
    }
    let name = cursor.next_name(alloc)?;
    if !is_text(name.bytes(), b"llvm.assume") {
        return cursor.stop(Place::Callee);
    }
    cursor.advance();
    Ok(())
}

/// `void` before the name of a called function.
#[tactic(auto, unfolding(crate::specs::Forms::void))]
fn void(cursor: &mut Cursor) -> Result<(), Stop>
    ensures { Gives result cursor.new (void cursor.old) }
{
    if !is_text(cursor.word(), b"void") {
        return cursor.stop(Place::Type);
    }
    cursor.advance();
    Ok(())
}

/// A call of `llvm.assume`.
#[tactic(auto, unfolding(crate::specs::Forms::assume))]
pub fn assume(alloc: Global, cursor: &mut Cursor) -> Result<Op, Stop>
    ensures { Gives result cursor.new (assume cursor.old) }
{
    call_words(cursor)?;
    void(cursor)?;
    assume_callee(alloc, cursor)?;
    cursor.mark(b'(')?;
    let cond = of_width(alloc, cursor, 1)?;
    close_call(cursor)?;
    Ok(Op::Assume { cond })
}
