//! Terminators, by their word (LLVM Language Reference, "Terminator Instructions").

ghost use Rattle.std.specs.Prelude.{◌≡◌, length, []};
ghost use Rattle.ll_grammar.specs.Reading.{Gives};
ghost use Rattle.ll_grammar.specs.Forms.{return_value, branch, case, cases, switch, terminator};

use crate::cursor::Cursor;
use crate::operand::{next_target, operand, target, typed};
use crate::stop::{Place, Stop};
use crate::words::is_text;
use ll_tree::{Case, Cases, End};
use std::alloc::Global;
use wx_base::Sequence;

/// `void`, or `TY OP`.
#[tactic(auto, unfolding(crate::specs::Forms::return_value))]
fn return_value(alloc: Global, cursor: &mut Cursor) -> Result<End, Stop>
    ensures { Gives result cursor.new (return_value cursor.old) }
{
    if is_text(cursor.word(), b"void") {
        cursor.advance();
        return Ok(End::RetVoid);
    }
    let (width, value) = typed(alloc, cursor)?;
    Ok(End::Ret { width, value })
}

/// `label %l`, or `i1 OP, label %l, label %l`.
#[tactic(auto, unfolding(crate::specs::Forms::branch))]
fn branch(alloc: Global, cursor: &mut Cursor) -> Result<End, Stop>
    ensures { Gives result cursor.new (branch cursor.old) }
{
    if is_text(cursor.word(), b"label") {
        let to = target(alloc, cursor)?;
        return Ok(End::Br { to });
    }
    cursor.keyword(b"i1")?;
    let cond = operand(alloc, cursor, 1)?;
    let yes = next_target(alloc, cursor)?;
    let no = next_target(alloc, cursor)?;
    Ok(End::CondBr { cond, yes, no })
}

/// `TY NUM, label %l`.
#[tactic(auto, unfolding(crate::specs::Forms::case))]
fn case(alloc: Global, cursor: &mut Cursor) -> Result<Case, Stop>
    ensures { Gives result cursor.new (case cursor.old) }
{
    let width = cursor.width()?;
    let value = cursor.literal(width)?;
    let to = next_target(alloc, cursor)?;
    Ok(Case { width, value, to })
}

/// Cases up to the bracket. Each takes tokens, so there are no more of them than of those.
fn cases(alloc: Global, cursor: &mut Cursor) -> Result<Cases, Stop>
    ensures { Gives result cursor.new (cases (length cursor.old) [] cursor.old) }
{
    let mut cases = Sequence::new(alloc);
    let most = cursor.len();
    for _ in 0..most {
        if cursor.is_mark(b']') {
            cursor.advance();
            return Ok(cases);
        }
        cases.push(case(alloc, cursor)?)?;
    }
    Err(Stop::RanOut)
}

/// `TY OP, label %l [ TY NUM, label %l .. ]`.
#[tactic(auto, unfolding(crate::specs::Forms::switch))]
fn switch(alloc: Global, cursor: &mut Cursor) -> Result<End, Stop>
    ensures { Gives result cursor.new (switch cursor.old) }
{
    let (width, value) = typed(alloc, cursor)?;
    let default = next_target(alloc, cursor)?;
    cursor.mark(b'[')?;
    let cases = cases(alloc, cursor)?;
    Ok(End::Switch {
        width,
        value,
        default,
        cases,
    })
}

/// A terminator.
#[tactic(auto, unfolding(crate::specs::Forms::terminator))]
pub fn terminator(alloc: Global, cursor: &mut Cursor) -> Result<End, Stop>
    ensures { Gives result cursor.new (terminator cursor.old) }
{
    let word = cursor.word();
    if is_text(word, b"ret") {
        cursor.advance();
        return return_value(alloc, cursor);
    }
    if is_text(word, b"br") {
        cursor.advance();
        return branch(alloc, cursor);
    }
    if is_text(word, b"switch") {
        cursor.advance();
        return switch(alloc, cursor);
    }
    if is_text(word, b"unreachable") {
        cursor.advance();
        return Ok(End::Unreachable);
    }
    cursor.stop(Place::Keyword)
}
