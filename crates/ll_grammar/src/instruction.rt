//! Instructions with a result, behind their word.

ghost use Rattle.std.specs.Prelude.{◌≡◌, ◌≤◌, [], length};
ghost use Rattle.ll_grammar.specs.Reading.{Gives, Done};
ghost use Rattle.ll_grammar.specs.Forms.{flags, binary, compare, conversion, select, operation, entry, behind_comma, another, entries, phi};

use crate::call::{is_call_word, value_call};
use crate::cursor::Cursor;
use crate::opcodes::{
    add_flag, binary_of, cast_of, cast_takes, compare_takes, no_flags, pred_of, takes,
};
use crate::operand::{of_width, operand, second, typed};
use crate::stop::{Place, Stop};
use crate::words::is_text;
use ll_token::TokenKind;
use ll_tree::{BinKind, CastKind, Flags, Op, Phi, PhiEntries, PhiEntry};
use std::alloc::Global;
use wx_base::{Name, Sequence};

/// The flags that come next, of those that are allowed, each once.
#[tactic(auto, unfolding(crate::specs::Forms::flags))]
fn flags(cursor: &mut Cursor, allowed: Flags) -> Flags
    ensures { flags allowed cursor.old ≡ Done result cursor.new }
{
    let mut flags = no_flags();
    let most = cursor.len();
    for _ in 0..most {
        let Some(more) = add_flag(allowed, flags, cursor.word()) else {
            return flags;
        };
        flags = more;
        cursor.advance();
    }
    flags
}

/// `FLAGS TY OP, OP`.
#[tactic(auto, unfolding(crate::specs::Forms::binary))]
fn binary(alloc: Global, cursor: &mut Cursor, kind: BinKind) -> Result<Op, Stop>
    ensures { Gives result cursor.new (binary kind cursor.old) }
{
    let flags = flags(cursor, takes(kind));
    let (width, left) = typed(alloc, cursor)?;
    let right = second(alloc, cursor, width)?;
    Ok(Op::Bin {
        kind,
        flags,
        width,
        left,
        right,
    })
}

/// `FLAGS PRED TY OP, OP`.
#[tactic(auto, unfolding(crate::specs::Forms::compare))]
fn compare(alloc: Global, cursor: &mut Cursor) -> Result<Op, Stop>
    ensures { Gives result cursor.new (compare cursor.old) }
{
    let flags = flags(cursor, compare_takes());
    let Some(pred) = pred_of(cursor.word()) else {
        return cursor.stop(Place::Keyword);
    };
    cursor.advance();
    let (width, left) = typed(alloc, cursor)?;
    let right = second(alloc, cursor, width)?;
    Ok(Op::Cmp {
        pred,
        flags,
        width,
        left,
        right,
    })
}

/// `FLAGS TY OP to TY`.
#[tactic(auto, unfolding(crate::specs::Forms::conversion))]
fn conversion(alloc: Global, cursor: &mut Cursor, kind: CastKind) -> Result<Op, Stop>
    ensures { Gives result cursor.new (conversion kind cursor.old) }
{
    let flags = flags(cursor, cast_takes(kind));
    let (from, arg) = typed(alloc, cursor)?;
    cursor.keyword(b"to")?;
    let to = cursor.width()?;
    Ok(Op::Cast {
        kind,
        flags,
        from,
        arg,
        to,
    })
}

/// `i1 OP, TY OP, TY OP`.
#[tactic(auto, unfolding(crate::specs::Forms::select))]
fn select(alloc: Global, cursor: &mut Cursor) -> Result<Op, Stop>
    ensures { Gives result cursor.new (select cursor.old) }
{
    let cond = of_width(alloc, cursor, 1)?;
    cursor.mark(b',')?;
    let (width, yes) = typed(alloc, cursor)?;
    cursor.mark(b',')?;
    let no = of_width(alloc, cursor, width)?;
    Ok(Op::Select {
        width,
        cond,
        yes,
        no,
    })
}

/// What stands behind `%r =`, but for a phi.
#[tactic(auto, unfolding(crate::specs::Forms::operation))]
pub fn operation(alloc: Global, cursor: &mut Cursor) -> Result<Op, Stop>
    ensures { Gives result cursor.new (operation cursor.old) }
{
    let word = cursor.word();
    if let Some(kind) = binary_of(word) {
        cursor.advance();
        return binary(alloc, cursor, kind);
    }
    if let Some(kind) = cast_of(word) {
        cursor.advance();
        return conversion(alloc, cursor, kind);
    }
    if is_text(word, b"icmp") {
        cursor.advance();
        return compare(alloc, cursor);
    }
    if is_text(word, b"select") {
        cursor.advance();
        return select(alloc, cursor);
    }
    if is_call_word(word) {
        return value_call(alloc, cursor);
    }
    cursor.stop(Place::Form)
}

/// `[ OP, %l ]`.
#[tactic(auto, unfolding(crate::specs::Forms::entry))]
fn entry(alloc: Global, cursor: &mut Cursor, width: u32) -> Result<PhiEntry, Stop>
    requires { width ≤ 32 }
    ensures { Gives result cursor.new (entry width cursor.old) }
{
    cursor.mark(b'[')?;
    let value = operand(alloc, cursor, width)?;
    cursor.mark(b',')?;
    let from = cursor.name(alloc, TokenKind::Local, Place::Other)?;
    cursor.mark(b']')?;
    Ok(PhiEntry { value, from })
}

/// Behind an entry and a comma: whether another entry follows, which is left. Else a pair of metadata is
/// passed over.
#[tactic(auto, unfolding(crate::specs::Forms::behind_comma))]
fn behind_comma(cursor: &mut Cursor) -> Result<bool, Stop>
    ensures { Gives result cursor.new (behind_comma cursor.old) }
{
    if cursor.is_mark(b'[') {
        return Ok(true);
    }
    cursor.metadatum()?;
    cursor.metadatum()?;
    Ok(false)
}

/// Whether another entry follows.
#[tactic(auto, unfolding(crate::specs::Forms::another))]
fn another(cursor: &mut Cursor) -> Result<bool, Stop>
    ensures { Gives result cursor.new (another cursor.old) }
{
    if !cursor.is_mark(b',') {
        return Ok(false);
    }
    cursor.advance();
    behind_comma(cursor)
}

/// Entries, one at least. Each takes tokens, so there are no more of them than of those.
fn entries(alloc: Global, cursor: &mut Cursor, width: u32) -> Result<PhiEntries, Stop>
    requires { width ≤ 32 }
    ensures { Gives result cursor.new (entries width (length cursor.old) [] cursor.old) }
{
    let mut entries = Sequence::new(alloc);
    let most = cursor.len();
    for _ in 0..most {
        entries.push(entry(alloc, cursor, width)?)?;
        if !another(cursor)? {
            return Ok(entries);
        }
    }
    Err(Stop::RanOut)
}

/// A phi with this name, behind its word.
#[tactic(auto, unfolding(crate::specs::Forms::phi))]
pub fn phi(alloc: Global, cursor: &mut Cursor, name: Name) -> Result<Phi, Stop>
    ensures { Gives result cursor.new (phi name cursor.old) }
{
    let width = cursor.width()?;
    let entries = entries(alloc, cursor, width)?;
    Ok(Phi {
        name,
        width,
        entries,
    })
}
