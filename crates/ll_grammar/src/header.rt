//! The header of a function (LLVM Language Reference, "Functions", "Parameter Attributes").

ghost use Rattle.std.specs.Prelude.{◌≡◌, ◌≤◌, ◌<◌, ◌+◌, ◌^◌, Bool, IfOk, length, []};
ghost use Rattle.std.specs.List.{list_all};
ghost use Rattle.std.specs.Fmt.{decimal};
ghost use Rattle.std.specs.Char.{is_ascii_digit};
ghost use Rattle.op_table.specs.Rows.{rows_of};
ghost use Rattle.ll_grammar.specs.Reading.{Gives, Done};
ghost use Rattle.ll_grammar.specs.Header.{is_among, rows, words, other_literal, bounds, range_at, ret_type, ranged_result, result_type, is_unnamed, param_range, param_type, param_of, closing, param, count_unnamed, params_within, params, to_body};

use crate::cursor::Cursor;
use crate::opcodes::has_width;
use crate::stop::{Place, Stop};
use crate::words::is_text;
use ll_token::TokenKind;
use ll_tree::{Param, Params, Range, Ret};
use op_table::{WordTable, attribute_words, header_words};
use std::alloc::Global;
use wx_base::{Name, NoMemory, Sequence};

/// What stands before the name of a function.
#[derive(Clone, Copy, Debug, PartialEq, Eq)]
pub struct ResultType {
    pub ret: Ret,
    pub noundef: bool,
    pub range: Option<Range>,
}

/// A parameter's type and what stands behind it.
#[derive(Clone, Copy, Debug, PartialEq, Eq)]
pub struct ParamType {
    pub width: u32,
    pub noundef: bool,
    pub range: Option<Range>,
}

/// Whether a word is in a table.
fn is_among<const N: usize>(table: &WordTable<N>, word: &[u8]) -> bool
    ensures { result ≡ is_among (rows_of table.now.words.now) word.now }
{
    table.find(word).is_some()
}

/// The words that may stand before the type of a result, or behind a parameter's type.
#[derive(Clone, Copy, Debug, PartialEq, Eq)]
pub enum Table {
    Header,
    Attribute,
}

/// Whether a word is in one of the tables.
fn is_word_of(table: Table, word: &[u8]) -> bool
    ensures { result ≡ is_among (rows table) word.now }
{
    match table {
        Table::Header => is_among(&header_words(), word),
        Table::Attribute => is_among(&attribute_words(), word),
    }
}

/// Passes over the words of a table. Gives whether `noundef` is among them, or was before.
#[tactic(auto, unfolding(crate::specs::Header::words))]
fn words(cursor: &mut Cursor, table: Table, noundef: bool) -> bool
    ensures { words (rows table) noundef cursor.old ≡ Done result cursor.new }
{
    let mut found = noundef;
    let most = cursor.len();
    for _ in 0..most {
        let word = cursor.word();
        if !is_word_of(table, word) {
            return found;
        }
        found = found || is_text(word, b"noundef");
        cursor.advance();
    }
    found
}

/// The number that the next token stands for, where it isn't this one.
#[tactic(auto, unfolding(crate::specs::Header::other_literal))]
fn other_literal(cursor: &Cursor, width: u32, number: u32) -> Option<u32>
    requires { width ≤ 32 }
    ensures { result ≡ other_literal width number cursor.now }
{
    let found = cursor.next_literal(width)?;
    if found == number { None } else { Some(found) }
}

/// `NUM , NUM )`, where the numbers differ.
#[tactic(auto, unfolding(crate::specs::Header::bounds))]
fn bounds(cursor: &mut Cursor, width: u32) -> Result<Range, Stop>
    requires { width ≤ 32 }
    ensures { Gives result cursor.new (bounds width cursor.old) }
{
    let lo = cursor.literal(width)?;
    cursor.mark(b',')?;
    let Some(hi) = other_literal(cursor, width, lo) else {
        return cursor.stop(Place::Literal);
    };
    cursor.advance();
    cursor.mark(b')')?;
    Ok(Range { lo, hi })
}

/// Whether a range comes next.
fn is_range(cursor: &Cursor) -> bool
    ensures { result ≡ range_at cursor.now }
{
    is_text(cursor.word(), b"range")
}

/// The type of a result, or `void`.
#[tactic(auto, unfolding(crate::specs::Header::ret_type))]
fn ret_type(cursor: &mut Cursor) -> Result<Ret, Stop>
    ensures { Gives result cursor.new (ret_type cursor.old) }
{
    if is_text(cursor.word(), b"void") {
        cursor.advance();
        return Ok(Ret::Void);
    }
    Ok(Ret::Int(cursor.width()?))
}

/// The type of a result with a range, behind the word `range`.
#[tactic(auto, unfolding(crate::specs::Header::ranged_result))]
fn ranged_result(cursor: &mut Cursor, noundef: bool) -> Result<ResultType, Stop>
    ensures { Gives result cursor.new (ranged_result noundef cursor.old) }
{
    cursor.mark(b'(')?;
    let width = cursor.width()?;
    let range = bounds(cursor, width)?;
    let noundef = words(cursor, Table::Header, noundef);
    if !has_width(width, cursor.word()) {
        return cursor.stop(Place::RangedResult);
    }
    cursor.advance();
    Ok(ResultType {
        ret: Ret::Int(width),
        noundef,
        range: Some(range),
    })
}

/// The words before the type of a function's result, and the type.
#[tactic(auto, unfolding(crate::specs::Header::result_type))]
pub fn result_type(cursor: &mut Cursor) -> Result<ResultType, Stop>
    ensures { Gives result cursor.new (result_type cursor.old) }
{
    let noundef = words(cursor, Table::Header, false);
    if is_range(cursor) {
        cursor.advance();
        return ranged_result(cursor, noundef);
    }
    let ret = ret_type(cursor)?;
    Ok(ResultType {
        ret,
        noundef,
        range: None,
    })
}

/// Whether a parameter of this name counts as unnamed.
fn is_unnamed(name: &[u8]) -> bool
    ensures { result ≡ is_unnamed name.now }
{
    name.iter().all(|byte| byte.is_ascii_digit())
}

/// A range behind a parameter's type, where one is written, and the attributes behind it.
#[tactic(auto, unfolding(crate::specs::Header::param_range))]
fn param_range(cursor: &mut Cursor, width: u32, noundef: bool) -> Result<ParamType, Stop>
    requires { width ≤ 32 }
    ensures { Gives result cursor.new (param_range width noundef cursor.old) }
{
    if !is_range(cursor) {
        return Ok(ParamType {
            width,
            noundef,
            range: None,
        });
    }
    cursor.advance();
    cursor.mark(b'(')?;
    cursor.one_width(width)?;
    let range = bounds(cursor, width)?;
    let noundef = words(cursor, Table::Attribute, noundef);
    Ok(ParamType {
        width,
        noundef,
        range: Some(range),
    })
}

/// A parameter's type, and what stands behind it.
#[tactic(auto, unfolding(crate::specs::Header::param_type))]
fn param_type(cursor: &mut Cursor) -> Result<ParamType, Stop>
    ensures { Gives result cursor.new (param_type cursor.old) }
{
    let width = cursor.width()?;
    let noundef = words(cursor, Table::Attribute, false);
    param_range(cursor, width, noundef)
}

fn param_of(name: Name, typed: ParamType) -> Param
    ensures { result ≡ param_of name typed }
{
    Param {
        name,
        width: typed.width,
        range: typed.range,
        strict: typed.noundef && typed.range.is_some(),
    }
}

/// The mark behind a parameter: whether another one follows.
#[tactic(auto, unfolding(crate::specs::Header::closing))]
fn closing(cursor: &mut Cursor, place: Place) -> Result<bool, Stop>
    ensures { Gives result cursor.new (closing place cursor.old) }
{
    if cursor.is_mark(b',') {
        cursor.advance();
        return Ok(true);
    }
    if !cursor.is_mark(b')') {
        return cursor.stop(place);
    }
    cursor.advance();
    Ok(false)
}

/// The decimal digits of a number.
pub fn decimal(alloc: Global, number: usize) -> Result<Name, NoMemory>
    ensures { IfOk result (λ name. name ≡ decimal number) }
{
    let text = format!(in alloc; "{number}")?;
    Name::new(alloc, text.as_bytes())
}

/// A parameter behind so many unnamed ones, and whether another one follows.
#[tactic(auto, unfolding(crate::specs::Header::param))]
fn param(alloc: Global, cursor: &mut Cursor, unnamed: usize) -> Result<(Param, bool), Stop>
    ensures { Gives result cursor.new (param unnamed cursor.old) }
{
    let typed = param_type(cursor)?;
    if cursor.is_kind(TokenKind::Local) {
        let name = cursor.next_name(alloc)?;
        cursor.advance();
        let more = closing(cursor, Place::Other)?;
        return Ok((param_of(name, typed), more));
    }
    let name = decimal(alloc, unnamed)?;
    let more = closing(cursor, Place::Keyword)?;
    Ok((param_of(name, typed), more))
}

/// How many parameters are unnamed, with one more of this name.
fn count_unnamed(unnamed: usize, name: &[u8]) -> usize
    requires { unnamed + 1 < 2 ^ 64 }
    ensures count { result ≡ count_unnamed unnamed name.now }
    ensures few { result ≤ unnamed + 1 }
{
    if is_unnamed(name) {
        unnamed + 1
    } else {
        unnamed
    }
}

/// Parameters up to the parenthesis that closes, and how many of them are unnamed. Each takes tokens, so
/// there are no more of them than of those.
fn some_params(alloc: Global, cursor: &mut Cursor) -> Result<(Params, usize), Stop>
    ensures { Gives result cursor.new (params_within (length cursor.old) [] 0 cursor.old) }
{
    let mut params = Sequence::new(alloc);
    let mut unnamed = 0;
    let most = cursor.len();
    for _ in 0..most {
        let (param, more) = param(alloc, cursor, unnamed)?;
        unnamed = count_unnamed(unnamed, param.name.bytes());
        params.push(param)?;
        if !more {
            return Ok((params, unnamed));
        }
    }
    Err(Stop::RanOut)
}

/// Parameters behind the parenthesis that opens.
#[tactic(auto, unfolding(crate::specs::Header::params))]
pub fn params(alloc: Global, cursor: &mut Cursor) -> Result<(Params, usize), Stop>
    ensures { Gives result cursor.new (params cursor.old) }
{
    if cursor.is_mark(b')') {
        cursor.advance();
        return Ok((Sequence::new(alloc), 0));
    }
    some_params(alloc, cursor)
}

/// What stands between the parameters and the body, and the brace that opens it.
#[tactic(auto, unfolding(crate::specs::Header::to_body))]
pub fn to_body(cursor: &mut Cursor) -> Result<(), Stop>
    ensures { Gives result cursor.new (to_body cursor.old) }
{
    let most = cursor.len();
    for _ in 0..most {
        if cursor.is_mark(b'{') {
            cursor.advance();
            return Ok(());
        }
        if cursor.is_mark(b'}') {
            return cursor.stop(Place::Other);
        }
        cursor.advance();
    }
    Err(Stop::RanOut)
}
