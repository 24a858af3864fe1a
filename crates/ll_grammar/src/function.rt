//! A whole function, without the brace that closes it.

ghost use Rattle.std.specs.Prelude.{◌≡◌, IfOk};
ghost use Rattle.ll_tree.specs.Formed.{IsFormed};
ghost use Rattle.ll_grammar.specs.Tokens.{AreNamed};
ghost use Rattle.ll_grammar.specs.Reading.{Gives};
ghost use Rattle.ll_grammar.specs.Header.{function};
ghost use Rattle.ll_grammar.specs.Spells.{SpellsFunction};
ghost use Rattle.ll_grammar.specs.Sentences.{IsAnswerFor, Stops};

use crate::block::blocks;
use crate::cursor::Cursor;
use crate::header::{decimal, params, result_type, to_body};
use crate::stop::{Place, Stop};
use ll_token::TokenKind;
use ll_tree::Func;
use std::alloc::Global;

/// Reads the function that the tokens before its last brace spell, which is one at most.
///
/// Answers `Refused` where the grammar can't go on with a token: the cursor stands at it. Answers `RanOut`
/// where the tokens ended before the function did.
#[tactic(auto, using(crate::proofs::SentenceLaws::spelled_by, crate::proofs::SentenceLaws::only_by, crate::proofs::SentenceLaws::formed_by, crate::proofs::SentenceLaws::stops_by))]
pub fn read_function(alloc: Global, cursor: &mut Cursor) -> Result<Func, Stop>
    ensures reads { Gives result cursor.new (function cursor.old) }
    ensures spelled { IfOk result (λ func. SpellsFunction func cursor.old) }
    ensures only { (func : Func) → SpellsFunction func cursor.old → IsAnswerFor result func }
    ensures one { (f g : Func) → SpellsFunction f cursor.old → SpellsFunction g cursor.old → f ≡ g }
    ensures formed { AreNamed cursor.old → IfOk result IsFormed }
    ensures stops { Stops result cursor.old cursor.new }
{
    definition(alloc, cursor)
}

/// The same, by the reading of a function.
#[tactic(auto, unfolding(crate::specs::Header::function))]
fn definition(alloc: Global, cursor: &mut Cursor) -> Result<Func, Stop>
    ensures { Gives result cursor.new (function cursor.old) }
{
    cursor.keyword(b"define")?;
    let result = result_type(cursor)?;
    let name = cursor.name(alloc, TokenKind::Global, Place::Other)?;
    cursor.mark(b'(')?;
    let (params, unnamed) = params(alloc, cursor)?;
    to_body(cursor)?;
    let unwritten = decimal(alloc, unnamed)?;
    let blocks = blocks(alloc, cursor, unwritten)?;
    Ok(Func {
        name,
        ret: result.ret,
        ret_noundef: result.noundef,
        ret_range: result.range,
        params,
        blocks,
    })
}
