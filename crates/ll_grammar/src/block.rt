//! Statements and blocks, and what has no meaning between them.

ghost use Rattle.std.specs.Prelude.{◌≡◌, ◌∷◌, [], length, OnOk};
ghost use Rattle.ll_grammar.specs.Reading.{Gives};
ghost use Rattle.ll_grammar.specs.Tokens.{is_empty};
ghost use Rattle.ll_grammar.specs.Blocks.{metadata, passed, assignment, bare_statement, statement, block, entry_block, labelled_block, blocks_within, blocks};

use crate::call::{assume, is_call_word};
use crate::cursor::Cursor;
use crate::instruction::{operation, phi};
use crate::stop::{Place, Stop};
use crate::terminator::terminator;
use crate::words::is_text;
use ll_token::TokenKind;
use ll_tree::{Block, Blocks, End, Instr, Instrs, Phi, Phis};
use std::alloc::Global;
use wx_base::{Name, NoMemory, Sequence};

/// What a block is made of.
#[derive(Debug, Drop)]
pub enum Item {
    Phi(Phi),
    Instr(Instr),
    End(End),
}

/// Pairs of metadata, each behind a comma.
#[tactic(auto, unfolding(crate::specs::Blocks::metadata))]
fn metadata(cursor: &mut Cursor) -> Result<(), Stop>
    ensures { Gives result cursor.new (metadata cursor.old) }
{
    let most = cursor.len();
    for _ in 0..most {
        if !cursor.is_mark(b',') {
            return Ok(());
        }
        cursor.advance();
        cursor.metadatum()?;
        cursor.metadatum()?;
    }
    Ok(())
}

/// Passes over the lines that have no meaning.
#[tactic(auto, unfolding(crate::specs::Blocks::passed))]
fn pass_lines(alloc: Global, cursor: &mut Cursor) -> Result<(), NoMemory>
    ensures { OnOk result (cursor.new ≡ passed cursor.old) }
{
    let most = cursor.len();
    for _ in 0..most {
        if !cursor.is_debug(alloc)? {
            return Ok(());
        }
        cursor.pass_line();
    }
    Ok(())
}

/// What stands behind `%r`: a phi only where no instruction stands before it.
#[tactic(auto, unfolding(crate::specs::Blocks::assignment))]
fn assignment(alloc: Global, cursor: &mut Cursor, first: bool, name: Name) -> Result<Item, Stop>
    ensures { Gives result cursor.new (assignment first name cursor.old) }
{
    cursor.mark(b'=')?;
    if first && is_text(cursor.word(), b"phi") {
        cursor.advance();
        return Ok(Item::Phi(phi(alloc, cursor, name)?));
    }
    let op = operation(alloc, cursor)?;
    Ok(Item::Instr(Instr { name, op }))
}

/// A phi, an instruction or a terminator.
#[tactic(auto, unfolding(crate::specs::Blocks::bare_statement))]
fn bare_statement(alloc: Global, cursor: &mut Cursor, first: bool) -> Result<Item, Stop>
    ensures { Gives result cursor.new (bare_statement first cursor.old) }
{
    if cursor.is_kind(TokenKind::Local) {
        let name = cursor.next_name(alloc)?;
        cursor.advance();
        return assignment(alloc, cursor, first, name);
    }
    if is_call_word(cursor.word()) {
        let op = assume(alloc, cursor)?;
        let name = Name::new(alloc, &[])?;
        return Ok(Item::Instr(Instr { name, op }));
    }
    Ok(Item::End(terminator(alloc, cursor)?))
}

/// The same behind lines without a meaning, and with its metadata.
#[tactic(auto, unfolding(crate::specs::Blocks::statement))]
fn statement(alloc: Global, cursor: &mut Cursor, first: bool) -> Result<Item, Stop>
    ensures { Gives result cursor.new (statement first cursor.old) }
{
    pass_lines(alloc, cursor)?;
    let statement = bare_statement(alloc, cursor, first)?;
    metadata(cursor)?;
    Ok(statement)
}

/// Whether there is no instruction yet.
fn has_none(body: &Instrs) -> bool
    ensures { result ≡ is_empty body.now }
{
    body.items().is_empty()
}

/// A block behind its label. Each statement takes tokens, so there are no more of them than of those.
#[tactic(auto, unfolding(crate::specs::Blocks::block))]
fn block(alloc: Global, cursor: &mut Cursor, label: Name) -> Result<Block, Stop>
    ensures { Gives result cursor.new (block label cursor.old) }
{
    let mut phis: Phis = Sequence::new(alloc);
    let mut body: Instrs = Sequence::new(alloc);
    let most = cursor.len();
    for _ in 0..most {
        let item = statement(alloc, cursor, has_none(&body))?;
        match item {
            Item::Phi(phi) => phis.push(phi)?,
            Item::Instr(instr) => body.push(instr)?,
            Item::End(end) => {
                return Ok(Block {
                    label,
                    phis,
                    body,
                    end,
                });
            }
        }
    }
    Err(Stop::RanOut)
}

/// The entry, whose label may be left out: then it has this one.
#[tactic(auto, unfolding(crate::specs::Blocks::entry_block))]
fn entry_block(alloc: Global, cursor: &mut Cursor, unwritten: Name) -> Result<Block, Stop>
    ensures { Gives result cursor.new (entry_block unwritten cursor.old) }
{
    pass_lines(alloc, cursor)?;
    if cursor.is_kind(TokenKind::Label) {
        let label = cursor.next_name(alloc)?;
        cursor.advance();
        return block(alloc, cursor, label);
    }
    block(alloc, cursor, unwritten)
}

/// A block, with its label.
#[tactic(auto, unfolding(crate::specs::Blocks::labelled_block))]
fn labelled_block(alloc: Global, cursor: &mut Cursor) -> Result<Block, Stop>
    ensures { Gives result cursor.new (labelled_block cursor.old) }
{
    let label = cursor.name(alloc, TokenKind::Label, Place::BehindEnd)?;
    block(alloc, cursor, label)
}

/// The blocks behind the entry, up to the end of the tokens. Each takes tokens, so there are no more of
/// them than of those.
fn blocks_behind(alloc: Global, cursor: &mut Cursor, entry: Block) -> Result<Blocks, Stop>
    ensures { Gives result cursor.new (blocks_within (length cursor.old) (entry ∷ []) cursor.old) }
{
    let mut blocks = Sequence::new(alloc);
    blocks.push(entry)?;
    let most = cursor.len();
    for _ in 0..most {
        if cursor.is_empty() {
            return Ok(blocks);
        }
        blocks.push(labelled_block(alloc, cursor)?)?;
    }
    Ok(blocks)
}

/// All blocks up to the end of the tokens, where the entry has this label if none is written.
#[tactic(auto, unfolding(crate::specs::Blocks::blocks))]
pub fn blocks(alloc: Global, cursor: &mut Cursor, unwritten: Name) -> Result<Blocks, Stop>
    ensures { Gives result cursor.new (blocks unwritten cursor.old) }
{
    let entry = entry_block(alloc, cursor, unwritten)?;
    blocks_behind(alloc, cursor, entry)
}
