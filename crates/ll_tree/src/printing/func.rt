ghost use Rattle.std.specs.Prelude.{◌≡◌, ◌∷◌, ◌++◌, [], codes, IfOk, OnOk};
ghost use Rattle.std.specs.List.{flat_map};
ghost use Rattle.ll_tree.specs.Pieces.{piece_text, written, separated, Bits, Mark, Blank};
ghost use Rattle.ll_tree.specs.Text.{literal, range_pieces, ret_piece, ret_width, param_pieces, ret_pieces, signature_pieces, header_pieces, block_pieces, canonical};

use super::block::push_block;
use super::instr::push_flag;
use super::token::{push_literal, push_local, push_type};
use crate::naming::{push, push_name};
use crate::{Block, Func, Param, Range, Ret};
use std::alloc::Global;
use wx_base::NoMemory;

/// The canonical text of a function: each token in one spelling, with single blanks.
pub fn print(alloc: Global, func: &Func) -> Result<Vec<u8>, NoMemory>
    ensures { IfOk result (λ text. text.items ≡ canonical func.now) }
{
    let mut text = Vec::new(alloc);
    push_header(&mut text, func)?;
    push_blocks(&mut text, func.blocks.items())?;
    push(&mut text, b"}\n")?;
    Ok(text)
}

#[tactic(auto, unfolding(crate::specs::Text::header_pieces))]
fn push_header(text: &mut Vec<u8>, func: &Func) -> Result<(), NoMemory>
    ensures { OnOk result (text.new.items ≡ text.old.items ++ written (header_pieces func.now)) }
{
    push_ret_header(text, func)?;
    push_signature(text, func)
}

// A header up to the type of the result.
#[tactic(auto, unfolding(crate::specs::Text::ret_pieces))]
fn push_ret_header(text: &mut Vec<u8>, func: &Func) -> Result<(), NoMemory>
    ensures { OnOk result (text.new.items ≡ text.old.items ++ written (ret_pieces func.now)) }
{
    push(text, b"define ")?;
    push_flag(text, func.ret_noundef, b"noundef")?;
    push_ret_range(text, func.ret, &func.ret_range)?;
    push_ret(text, func.ret)
}

// The name and the parameters, up to the end of the header's line.
#[tactic(auto, unfolding(crate::specs::Text::signature_pieces))]
fn push_signature(text: &mut Vec<u8>, func: &Func) -> Result<(), NoMemory>
    ensures { OnOk result (text.new.items ≡ text.old.items ++ written (signature_pieces func.now)) }
{
    push(text, b" @")?;
    push_name(text, func.name.bytes())?;
    push(text, b"(")?;
    push_params(text, func.params.items())?;
    push(text, b") {\n")
}

fn push_ret(text: &mut Vec<u8>, ret: Ret) -> Result<(), NoMemory>
    ensures { OnOk result (text.new.items ≡ text.old.items ++ piece_text (ret_piece ret)) }
{
    match ret {
        Ret::Void => push(text, b"void"),
        Ret::Int(width) => push_type(text, width),
    }
}

fn width_of(ret: Ret) -> u32
    ensures { result ≡ ret_width ret }
{
    match ret {
        Ret::Void => 0,
        Ret::Int(width) => width,
    }
}

fn push_ret_range(text: &mut Vec<u8>, ret: Ret, range: &Option<Range>) -> Result<(), NoMemory>
    ensures { OnOk result (text.new.items ≡ text.old.items
        ++ written (range_pieces (ret_piece ret) (ret_width ret) range.now)) }
{
    match range {
        None => Ok(()),
        Some(range) => {
            push(text, b"range(")?;
            push_ret(text, ret)?;
            push_bounds(text, width_of(ret), range)
        }
    }
}

// The bounds of a range behind its type, with a blank before and behind them.
fn push_bounds(text: &mut Vec<u8>, width: u32, range: &Range) -> Result<(), NoMemory>
    ensures { OnOk result (text.new.items ≡ text.old.items
        ++ written (Blank ∷ literal width range.now.lo ∷ Mark 44 ∷ Blank
        ∷ literal width range.now.hi ∷ Mark 41 ∷ Blank ∷ [])) }
{
    push(text, b" ")?;
    push_literal(text, width, range.lo)?;
    push(text, b", ")?;
    push_literal(text, width, range.hi)?;
    push(text, b") ")
}

fn push_params(text: &mut Vec<u8>, params: &[Param]) -> Result<(), NoMemory>
    ensures { OnOk result (text.new.items ≡ text.old.items
        ++ written (separated param_pieces params.now)) }
{
    match params {
        [] => Ok(()),
        [first, others @ ..] => {
            push_param(text, first)?;
            push_more_params(text, others)
        }
    }
}

fn push_more_params(text: &mut Vec<u8>, params: &[Param]) -> Result<(), NoMemory>
    ensures { OnOk result (text.new.items ≡ text.old.items
        ++ flat_map (λ param. written (Mark 44 ∷ Blank ∷ param_pieces param)) params.now) }
{
    for param in params {
        push_next_param(text, param)?;
    }
    Ok(())
}

fn push_next_param(text: &mut Vec<u8>, param: &Param) -> Result<(), NoMemory>
    ensures { OnOk result (text.new.items ≡ text.old.items
        ++ written (Mark 44 ∷ Blank ∷ param_pieces param.now)) }
{
    push(text, b", ")?;
    push_param(text, param)
}

#[tactic(auto, unfolding(crate::specs::Text::param_pieces))]
fn push_param(text: &mut Vec<u8>, param: &Param) -> Result<(), NoMemory>
    ensures { OnOk result (text.new.items ≡ text.old.items ++ written (param_pieces param.now)) }
{
    push_type(text, param.width)?;
    push(text, b" ")?;
    push_flag(text, param.strict, b"noundef")?;
    push_param_range(text, param.width, &param.range)?;
    push_local(text, &param.name)
}

fn push_param_range(text: &mut Vec<u8>, width: u32, range: &Option<Range>) -> Result<(), NoMemory>
    ensures { OnOk result (text.new.items ≡ text.old.items
        ++ written (range_pieces (Bits width) width range.now)) }
{
    match range {
        None => Ok(()),
        Some(range) => {
            push(text, b"range(")?;
            push_type(text, width)?;
            push_bounds(text, width, range)
        }
    }
}

fn push_blocks(text: &mut Vec<u8>, blocks: &[Block]) -> Result<(), NoMemory>
    ensures { OnOk result (text.new.items ≡ text.old.items
        ++ flat_map (λ block. written (block_pieces block)) blocks.now) }
{
    for block in blocks {
        push_block(text, block)?;
    }
    Ok(())
}
