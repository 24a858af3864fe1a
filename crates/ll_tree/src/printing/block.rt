ghost use Rattle.std.specs.Prelude.{◌≡◌, ◌∷◌, ◌++◌, [], codes, OnOk};
ghost use Rattle.std.specs.List.{flat_map};
ghost use Rattle.ll_tree.specs.Pieces.{written, separated, Mark, Blank};
ghost use Rattle.ll_tree.specs.Text.{entry_pieces, phi_pieces, instr_pieces, target, case_pieces, cond_br_pieces, switch_pieces, end_pieces, line, block_pieces};

use super::instr::{push_instr, push_typed};
use super::token::{push_literal, push_local, push_operand, push_type};
use crate::naming::{push, push_name};
use crate::{Block, Case, End, Instr, Operand, Phi, PhiEntry};
use wx_base::{Name, NoMemory};

/// A block: its label's line, and a line for each of its items.
#[tactic(auto, unfolding(crate::specs::Text::block_pieces))]
pub fn push_block(text: &mut Vec<u8>, block: &Block) -> Result<(), NoMemory>
    ensures { OnOk result (text.new.items ≡ text.old.items ++ written (block_pieces block.now)) }
{
    push_name(text, block.label.bytes())?;
    push(text, b":\n")?;
    push_phis(text, block.phis.items())?;
    push_body(text, block.body.items())?;
    push_end_line(text, &block.end)
}

fn push_end_line(text: &mut Vec<u8>, end: &End) -> Result<(), NoMemory>
    ensures { OnOk result (text.new.items ≡ text.old.items ++ written (line (end_pieces end.now))) }
{
    push(text, b"  ")?;
    push_end(text, end)?;
    push(text, b"\n")
}

fn push_phis(text: &mut Vec<u8>, phis: &[Phi]) -> Result<(), NoMemory>
    ensures { OnOk result (text.new.items ≡ text.old.items
        ++ flat_map (λ phi. written (line (phi_pieces phi))) phis.now) }
{
    for phi in phis {
        push_phi_line(text, phi)?;
    }
    Ok(())
}

fn push_phi_line(text: &mut Vec<u8>, phi: &Phi) -> Result<(), NoMemory>
    ensures { OnOk result (text.new.items ≡ text.old.items ++ written (line (phi_pieces phi.now))) }
{
    push(text, b"  ")?;
    push_local(text, &phi.name)?;
    push(text, b" = phi ")?;
    push_type(text, phi.width)?;
    push(text, b" ")?;
    push_entries(text, phi.width, phi.entries.items())?;
    push(text, b"\n")
}

fn push_entries(text: &mut Vec<u8>, width: u32, entries: &[PhiEntry]) -> Result<(), NoMemory>
    ensures { OnOk result (text.new.items ≡ text.old.items
        ++ written (separated (entry_pieces width) entries.now)) }
{
    match entries {
        [] => Ok(()),
        [first, others @ ..] => {
            push_entry(text, width, first)?;
            push_more_entries(text, width, others)
        }
    }
}

fn push_more_entries(text: &mut Vec<u8>, width: u32, entries: &[PhiEntry]) -> Result<(), NoMemory>
    ensures { OnOk result (text.new.items ≡ text.old.items
        ++ flat_map (λ entry. written (Mark 44 ∷ Blank ∷ entry_pieces width entry)) entries.now) }
{
    for entry in entries {
        push_next_entry(text, width, entry)?;
    }
    Ok(())
}

fn push_next_entry(text: &mut Vec<u8>, width: u32, entry: &PhiEntry) -> Result<(), NoMemory>
    ensures { OnOk result (text.new.items ≡ text.old.items
        ++ written (Mark 44 ∷ Blank ∷ entry_pieces width entry.now)) }
{
    push(text, b", ")?;
    push_entry(text, width, entry)
}

fn push_entry(text: &mut Vec<u8>, width: u32, entry: &PhiEntry) -> Result<(), NoMemory>
    ensures { OnOk result (text.new.items ≡ text.old.items
        ++ written (entry_pieces width entry.now)) }
{
    push(text, b"[ ")?;
    push_operand(text, width, &entry.value)?;
    push(text, b", ")?;
    push_local(text, &entry.from)?;
    push(text, b" ]")
}

fn push_body(text: &mut Vec<u8>, body: &[Instr]) -> Result<(), NoMemory>
    ensures { OnOk result (text.new.items ≡ text.old.items
        ++ flat_map (λ instr. written (line (instr_pieces instr))) body.now) }
{
    for instr in body {
        push_instr_line(text, instr)?;
    }
    Ok(())
}

fn push_instr_line(text: &mut Vec<u8>, instr: &Instr) -> Result<(), NoMemory>
    ensures { OnOk result (text.new.items ≡ text.old.items
        ++ written (line (instr_pieces instr.now))) }
{
    push(text, b"  ")?;
    push_instr(text, instr)?;
    push(text, b"\n")
}

#[tactic(auto, unfolding(crate::specs::Text::end_pieces))]
fn push_end(text: &mut Vec<u8>, end: &End) -> Result<(), NoMemory>
    ensures { OnOk result (text.new.items ≡ text.old.items ++ written (end_pieces end.now)) }
{
    match end {
        End::RetVoid => push(text, b"ret void"),
        End::Ret { width, value } => {
            push(text, b"ret ")?;
            push_typed(text, *width, value)
        }
        End::Br { to } => {
            push(text, b"br ")?;
            push_target(text, to)
        }
        End::CondBr { cond, yes, no } => push_cond_br(text, cond, yes, no),
        End::Switch {
            width,
            value,
            default,
            cases,
        } => push_switch(text, *width, value, default, cases.items()),
        End::Unreachable => push(text, b"unreachable"),
    }
}

fn push_cond_br(text: &mut Vec<u8>, cond: &Operand, yes: &Name, no: &Name) -> Result<(), NoMemory>
    ensures { OnOk result (text.new.items ≡ text.old.items
        ++ written (cond_br_pieces cond.now yes.now no.now)) }
{
    push(text, b"br ")?;
    push_typed(text, 1, cond)?;
    push_next_target(text, yes)?;
    push_next_target(text, no)
}

fn push_switch(
    text: &mut Vec<u8>,
    width: u32,
    value: &Operand,
    default: &Name,
    cases: &[Case],
) -> Result<(), NoMemory>
    ensures { OnOk result (text.new.items ≡ text.old.items
        ++ written (switch_pieces width value.now default.now cases.now)) }
{
    push(text, b"switch ")?;
    push_typed(text, width, value)?;
    push_next_target(text, default)?;
    push(text, b" [ ")?;
    push_cases(text, cases)?;
    push(text, b"]")
}

fn push_target(text: &mut Vec<u8>, to: &Name) -> Result<(), NoMemory>
    ensures { OnOk result (text.new.items ≡ text.old.items ++ written (target to.now)) }
{
    push(text, b"label ")?;
    push_local(text, to)
}

fn push_next_target(text: &mut Vec<u8>, to: &Name) -> Result<(), NoMemory>
    ensures { OnOk result (text.new.items ≡ text.old.items
        ++ written (Mark 44 ∷ Blank ∷ target to.now)) }
{
    push(text, b", ")?;
    push_target(text, to)
}

fn push_cases(text: &mut Vec<u8>, cases: &[Case]) -> Result<(), NoMemory>
    ensures { OnOk result (text.new.items ≡ text.old.items
        ++ flat_map (λ case. written (case_pieces case)) cases.now) }
{
    for case in cases {
        push_case(text, case)?;
    }
    Ok(())
}

fn push_case(text: &mut Vec<u8>, case: &Case) -> Result<(), NoMemory>
    ensures { OnOk result (text.new.items ≡ text.old.items ++ written (case_pieces case.now)) }
{
    push_type(text, case.width)?;
    push(text, b" ")?;
    push_literal(text, case.width, case.value)?;
    push(text, b", ")?;
    push_target(text, &case.to)?;
    push(text, b" ")
}
