//! What is printed for a file that is refused.

ghost use Rattle.std.specs.Prelude.{◌≡◌, ◌++◌, codes, decimal, OnOk};
ghost use Rattle.std.specs.List.{flat_map};
ghost use Rattle.witness_report.specs.Parts.{line, spaced, spaced_name, spaced_spot};
ghost use Rattle.witness_report.specs.Refusals.{at_token, cost_text, file_line, limit_word, read_text, token_word, verify_text};

use crate::parts::{
    push, push_line, push_name_line, push_names_line, push_number_line, push_spaced,
    push_spaced_name, push_spaced_number, push_spot, push_spot_line, push_spot_number_line,
    push_words_number,
};
use cost_table::CostFault;
use ll_reader::ReadFault;
use ll_rules::{Limit, TooMany};
use ll_token::{FaultKind, TokenFault};
use ll_verifier::{Spot, VerifyFault};
use wx_base::{Name, NoMemory};

/// A fault of `read`.
pub fn push_read(text: &mut Vec<u8>, fault: &ReadFault) -> Result<(), NoMemory>
    ensures { OnOk result (text.new.items ≡ text.old.items ++ read_text fault.now) }
{
    match fault {
        ReadFault::NoFunction => push_line(text, b"refused read no-function"),
        ReadFault::TwoFunctions => push_line(text, b"refused read two-functions"),
        ReadFault::NotClosed => push_line(text, b"refused read not-closed"),
        ReadFault::Token(fault) => push_token_fault(text, fault),
        ReadFault::NotInProfile { line, text: token } => {
            push_at_token(text, *line, b"not-in-profile", token)
        }
        ReadFault::BadWidth { line, text: token } => {
            push_at_token(text, *line, b"bad-width", token)
        }
        ReadFault::BadLiteral { line, text: token } => {
            push_at_token(text, *line, b"bad-literal", token)
        }
        ReadFault::NoLabel { line, text: token } => push_at_token(text, *line, b"no-label", token),
        ReadFault::Unexpected { line, text: token } => {
            push_at_token(text, *line, b"unexpected", token)
        }
        ReadFault::NoMemory => Ok(()),
    }
}

/// A fault of `verify`.
pub fn push_verify(text: &mut Vec<u8>, fault: &VerifyFault) -> Result<(), NoMemory>
    ensures { OnOk result (text.new.items ≡ text.old.items ++ verify_text fault.now) }
{
    match fault {
        VerifyFault::TooMany(exceeded) => push_too_many(text, *exceeded),
        VerifyFault::NameTwice { name } => push_name_line(text, b"refused verify name-twice", name),
        VerifyFault::NoSuchName { name, at } => push_no_such_name(text, name, at),
        VerifyFault::TypeDiffers { at } => push_spot_line(text, b"refused verify type-differs", at),
        VerifyFault::DuplicateCase { at, value } => push_spot_number_line(
            text,
            b"refused verify duplicate-case",
            at,
            u64::from(*value),
        ),
        VerifyFault::NotLinear { at } => push_spot_line(text, b"refused verify not-linear", at),
        VerifyFault::BadDivisor { at } => push_spot_line(text, b"refused verify bad-divisor", at),
        VerifyFault::PhiEntries { at } => push_spot_line(text, b"refused verify phi-entries", at),
        VerifyFault::Loop { cycle } => {
            push_names_line(text, b"refused verify loop", cycle.items())
        }
        VerifyFault::Unreached { block } => {
            push_name_line(text, b"refused verify unreached", block)
        }
        VerifyFault::NotDefined { at, path, .. } => push_not_defined(text, at, path.items()),
        VerifyFault::NoMemory => Ok(()),
    }
}

/// A fault of `read_costs`.
pub fn push_cost(text: &mut Vec<u8>, fault: &CostFault) -> Result<(), NoMemory>
    ensures { OnOk result (text.new.items ≡ text.old.items ++ cost_text fault.now) }
{
    match fault {
        CostFault::BadLine(line) => {
            push_number_line(text, b"refused costs bad-line ", u64::from(*line))
        }
        CostFault::UnknownBlock(line) => {
            push_number_line(text, b"refused costs unknown-block ", u64::from(*line))
        }
        CostFault::UnknownEdge(line) => {
            push_number_line(text, b"refused costs unknown-edge ", u64::from(*line))
        }
        CostFault::CostTwice(line) => {
            push_number_line(text, b"refused costs cost-twice ", u64::from(*line))
        }
        CostFault::Missing(block) => push_name_line(text, b"refused costs missing", block),
        CostFault::NoMemory => Ok(()),
    }
}

fn push_token_fault(text: &mut Vec<u8>, fault: &TokenFault) -> Result<(), NoMemory>
    ensures { OnOk result (text.new.items
        ≡ text.old.items ++ line (file_line fault.now.line ++ spaced (token_word fault.now.kind))) }
{
    push_file_line(text, fault.line)?;
    push_spaced(text, token_word(fault.kind))?;
    push(text, b"\n")
}

#[tactic(auto, unfolding(crate::specs::Refusals::file_line))]
fn push_file_line(text: &mut Vec<u8>, number: u32) -> Result<(), NoMemory>
    ensures { OnOk result (text.new.items ≡ text.old.items ++ file_line number) }
{
    push_words_number(text, b"refused read line ", u64::from(number))
}

fn token_word(kind: FaultKind) -> &'static [u8]
    ensures { result.now ≡ token_word kind }
{
    match kind {
        FaultKind::BadByte => b"bad-byte",
        FaultKind::OpenString => b"open-string",
        FaultKind::BadEscape => b"bad-escape",
    }
}

fn push_at_token(text: &mut Vec<u8>, number: u32, word: &[u8], token: &Name) -> Result<(), NoMemory>
    ensures { OnOk result (text.new.items
        ≡ text.old.items ++ at_token number word.now token.now) }
{
    push_file_line(text, number)?;
    push_spaced(text, word)?;
    push_spaced(text, token.bytes())?;
    push(text, b"\n")
}

fn push_too_many(text: &mut Vec<u8>, exceeded: TooMany) -> Result<(), NoMemory>
    ensures { OnOk result (text.new.items
        ≡ text.old.items
        ++ line (codes "refused verify too-many"
        ++ (spaced (limit_word exceeded.what) ++ spaced (decimal exceeded.count)))) }
{
    push(text, b"refused verify too-many")?;
    push_spaced(text, limit_word(exceeded.what))?;
    push_spaced_number(text, exceeded.count)?;
    push(text, b"\n")
}

fn limit_word(what: Limit) -> &'static [u8]
    ensures { result.now ≡ limit_word what }
{
    match what {
        Limit::Blocks => b"blocks",
        Limit::Params => b"params",
        Limit::Values => b"values",
        Limit::Entries => b"entries",
        Limit::Cases => b"cases",
        Limit::Edges => b"edges",
        Limit::Bits => b"bits",
    }
}

fn push_no_such_name(text: &mut Vec<u8>, name: &Name, at: &Spot) -> Result<(), NoMemory>
    ensures { OnOk result (text.new.items
        ≡ text.old.items
        ++ line (codes "refused verify no-such-name"
        ++ (spaced_name name.now ++ spaced_spot at.now))) }
{
    push(text, b"refused verify no-such-name")?;
    push_spaced_name(text, name)?;
    push_spot(text, at)?;
    push(text, b"\n")
}

fn push_not_defined(text: &mut Vec<u8>, at: &Spot, path: &[Name]) -> Result<(), NoMemory>
    ensures { OnOk result (text.new.items
        ≡ text.old.items
        ++ line (codes "refused verify not-defined"
        ++ (spaced_spot at.now ++ (codes " path" ++ flat_map spaced_name path.now)))) }
{
    push(text, b"refused verify not-defined")?;
    push_spot(text, at)?;
    push_names_line(text, b" path", path)
}
