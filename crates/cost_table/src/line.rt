ghost use Rattle.std.specs.Prelude.{◌≡◌, ℕ, List, Some, IfOk, IfSome, MatchOption};
ghost use Rattle.cost_table.specs.Lines.{is_idle, IsNamedCost, IsEdgeLine, IsEdge, HasNoForm, SaysAlone};
ghost use Rattle.cost_table.specs.declared.line.Said.TheVariants as words;

use crate::digits::cost_of;
use crate::name_end::split_name;
use ll_token::local_name;
use std::alloc::Global;
use wx_base::{Name, NoMemory};

/// What a line says, with the names that it writes.
#[derive(Debug, Drop)]
pub enum Said {
    /// The line is empty or a comment.
    Nothing,
    Block { label: Name, cost: u32 },
    Edge { from: Name, to: Name, cost: u32 },
}

fn is_idle(line: &[u8]) -> bool
    ensures { result ≡ is_idle line.now }
{
    matches!(line, [] | [b';', ..])
}

/// What a line says; `None` exactly where it has none of the forms.
pub fn read_line(alloc: Global, line: &[u8]) -> Result<Option<Said>, NoMemory>
    ensures { IfOk result (λ found. MatchOption found (HasNoForm line.now) (SaysAlone line.now)) }
{
    if is_idle(line) {
        return Ok(Some(Said::Nothing));
    }
    if let Some((label, cost)) = named_cost(alloc, line)? {
        return Ok(Some(Said::Block { label, cost }));
    }
    let Some(edge) = edge_line(alloc, line)? else {
        return Ok(None);
    };
    Ok(Some(edge))
}

// A local name, a space and a cost.
fn named_cost(alloc: Global, text: &[u8]) -> Result<Option<(Name, u32)>, NoMemory>
    ensures found { IfOk result (λ found. IfSome found (λ it. IsNamedCost text.now it.0 it.1)) }
    ensures only { (name : List ℕ) (cost : ℕ) → IsNamedCost text.now name cost
        → IfOk result (λ found. found ≡ Some (name, cost)) }
{
    let Some((written, digits)) = split_name(text) else {
        return Ok(None);
    };
    let Some(name) = local_name(alloc, written)? else {
        return Ok(None);
    };
    let Some(cost) = cost_of(digits) else {
        return Ok(None);
    };
    Ok(Some((name, cost)))
}

// A local name, a space, and what `named_cost` reads.
fn edge_line(alloc: Global, line: &[u8]) -> Result<Option<Said>, NoMemory>
    ensures found { IfOk result (λ found. IfSome found (IsEdge line.now)) }
    ensures only { (from to : List ℕ) (cost : ℕ) → IsEdgeLine line.now from to cost
        → IfOk result (λ found. found ≡ Some (words.Edge from to cost)) }
{
    let Some((written, rest)) = split_name(line) else {
        return Ok(None);
    };
    let Some(from) = local_name(alloc, written)? else {
        return Ok(None);
    };
    let Some((to, cost)) = named_cost(alloc, rest)? else {
        return Ok(None);
    };
    Ok(Some(Said::Edge { from, to, cost }))
}
