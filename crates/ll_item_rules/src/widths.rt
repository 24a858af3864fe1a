ghost use Rattle.std.specs.Prelude.{◌≡◌, map};
ghost use Rattle.std.specs.List.{list_any};
ghost use Rattle.ll_items.specs.Parts.{part_of};
ghost use Rattle.ll_items.specs.Sites.{item_of};
ghost use Rattle.ll_item_rules.specs.Widths as spec;

use crate::{SiteTest, ValueTable};
use ll_items::{ItemRef, PartRef, SiteRef};
use ll_tree::{Case, CastKind, End, Op, Operand, Ret};
use std::alloc::Global;
use wx_base::NoMemory;

/// The rule that each value has the width that is written at its use, a returned value that of the
/// function's type, a case that of its switch, and that a conversion widens or narrows as it says.
#[derive(Clone, Copy)]
pub struct TypeDiffers<'t, 'a> {
    pub values: &'t ValueTable<'a>,
    pub ret: Ret,
}

impl<'t, 'a> SiteTest for TypeDiffers<'t, 'a> {
    ghost fails = { λ test site. spec.type_differs test.values.now test.ret site.what };

    fn fails(&self, _alloc: Global, site: SiteRef, parts: &[PartRef]) -> Result<bool, NoMemory> {
        Ok(some_part_differs(self.values, parts) || item_differs(self.ret, site.what))
    }
}

fn some_part_differs(values: &ValueTable, parts: &[PartRef]) -> bool
    ensures { result ≡ list_any (spec.part_differs values.now) (map part_of parts.now) }
{
    for part in parts {
        if part_differs(values, *part) {
            return true;
        }
    }
    false
}

fn part_differs(values: &ValueTable, part: PartRef) -> bool
    ensures { result ≡ spec.part_differs values.now (part_of part.entry) }
{
    match part {
        PartRef::Use { operand, width } => operand_differs(values, operand, width),
        PartRef::Goal { .. } => false,
    }
}

fn operand_differs(values: &ValueTable, operand: &Operand, width: u32) -> bool
    ensures { result ≡ spec.operand_differs values.now operand.now width }
{
    match operand {
        Operand::Name(name) => width_differs(values.width(name.bytes()), width),
        Operand::Const(_) | Operand::Poison => false,
    }
}

fn width_differs(found: Option<u32>, width: u32) -> bool
    ensures { result ≡ spec.width_differs found width }
{
    match found {
        Some(other) => other != width,
        None => false,
    }
}

fn item_differs(ret: Ret, item: ItemRef) -> bool
    ensures { result ≡ spec.item_differs ret (item_of item.entry) }
{
    match item {
        ItemRef::Phi(_) => false,
        ItemRef::Instr(instr) => op_differs(&instr.op),
        ItemRef::End(end) => end_differs(ret, end),
    }
}

fn op_differs(op: &Op) -> bool
    ensures { result ≡ spec.op_differs op.now }
{
    match op {
        Op::Cast { kind, from, to, .. } => cast_differs(*kind, *from, *to),
        _ => false,
    }
}

fn cast_differs(kind: CastKind, from: u32, to: u32) -> bool
    ensures { result ≡ spec.cast_differs kind from to }
{
    match kind {
        CastKind::Zext | CastKind::Sext => to <= from,
        CastKind::Trunc => from <= to,
    }
}

fn end_differs(ret: Ret, end: &End) -> bool
    ensures { result ≡ spec.end_differs ret end.now }
{
    match end {
        End::RetVoid => ret != Ret::Void,
        End::Ret { width, .. } => ret_differs(ret, *width),
        End::Switch { width, cases, .. } => some_case_differs(*width, cases.items()),
        End::Br { .. } | End::CondBr { .. } | End::Unreachable => false,
    }
}

fn ret_differs(ret: Ret, width: u32) -> bool
    ensures { result ≡ spec.ret_differs ret width }
{
    match ret {
        Ret::Void => true,
        Ret::Int(wanted) => wanted != width,
    }
}

fn some_case_differs(width: u32, cases: &[Case]) -> bool
    ensures { result ≡ list_any (spec.case_differs width) cases.now }
{
    cases.iter().any(|case| case.width != width)
}
