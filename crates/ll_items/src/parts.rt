ghost use Rattle.std.specs.Prelude.{◌≡◌, ◌++◌, ◌∷◌, [], map, OnOk, OnErr};
ghost use Rattle.std.specs.List.{flat_map};
ghost use Rattle.ll_rules.specs.Items as items;
ghost use Rattle.ll_items.specs.Parts.{part_of};
ghost use Rattle.ll_items.specs.Sites.{item_of};

use crate::ItemRef;
use ll_tree::{Case, End, Op, Operand, PhiEntry};
use std::alloc::Global;
use std::marker::Model;
use wx_base::{Name, NoMemory};

/// What an item names, lent by a function: an operand of `width` bits, or a label.
#[derive(Clone, Copy)]
pub enum PartRef<'a> {
    Use { operand: &'a Operand, width: u32 },
    Goal { label: &'a Name },
}

/// Operands and labels of items, in written order.
#[derive(Drop)]
pub struct Parts<'a> {
    parts: Vec<PartRef<'a>>,
}

impl<'a> Model for Parts<'a> {
    ghost use Rattle.std.specs.Prelude.{List, map};
    ghost use Rattle.ll_rules.specs.Items.{Part};
    ghost use Rattle.ll_items.specs.Parts.{part_of};

    ghost Value = { List Part };

    ghost view = { λ list. map part_of list.parts.items };
}

impl<'a> Parts<'a> {
    /// The list without a part. It takes no memory.
    pub fn new(alloc: Global) -> Parts<'a>
        ensures { result ≡ [] }
    {
        Parts {
            parts: Vec::new(alloc),
        }
    }

    /// Adds a part at the end.
    pub fn push(&mut self, part: PartRef<'a>) -> Result<(), NoMemory>
        ensures ok { OnOk result (self.new ≡ self.old ++ part_of part.entry ∷ []) }
        ensures err { OnErr result (self.new ≡ self.old) }
    {
        self.parts.push(part)?;
        Ok(())
    }

    /// Takes all parts away.
    pub fn clear(&mut self)
        ensures { self.new ≡ [] }
    {
        self.parts.clear();
    }

    /// The parts in order.
    pub fn items(&self) -> &[PartRef<'a>]
        ensures { map part_of result.now ≡ self.now }
    {
        self.parts.as_slice()
    }
}

/// Adds the operands and labels of an item, in written order.
pub fn push_parts<'a>(parts: &mut Parts<'a>, item: ItemRef<'a>) -> Result<(), NoMemory>
    ensures { OnOk result (parts.new ≡ parts.old ++ items.parts_of (item_of item.entry)) }
{
    match item {
        ItemRef::Phi(phi) => push_entries(parts, phi.width, phi.entries.items()),
        ItemRef::Instr(instr) => push_op(parts, &instr.op),
        ItemRef::End(end) => push_end(parts, end),
    }
}

fn push_entries<'a>(
    parts: &mut Parts<'a>,
    width: u32,
    entries: &'a [PhiEntry],
) -> Result<(), NoMemory>
    ensures { OnOk result (parts.new ≡ parts.old
        ++ flat_map (λ entry. items.Use entry.value width ∷ items.Goal entry.from ∷ []) entries.now) }
{
    for entry in entries {
        parts.push(PartRef::Use {
            operand: &entry.value,
            width,
        })?;
        parts.push(PartRef::Goal { label: &entry.from })?;
    }
    Ok(())
}

fn push_op<'a>(parts: &mut Parts<'a>, op: &'a Op) -> Result<(), NoMemory>
    ensures { OnOk result (parts.new ≡ parts.old ++ items.op_parts op.now) }
{
    match op {
        Op::Bin {
            width,
            left,
            right,
            ..
        } => push_pair(parts, *width, left, right),
        Op::Cmp {
            width,
            left,
            right,
            ..
        } => push_pair(parts, *width, left, right),
        Op::Cast { from, arg, .. } => push_use(parts, *from, arg),
        Op::Select {
            width,
            cond,
            yes,
            no,
        } => {
            push_use(parts, 1, cond)?;
            push_pair(parts, *width, yes, no)
        }
        Op::Abs { width, arg, .. } => push_use(parts, *width, arg),
        Op::Assume { cond } => push_use(parts, 1, cond),
    }
}

fn push_end<'a>(parts: &mut Parts<'a>, end: &'a End) -> Result<(), NoMemory>
    ensures { OnOk result (parts.new ≡ parts.old ++ items.end_parts end.now) }
{
    match end {
        End::RetVoid | End::Unreachable => Ok(()),
        End::Ret { width, value } => push_use(parts, *width, value),
        End::Br { to } => push_goal(parts, to),
        End::CondBr { cond, yes, no } => {
            push_use(parts, 1, cond)?;
            push_goal(parts, yes)?;
            push_goal(parts, no)
        }
        End::Switch {
            width,
            value,
            default,
            cases,
        } => {
            push_use(parts, *width, value)?;
            push_goal(parts, default)?;
            push_cases(parts, cases.items())
        }
    }
}

fn push_cases<'a>(parts: &mut Parts<'a>, cases: &'a [Case]) -> Result<(), NoMemory>
    ensures { OnOk result (parts.new ≡ parts.old ++ map (λ case. items.Goal case.to) cases.now) }
{
    for case in cases {
        push_goal(parts, &case.to)?;
    }
    Ok(())
}

fn push_pair<'a>(
    parts: &mut Parts<'a>,
    width: u32,
    left: &'a Operand,
    right: &'a Operand,
) -> Result<(), NoMemory>
    ensures { OnOk result (parts.new
        ≡ parts.old ++ items.Use left.now width ∷ items.Use right.now width ∷ []) }
{
    push_use(parts, width, left)?;
    push_use(parts, width, right)
}

fn push_use<'a>(parts: &mut Parts<'a>, width: u32, operand: &'a Operand) -> Result<(), NoMemory>
    ensures { OnOk result (parts.new ≡ parts.old ++ items.Use operand.now width ∷ []) }
{
    parts.push(PartRef::Use { operand, width })
}

fn push_goal<'a>(parts: &mut Parts<'a>, label: &'a Name) -> Result<(), NoMemory>
    ensures { OnOk result (parts.new ≡ parts.old ++ items.Goal label.now ∷ []) }
{
    parts.push(PartRef::Goal { label })
}
