ghost use Rattle.std.specs.Prelude.{◌≡◌, ◌++◌, ◌∷◌, [], map, IfOk, OnOk, OnErr};
ghost use Rattle.std.specs.List.{flat_map};
ghost use Rattle.ll_rules.specs.Items as items;
ghost use Rattle.ll_items.specs.Values.{value_of};

use ll_tree::{Block, Func, Instr, Op, Param, Phi};
use std::alloc::Global;
use std::marker::Model;
use wx_base::NoMemory;

/// The name of a parameter, a phi or a result and its width, lent by a function.
#[derive(Clone, Copy)]
pub struct ValueRef<'a> {
    pub name: &'a [u8],
    pub width: u32,
}

/// Values in order. The place of a value is its number.
#[derive(Drop)]
pub struct Values<'a> {
    values: Vec<ValueRef<'a>>,
}

impl<'a> Model for Values<'a> {
    ghost use Rattle.std.specs.Prelude.{List, ℕ, map};
    ghost use Rattle.ll_items.specs.Values.{value_of};

    ghost Value = { List (List ℕ × ℕ) };

    ghost view = { λ list. map value_of list.values.items };
}

impl<'a> Values<'a> {
    /// The list without a value. It takes no memory.
    pub fn new(alloc: Global) -> Values<'a>
        ensures { result ≡ [] }
    {
        Values {
            values: Vec::new(alloc),
        }
    }

    /// Adds a value at the end.
    pub fn push(&mut self, name: &'a [u8], width: u32) -> Result<(), NoMemory>
        ensures ok { OnOk result (self.new ≡ self.old ++ (name.now, width) ∷ []) }
        ensures err { OnErr result (self.new ≡ self.old) }
    {
        self.values.push(ValueRef { name, width })?;
        Ok(())
    }

    /// The values in order.
    pub fn items(&self) -> &[ValueRef<'a>]
        ensures { map value_of result.now ≡ self.now }
    {
        self.values.as_slice()
    }
}

/// The values of a function: its parameters, then block by block its phis and results.
pub fn list_values(alloc: Global, func: &Func) -> Result<Values, NoMemory>
    ensures { IfOk result (λ list. list ≡ items.values_of func.now) }
{
    let mut list = Values::new(alloc);
    push_params(&mut list, func.params.items())?;
    for block in func.blocks.items() {
        push_block(&mut list, block)?;
    }
    Ok(list)
}

fn push_params<'a>(list: &mut Values<'a>, params: &'a [Param]) -> Result<(), NoMemory>
    ensures { OnOk result (list.new
        ≡ list.old ++ map (λ param. (param.name, param.width)) params.now) }
{
    for param in params {
        list.push(param.name.bytes(), param.width)?;
    }
    Ok(())
}

fn push_block<'a>(list: &mut Values<'a>, block: &'a Block) -> Result<(), NoMemory>
    ensures { OnOk result (list.new ≡ list.old ++ items.block_values block.now) }
{
    push_phis(list, block.phis.items())?;
    push_results(list, block.body.items())
}

fn push_phis<'a>(list: &mut Values<'a>, phis: &'a [Phi]) -> Result<(), NoMemory>
    ensures { OnOk result (list.new ≡ list.old ++ map (λ phi. (phi.name, phi.width)) phis.now) }
{
    for phi in phis {
        list.push(phi.name.bytes(), phi.width)?;
    }
    Ok(())
}

fn push_results<'a>(list: &mut Values<'a>, body: &'a [Instr]) -> Result<(), NoMemory>
    ensures { OnOk result (list.new ≡ list.old
        ++ flat_map (λ instr. items.named instr.name (items.result_width instr.op)) body.now) }
{
    for instr in body {
        push_result(list, instr)?;
    }
    Ok(())
}

fn push_result<'a>(list: &mut Values<'a>, instr: &'a Instr) -> Result<(), NoMemory>
    ensures { OnOk result (list.new
        ≡ list.old ++ items.named instr.now.name (items.result_width instr.now.op)) }
{
    match result_width(&instr.op) {
        Some(width) => list.push(instr.name.bytes(), width),
        None => Ok(()),
    }
}

/// The width of an operation's result, none for an assume.
fn result_width(op: &Op) -> Option<u32>
    ensures { result ≡ items.result_width op.now }
{
    match op {
        Op::Bin { width, .. } | Op::Select { width, .. } | Op::Abs { width, .. } => Some(*width),
        Op::Cmp { .. } => Some(1),
        Op::Cast { to, .. } => Some(*to),
        Op::Assume { .. } => None,
    }
}
