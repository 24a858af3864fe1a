ghost use Rattle.std.specs.Prelude.{◌≡◌, ◌++◌, ◌∷◌, [], map, IfOk, OnOk, OnErr};
ghost use Rattle.std.specs.List.{flat_map};
ghost use Rattle.ll_rules.specs.Items as spec;

use ll_tree::{Block, Func, Instr, Op, Param, Phi};
use std::alloc::Global;
use std::marker::Model;
use wx_base::NoMemory;

/// Names, lent by a function.
#[derive(Drop)]
pub struct NameList<'a> {
    names: Vec<&'a [u8]>,
}

impl<'a> Model for NameList<'a> {
    ghost use Rattle.std.specs.Prelude.{List, ℕ, map};

    ghost Value = { List (List ℕ) };

    ghost view = { λ list. map (λ name. name.now) list.names.items };
}

impl<'a> NameList<'a> {
    /// The list without a name. It takes no memory.
    pub fn new(alloc: Global) -> NameList<'a>
        ensures { result ≡ [] }
    {
        NameList {
            names: Vec::new(alloc),
        }
    }

    /// Adds a name at the end.
    pub fn push(&mut self, name: &'a [u8]) -> Result<(), NoMemory>
        ensures ok { OnOk result (self.new ≡ self.old ++ name.now ∷ []) }
        ensures err { OnErr result (self.new ≡ self.old) }
    {
        self.names.push(name)?;
        Ok(())
    }

    /// The names in order.
    pub fn items(&self) -> &[&'a [u8]]
        ensures { map (λ name. name.now) result.now ≡ self.now }
    {
        self.names.as_slice()
    }
}

/// The labels of a function's blocks.
pub fn list_labels(alloc: Global, func: &Func) -> Result<NameList, NoMemory>
    ensures { IfOk result (λ list. list ≡ spec.labels_of func.now) }
{
    let mut list = NameList::new(alloc);
    for block in func.blocks.items() {
        list.push(block.label.bytes())?;
    }
    Ok(list)
}

/// All names that a function gives: those of its parameters, then block by block its label, its phis and
/// its results.
pub fn list_names(alloc: Global, func: &Func) -> Result<NameList, NoMemory>
    ensures { IfOk result (λ list. list ≡ spec.names_of func.now) }
{
    let mut list = NameList::new(alloc);
    push_params(&mut list, func.params.items())?;
    for block in func.blocks.items() {
        push_block(&mut list, block)?;
    }
    Ok(list)
}

fn push_params<'a>(list: &mut NameList<'a>, params: &'a [Param]) -> Result<(), NoMemory>
    ensures { OnOk result (list.new ≡ list.old ++ map (λ param. param.name) params.now) }
{
    for param in params {
        list.push(param.name.bytes())?;
    }
    Ok(())
}

fn push_block<'a>(list: &mut NameList<'a>, block: &'a Block) -> Result<(), NoMemory>
    ensures { OnOk result (list.new
        ≡ list.old ++ block.now.label ∷ map (λ value. value.0) (spec.block_values block.now)) }
{
    list.push(block.label.bytes())?;
    push_phis(list, block.phis.items())?;
    push_results(list, block.body.items())
}

fn push_phis<'a>(list: &mut NameList<'a>, phis: &'a [Phi]) -> Result<(), NoMemory>
    ensures { OnOk result (list.new ≡ list.old ++ map (λ phi. phi.name) phis.now) }
{
    for phi in phis {
        list.push(phi.name.bytes())?;
    }
    Ok(())
}

fn push_results<'a>(list: &mut NameList<'a>, body: &'a [Instr]) -> Result<(), NoMemory>
    ensures { OnOk result (list.new ≡ list.old ++ map (λ value. value.0)
        (flat_map (λ instr. spec.named instr.name (spec.result_width instr.op)) body.now)) }
{
    for instr in body {
        push_result(list, instr)?;
    }
    Ok(())
}

fn push_result<'a>(list: &mut NameList<'a>, instr: &'a Instr) -> Result<(), NoMemory>
    ensures { OnOk result (list.new ≡ list.old
        ++ map (λ value. value.0) (spec.named instr.now.name (spec.result_width instr.now.op))) }
{
    match &instr.op {
        Op::Assume { .. } => Ok(()),
        _ => list.push(instr.name.bytes()),
    }
}
