use crate::edges::number;
use ll_rules::{Limit, first_excess, has_divisor, is_linear};
use ll_tree::{BinKind, Block, Case, End, Flags, Func, Op, Operand, Ret};
use std::alloc::Global;
use wx_base::{Name, NoMemory, Sequence};

const NONE: Flags = Flags {
    nuw: false,
    nsw: false,
    exact: false,
    nneg: false,
    samesign: false,
    disjoint: false,
};

// The first limit that a function of `BLOCKS CASES` exceeds: each block ends in a switch with so many cases.
pub fn limits(alloc: Global, call: &str) -> Result<String, NoMemory> {
    let (blocks, cases) = call.split_once(' ').unwrap_or((call, ""));
    let func = func_of(alloc, number(blocks), number(cases))?;
    match first_excess(&func) {
        Some(excess) => Ok(format!(in alloc; "{} {}", excess.count, name_of(excess.what))?),
        None => Ok(String::from_str(alloc, "kept")?),
    }
}

fn name_of(limit: Limit) -> &'static str {
    match limit {
        Limit::Blocks => "blocks",
        Limit::Params => "parameters",
        Limit::Values => "values",
        Limit::Entries => "entries",
        Limit::Cases => "cases",
        Limit::Edges => "edges",
        Limit::Bits => "bits",
    }
}

fn func_of(alloc: Global, blocks: u32, cases: u32) -> Result<Func, NoMemory> {
    let mut list = Sequence::new(alloc);
    for _ in 0..blocks {
        list.push(Block {
            label: Name::new(alloc, b"a")?,
            phis: Sequence::new(alloc),
            body: Sequence::new(alloc),
            end: switch_of(alloc, cases)?,
        })?;
    }
    Ok(Func {
        name: Name::new(alloc, b"f")?,
        ret: Ret::Void,
        ret_noundef: false,
        ret_range: None,
        params: Sequence::new(alloc),
        blocks: list,
    })
}

fn switch_of(alloc: Global, count: u32) -> Result<End, NoMemory> {
    let mut cases = Sequence::new(alloc);
    for value in 0..count {
        cases.push(Case {
            width: 32,
            value,
            to: Name::new(alloc, b"a")?,
        })?;
    }
    Ok(End::Switch {
        width: 32,
        value: Operand::Poison,
        default: Name::new(alloc, b"b")?,
        cases,
    })
}

fn kind_of(word: &str) -> Option<BinKind> {
    match word {
        "add" => Some(BinKind::Add),
        "mul" => Some(BinKind::Mul),
        "shl" => Some(BinKind::Shl),
        "urem" => Some(BinKind::Urem),
        "sdiv" => Some(BinKind::Sdiv),
        "udiv" => Some(BinKind::Udiv),
        _ => None,
    }
}

fn op_of(kind: BinKind, right: Operand) -> Op {
    Op::Bin {
        kind,
        flags: NONE,
        width: 8,
        left: Operand::Poison,
        right,
    }
}

// Whether an operation of poison and a name is linear.
pub fn linear(alloc: Global, call: &str) -> Result<String, NoMemory> {
    let Some(kind) = kind_of(call) else {
        return Ok(String::from_str(alloc, "no kind")?);
    };
    let op = op_of(kind, Operand::Name(Name::new(alloc, b"y")?));
    Ok(format!(in alloc; "{}", is_linear(&op))?)
}

// Whether an operation of width 8 has a divisor that is taken: `KIND NUMBER`.
pub fn divisor(alloc: Global, call: &str) -> Result<String, NoMemory> {
    let (kind, right) = call.split_once(' ').unwrap_or((call, ""));
    let Some(kind) = kind_of(kind) else {
        return Ok(String::from_str(alloc, "no kind")?);
    };
    let op = op_of(kind, Operand::Const(number(right)));
    Ok(format!(in alloc; "{}", has_divisor(&op))?)
}
