ghost use Rattle.std.specs.Prelude.{◌≡◌, ◌+◌, sum_by, length, map, if◌then◌else◌};
ghost use Rattle.std.specs.List.{list_any};
ghost use Rattle.std.specs.Str.{bytes_eq};
ghost use Rattle.ll_rules.specs.Items.{targets_of};
ghost use Rattle.ll_rules.specs.Limits as limits;

use ll_tree::{BinKind, Block, Case, End, Func, Instr, Op, Phi};

pub fn count_values(func: &Func) -> u64
    ensures { result ≡ limits.held (limits.count_values func.now) }
{
    let mut count = func.params.len() as u64;
    for block in func.blocks.items() {
        count = count.saturating_add(block_values(block));
    }
    count
}

fn block_values(block: &Block) -> u64
    ensures { result ≡ limits.held (length block.now.phis + length block.now.body) }
{
    (block.phis.len() as u64).saturating_add(block.body.len() as u64)
}

pub fn count_entries(func: &Func) -> u64
    ensures { result ≡ limits.held (limits.count_entries func.now) }
{
    let mut count: u64 = 0;
    for block in func.blocks.items() {
        count = count.saturating_add(phi_entries(block.phis.items()));
    }
    count
}

fn phi_entries(phis: &[Phi]) -> u64
    ensures { result ≡ limits.held (sum_by (λ phi. length phi.entries) phis.now) }
{
    let mut count: u64 = 0;
    for phi in phis {
        count = count.saturating_add(phi.entries.len() as u64);
    }
    count
}

pub fn count_cases(func: &Func) -> u64
    ensures { result ≡ limits.held (limits.count_cases func.now) }
{
    let mut count: u64 = 0;
    for block in func.blocks.items() {
        count = count.saturating_add(end_cases(&block.end));
    }
    count
}

fn end_cases(end: &End) -> u64
    ensures { result ≡ limits.end_cases end.now }
{
    match end {
        End::Switch { cases, .. } => cases.len() as u64,
        _ => 0,
    }
}

pub fn count_bits(func: &Func) -> u64
    ensures { result ≡ limits.held (limits.count_bits func.now) }
{
    let mut count: u64 = 0;
    for block in func.blocks.items() {
        count = count.saturating_add(body_bits(block.body.items()));
    }
    count
}

fn body_bits(body: &[Instr]) -> u64
    ensures { result ≡ limits.held (sum_by (λ instr. limits.op_bits instr.op) body.now) }
{
    let mut count: u64 = 0;
    for instr in body {
        count = count.saturating_add(u64::from(op_bits(&instr.op)));
    }
    count
}

fn op_bits(op: &Op) -> u32
    ensures { result ≡ limits.op_bits op.now }
{
    match op {
        Op::Bin { kind, width, .. } => bits_of(*kind, *width),
        _ => 0,
    }
}

fn bits_of(kind: BinKind, width: u32) -> u32
    ensures { result ≡ (if limits.is_bitwise kind then width else 0) }
{
    match kind {
        BinKind::And | BinKind::Or | BinKind::Xor => width,
        _ => 0,
    }
}

pub fn count_edges(func: &Func) -> u64
    ensures { result ≡ limits.held (limits.count_edges func.now) }
{
    let mut count: u64 = 0;
    for block in func.blocks.items() {
        count = count.saturating_add(end_edges(&block.end));
    }
    count
}

fn end_edges(end: &End) -> u64
    ensures { result ≡ limits.held (limits.count_distinct (targets_of end.now)) }
{
    match end {
        End::RetVoid | End::Ret { .. } | End::Unreachable => 0,
        End::Br { .. } => 1,
        End::CondBr { yes, no, .. } => { if no.bytes() == yes.bytes() { 1 } else { 2 } }
        End::Switch { default, cases, .. } => {
            let is_there = goes_to(cases.items(), default.bytes());
            case_edges(cases.items()).saturating_add(one_where_new(is_there))
        }
    }
}

fn one_where_new(is_there: bool) -> u64
    ensures { result ≡ (if is_there then 0 else 1) }
{
    if is_there { 0 } else { 1 }
}

// Whether a case goes to the label.
fn goes_to(cases: &[Case], label: &[u8]) -> bool
    ensures { result ≡ list_any (λ case. bytes_eq case.to label.now) cases.now }
{
    cases.iter().any(|case| case.to.bytes() == label)
}

// How many different labels the cases go to.
fn case_edges(cases: &[Case]) -> u64
    ensures { result ≡ limits.count_distinct (map (λ case. case.to) cases.now) }
{
    let mut count = 0;
    for at in 0..cases.len() {
        let (_, later) = cases.split_at(at + 1);
        count += one_where_new(goes_to(later, cases[at].to.bytes()));
    }
    count
}
