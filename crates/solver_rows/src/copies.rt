ghost use Rattle.std.specs.Prelude.{pos, ◌≤ℤ◌};

use crate::literals::lits_of;
use crate::systems::{no_call, numbers_of};
use mix_system::{Farkas, FarkasPart, FarkasParts, Numbers, Terms};
use proof_term::{
    Goal, Node, Nodes, OpenNode, OpenNodes, OpenTree, Proof, Shape, Step, Steps, Tree,
};
use proof_text::{Line, LineRead, Multiple, read};
use std::alloc::Global;
use wx_base::{Copied, NoMemory};

// A copy of what a row says, as it is debugged: `numbers`, `terms` (those of literals), `tree` and `proof`,
// whose lines are parted by a `/`. The nodes of a tree stand before its clause.
pub fn answer(alloc: Global, of: &str, call: &str) -> Result<String, NoMemory> {
    match of {
        "numbers" => numbers(alloc, call),
        "terms" => terms(alloc, call),
        "tree" => tree(alloc, call),
        "proof" => proof(alloc, call),
        _ => no_call(alloc),
    }
}

fn numbers(alloc: Global, call: &str) -> Result<String, NoMemory> {
    let numbers = Numbers::from_vec(numbers_of(alloc, call)?).copy(alloc)?;
    Ok(format!(in alloc; "{numbers:?}")?)
}

fn terms(alloc: Global, call: &str) -> Result<String, NoMemory> {
    let mut terms = Terms::new(alloc);
    for lit in lits_of(alloc, call)?.items() {
        terms.push(lit.term)?;
    }
    Ok(format!(in alloc; "{:?}", terms.copy(alloc)?)?)
}

fn tree(alloc: Global, call: &str) -> Result<String, NoMemory> {
    let mut nodes = OpenNodes::new(alloc);
    for line in call.split(" / ") {
        nodes.push(open_node(alloc, line)?)?;
    }
    Ok(format!(in alloc; "{:?}", OpenTree { nodes }.copy(alloc)?)?)
}

fn open_node(alloc: Global, line: &str) -> Result<OpenNode, NoMemory> {
    Ok(match read(alloc, line.as_bytes())? {
        LineRead::Fits(Line::Split { var, at }) => OpenNode::Split { var, at },
        LineRead::Fits(Line::Leaf { parts }) => OpenNode::Leaf(farkas_of(alloc, parts.items())?),
        _other => OpenNode::Pending,
    })
}

fn farkas_of(alloc: Global, multiples: &[Multiple]) -> Result<Farkas, NoMemory> {
    let mut parts = FarkasParts::new(alloc);
    for multiple in multiples {
        if multiple.by >= 1 {
            parts.push(FarkasPart {
                lit: multiple.lit,
                by: multiple.by,
            })?;
        }
    }
    Ok(Farkas { parts })
}

fn proof(alloc: Global, call: &str) -> Result<String, NoMemory> {
    let mut proof = Proof {
        goal: Goal::Nothing,
        shape: None,
        steps: Steps::new(alloc),
    };
    let mut nodes = Nodes::new(alloc);
    for line in call.split(" / ") {
        if let LineRead::Fits(line) = read(alloc, line.as_bytes())? {
            nodes = put(alloc, &mut proof, nodes, line)?;
        }
    }
    Ok(format!(in alloc; "{:?}", proof.copy(alloc)?)?)
}

// What a line adds to a proof, and the nodes that wait for their clause then.
fn put(alloc: Global, proof: &mut Proof, mut nodes: Nodes, line: Line) -> Result<Nodes, NoMemory> {
    match line {
        Line::Goal(Some(most)) => proof.goal = Goal::AtMost(most),
        Line::Shape { vars, clauses } => proof.shape = Some(Shape { vars, clauses }),
        Line::Split { var, at } => nodes.push(Node::Split { var, at })?,
        Line::Leaf { parts } => nodes.push(Node::Leaf(farkas_of(alloc, parts.items())?))?,
        Line::Theory { clause } => {
            let tree = Tree { nodes };
            proof.steps.push(Step::Theory { clause, tree })?;
            return Ok(Nodes::new(alloc));
        }
        Line::Lemma { clause, hints } => proof.steps.push(Step::Lemma { clause, hints })?,
        Line::Cut { term, bound } => proof.steps.push(Step::Enter { term, bound })?,
        _other => proof.steps.push(Step::Leave)?,
    }
    Ok(nodes)
}
