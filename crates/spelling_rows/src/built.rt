ghost use Rattle.std.specs.Prelude.{pos, ◌≤ℤ◌};

use mix_system::{Farkas, FarkasPart, FarkasParts};
use proof_spelling::print;
use proof_term::{Goal, Node, Nodes, Proof, Shape, Step, Steps, Tree};
use proof_text::{Line, LineRead, Multiple, read};
use std::alloc::Global;
use wx_base::NoMemory;

// The text of a proof that is built of lines parted by `/`, with `/` for its line feeds. The nodes
// of a theory stand before it.
pub fn printed(alloc: Global, call: &str) -> Result<String, NoMemory> {
    let mut proof = Proof {
        goal: Goal::Nothing,
        shape: None,
        steps: Steps::new(alloc),
    };
    let mut nodes = Nodes::new(alloc);
    for line in call.split('/') {
        if let LineRead::Fits(line) = read(alloc, line.as_bytes())? {
            nodes = put(alloc, &mut proof, nodes, line)?;
        }
    }
    let bytes = print(alloc, &proof)?;
    marked(alloc, bytes.as_slice())
}

fn marked(alloc: Global, bytes: &[u8]) -> Result<String, NoMemory> {
    let mut text = String::new(alloc);
    for byte in bytes {
        text.push(if *byte == b'\n' { '/' } else { *byte as char })?;
    }
    Ok(text)
}

// What a line adds to a proof, and the nodes that wait for their theory then.
fn put(alloc: Global, proof: &mut Proof, mut nodes: Nodes, line: Line) -> Result<Nodes, NoMemory> {
    match line {
        Line::Goal(Some(most)) => proof.goal = Goal::AtMost(most),
        Line::Shape { vars, clauses } => proof.shape = Some(Shape { vars, clauses }),
        Line::Split { var, at } => nodes.push(Node::Split { var, at })?,
        Line::Leaf { parts } => nodes.push(Node::Leaf(farkas_of(alloc, parts.items())?))?,
        Line::Theory { clause } => {
            let tree = Tree { nodes };
            proof.steps.push(Step::Theory { clause, tree })?;
            return Ok(Nodes::new(alloc));
        }
        Line::Lemma { clause, hints } => proof.steps.push(Step::Lemma { clause, hints })?,
        Line::Cut { term, bound } => proof.steps.push(Step::Enter { term, bound })?,
        _other => proof.steps.push(Step::Leave)?,
    }
    Ok(nodes)
}

fn farkas_of(alloc: Global, multiples: &[Multiple]) -> Result<Farkas, NoMemory> {
    let mut parts = FarkasParts::new(alloc);
    for multiple in multiples {
        if multiple.by >= 1 {
            parts.push(FarkasPart {
                lit: multiple.lit,
                by: multiple.by,
            })?;
        }
    }
    Ok(Farkas { parts })
}
