ghost use Rattle.std.specs.Prelude.{◌≡◌, ◌++◌, map, OnOk, IfOk, All};
ghost use Rattle.std.specs.List.{flat_map};
ghost use Rattle.proof_text.specs.declared.line.Line.TheVariants as line;
ghost use Rattle.proof_spelling.specs.Lines.{multiple_of, node_line, step_lines, first_lines, goal_number, proof_lines};
ghost use Rattle.proof_spelling.specs.Text.{spaced_multiple, line_bytes, lines_bytes, text_of};
ghost use Rattle.proof_spelling.specs.Ranges.{MultipleFits, LineFits};
ghost use Rattle.proof_spelling.specs.Complete.{IsComplete};
ghost use Rattle.proof_spelling.specs.Spells.{Spells};

use crate::writing::{
    push, push_bound, push_literal, push_literals, push_long, push_number, push_numbers, push_term,
};
use mix_system::{FarkasPart, Hints, Lits, Term};
use proof_term::{Goal, Node, Proof, Shape, Step};
use std::alloc::Global;
use wx_base::NoMemory;

/// The text of a proof. It spells each proof that has the form of one: an outermost goal, each
/// level ended by its first empty clause, each level of a cut closed, each tree whole, and no leaf
/// without a part.
pub fn print(alloc: Global, proof: &Proof) -> Result<Vec<u8>, NoMemory>
    ensures text { IfOk result (λ text. text.items ≡ text_of proof.now) }
    ensures spells { IfOk result (λ text. IsComplete proof.now → Spells text.items proof.now) }
{
    let mut text = Vec::new(alloc);
    push_first_lines(&mut text, proof.shape)?;
    push_goal(&mut text, proof.goal)?;
    push_steps(&mut text, proof.steps.items())?;
    push(&mut text, b"end\n")?;
    Ok(text)
}

fn push_first_lines(text: &mut Vec<u8>, shape: Option<Shape>) -> Result<(), NoMemory>
    ensures text { OnOk result (text.new.items ≡
        text.old.items ++ lines_bytes (first_lines shape)) }
    ensures fits { OnOk result (All LineFits (first_lines shape)) }
{
    match shape {
        Some(shape) => {
            push(text, b"wcet proof 2\nsystem")?;
            push_number(text, shape.vars)?;
            push_number(text, shape.clauses)?;
            push(text, b"\n")
        }
        None => push(text, b"wcet proof 1\n"),
    }
}

fn push_goal(text: &mut Vec<u8>, goal: Goal) -> Result<(), NoMemory>
    ensures text { OnOk result (text.new.items ≡
        text.old.items ++ line_bytes (line.Goal (goal_number goal))) }
    ensures fits { OnOk result (LineFits (line.Goal (goal_number goal))) }
{
    match goal {
        Goal::AtMost(most) => {
            push(text, b"goal")?;
            push_long(text, most)?;
            push(text, b"\n")
        }
        _ => push(text, b"goal none\n"),
    }
}

fn push_steps(text: &mut Vec<u8>, steps: &[Step]) -> Result<(), NoMemory>
    ensures text { OnOk result (text.new.items ≡
        text.old.items ++ lines_bytes (flat_map step_lines steps.now)) }
    ensures fits { OnOk result (All LineFits (flat_map step_lines steps.now)) }
{
    for step in steps {
        push_step(text, step)?;
    }
    Ok(())
}

fn push_step(text: &mut Vec<u8>, step: &Step) -> Result<(), NoMemory>
    ensures text { OnOk result (text.new.items ≡
        text.old.items ++ lines_bytes (step_lines step.now)) }
    ensures fits { OnOk result (All LineFits (step_lines step.now)) }
{
    match step {
        Step::Lemma { clause, hints } => push_lemma(text, clause, hints),
        Step::Theory { clause, tree } => {
            push_theory(text, clause)?;
            push_nodes(text, tree.nodes.items())
        }
        Step::Enter { term, bound } => push_cut(text, *term, *bound),
        Step::Leave => push(text, b"end\n"),
    }
}

fn push_lemma(text: &mut Vec<u8>, clause: &Lits, hints: &Hints) -> Result<(), NoMemory>
    ensures text { OnOk result (text.new.items ≡
        text.old.items ++ line_bytes (line.Lemma clause.now hints.now)) }
    ensures fits { OnOk result (LineFits (line.Lemma clause.now hints.now)) }
{
    push(text, b"lemma")?;
    push_literals(text, clause.items())?;
    push(text, b" :")?;
    push_numbers(text, hints.items())?;
    push(text, b"\n")
}

fn push_theory(text: &mut Vec<u8>, clause: &Lits) -> Result<(), NoMemory>
    ensures text { OnOk result (text.new.items ≡
        text.old.items ++ line_bytes (line.Theory clause.now)) }
    ensures fits { OnOk result (LineFits (line.Theory clause.now)) }
{
    push(text, b"theory")?;
    push_literals(text, clause.items())?;
    push(text, b"\n")
}

fn push_cut(text: &mut Vec<u8>, term: Term, bound: i128) -> Result<(), NoMemory>
    ensures text { OnOk result (text.new.items ≡
        text.old.items ++ line_bytes (line.Cut term bound)) }
    ensures fits { OnOk result (LineFits (line.Cut term bound)) }
{
    push(text, b"cut")?;
    push_term(text, term)?;
    push_bound(text, bound)?;
    push(text, b"\n")
}

fn push_nodes(text: &mut Vec<u8>, nodes: &[Node]) -> Result<(), NoMemory>
    ensures text { OnOk result (text.new.items ≡
        text.old.items ++ lines_bytes (map node_line nodes.now)) }
    ensures fits { OnOk result (All LineFits (map node_line nodes.now)) }
{
    for node in nodes {
        push_node(text, node)?;
    }
    Ok(())
}

fn push_node(text: &mut Vec<u8>, node: &Node) -> Result<(), NoMemory>
    ensures text { OnOk result (text.new.items ≡
        text.old.items ++ line_bytes (node_line node.now)) }
    ensures fits { OnOk result (LineFits (node_line node.now)) }
{
    match node {
        Node::Leaf(farkas) => push_leaf(text, farkas.parts.items()),
        Node::Split { var, at } => push_split(text, *var, *at),
    }
}

fn push_leaf(text: &mut Vec<u8>, parts: &[FarkasPart]) -> Result<(), NoMemory>
    ensures text { OnOk result (text.new.items ≡
        text.old.items ++ line_bytes (line.Leaf (map multiple_of parts.now))) }
    ensures fits { OnOk result (LineFits (line.Leaf (map multiple_of parts.now))) }
{
    push(text, b"leaf")?;
    push_parts(text, parts)?;
    push(text, b"\n")
}

fn push_parts(text: &mut Vec<u8>, parts: &[FarkasPart]) -> Result<(), NoMemory>
    ensures text { OnOk result (text.new.items ≡
        text.old.items ++ flat_map spaced_multiple (map multiple_of parts.now)) }
    ensures fits { OnOk result (All MultipleFits (map multiple_of parts.now)) }
{
    for part in parts {
        push_part(text, *part)?;
    }
    Ok(())
}

fn push_part(text: &mut Vec<u8>, part: FarkasPart) -> Result<(), NoMemory>
    ensures text { OnOk result (text.new.items ≡
        text.old.items ++ spaced_multiple (multiple_of part)) }
    ensures fits { OnOk result (MultipleFits (multiple_of part)) }
{
    push_bound(text, part.by)?;
    push_literal(text, part.lit)
}

fn push_split(text: &mut Vec<u8>, var: u32, at: i128) -> Result<(), NoMemory>
    ensures text { OnOk result (text.new.items ≡ text.old.items ++ line_bytes (line.Split var at)) }
    ensures fits { OnOk result (LineFits (line.Split var at)) }
{
    push(text, b"split")?;
    push_term(text, Term::Var(var))?;
    push_bound(text, at)?;
    push(text, b"\n")
}
