ghost use Rattle.std.specs.Prelude.{◌≡◌, ◌<◌, ◌≤ℤ◌, pos, map, true, false, Some, IfOk, All};
ghost use Rattle.proof_term.specs.Valid.{is_empty};
ghost use Rattle.proof_text.specs.declared.line.Line.TheVariants as line_of;
ghost use Rattle.proof_spelling.specs.declared.draft.Draft.TheVariants as kept;
ghost use Rattle.proof_spelling.specs.Lines.{multiple_of};
ghost use Rattle.proof_spelling.specs.Draft.{Comes, goal_of, proof_of, theory_ended};
ghost use Rattle.proof_spelling.specs.Ranges.{TakesOnce};

use mix_system::{Farkas, FarkasPart, FarkasParts, Hints, Lits, Term};
use proof_term::{Goal, Node, Nodes, Proof, Shape, Step, Steps, Tree};
use proof_text::{Line, Multiple, Multiples, Version};
use std::alloc::Global;
use wx_base::{NoMemory, Sequence};

/// How far the text of a proof was read, with what was read of the proof.
#[derive(Drop)]
pub(crate) enum Draft {
    Header,
    Shape,
    Goal(Option<Shape>),
    /// A step, or the end of a level.
    Step(Opened),
    /// A node of the tree of a theory.
    Node(Opened, Growing),
    /// Nothing: the proof has ended.
    End(Opened),
}

/// The first lines and the steps of a proof.
#[derive(Drop)]
pub(crate) struct Opened {
    pub(crate) shape: Option<Shape>,
    pub(crate) most: Option<u64>,
    pub(crate) steps: Steps,
    /// Whether the last level has ended with the empty clause.
    pub(crate) ended: bool,
    /// How many levels are open around the last one.
    pub(crate) around: u64,
}

/// A theory whose tree isn't whole.
#[derive(Drop)]
pub(crate) struct Growing {
    pub(crate) clause: Lits,
    pub(crate) nodes: Nodes,
    /// How many boxes are left but for that of the next node.
    pub(crate) others: u64,
}

/// What a line comes to behind others, or that none of its kind may stand there.
pub(crate) fn after_line(alloc: Global, draft: Draft, line: Line) -> Result<Option<Draft>, NoMemory>
    requires { TakesOnce line }
    ensures { IfOk result (Comes draft line) }
{
    match draft {
        Draft::Header => return Ok(after_header(line)),
        Draft::Shape => return Ok(after_shape(line)),
        Draft::Goal(shape) => return Ok(after_goal(alloc, shape, line)),
        Draft::Step(opened) => return after_steps(alloc, opened, line),
        Draft::Node(opened, growing) => return after_nodes(alloc, opened, growing, line),
        Draft::End(_) => return Ok(None),
    }
}

fn after_header(line: Line) -> Option<Draft>
    ensures { Comes kept.Header line result }
{
    let Line::Header(version) = line else {
        return None;
    };
    Some(after_version(version))
}

fn after_version(version: Version) -> Draft
    ensures { Comes kept.Header (line_of.Header version) (Some result) }
{
    match version {
        Version::One => Draft::Goal(None),
        Version::Two => Draft::Shape,
    }
}

fn after_shape(line: Line) -> Option<Draft>
    ensures { Comes kept.Shape line result }
{
    let Line::Shape { vars, clauses } = line else {
        return None;
    };
    Some(Draft::Goal(Some(Shape { vars, clauses })))
}

fn after_goal(alloc: Global, shape: Option<Shape>, line: Line) -> Option<Draft>
    ensures { Comes (kept.Goal shape) line result }
{
    let Line::Goal(most) = line else {
        return None;
    };
    Some(Draft::Step(Opened {
        shape,
        most,
        steps: Sequence::new(alloc),
        ended: false,
        around: 0,
    }))
}

fn after_steps(alloc: Global, opened: Opened, line: Line) -> Result<Option<Draft>, NoMemory>
    ensures { IfOk result (Comes (kept.Step opened) line) }
{
    if opened.ended {
        return after_empty(opened, line);
    }
    match line {
        Line::Lemma { clause, hints } => return lemma(opened, clause, hints),
        Line::Theory { clause } => return Ok(Some(theory(alloc, opened, clause))),
        Line::Cut { term, bound } => return cut(opened, term, bound),
        _ => return Ok(None),
    }
}

fn after_empty(opened: Opened, line: Line) -> Result<Option<Draft>, NoMemory>
    requires { opened.ended ≡ true }
    ensures { IfOk result (Comes (kept.Step opened) line) }
{
    let Line::End = line else {
        return Ok(None);
    };
    if opened.around == 0 {
        return Ok(Some(Draft::End(opened)));
    }
    leave(opened)
}

// The level of a cut is closed.
fn leave(mut opened: Opened) -> Result<Option<Draft>, NoMemory>
    requires ended { opened.ended ≡ true }
    requires inner { 0 < opened.around }
    ensures { IfOk result (Comes (kept.Step opened) line_of.End) }
{
    opened.steps.push(Step::Leave)?;
    opened.around -= 1;
    opened.ended = false;
    Ok(Some(Draft::Step(opened)))
}

fn lemma(mut opened: Opened, clause: Lits, hints: Hints) -> Result<Option<Draft>, NoMemory>
    requires { opened.ended ≡ false }
    ensures { IfOk result (Comes (kept.Step opened) (line_of.Lemma clause hints)) }
{
    opened.ended = is_empty(&clause);
    opened.steps.push(Step::Lemma { clause, hints })?;
    Ok(Some(Draft::Step(opened)))
}

fn is_empty(clause: &Lits) -> bool
    ensures { result ≡ is_empty clause.now }
{
    clause.items().is_empty()
}

// A theory without its tree.
fn theory(alloc: Global, opened: Opened, clause: Lits) -> Draft
    requires { opened.ended ≡ false }
    ensures { Comes (kept.Step opened) (line_of.Theory clause) (Some result) }
{
    Draft::Node(
        opened,
        Growing {
            clause,
            nodes: Sequence::new(alloc),
            others: 0,
        },
    )
}

fn cut(mut opened: Opened, term: Term, bound: i128) -> Result<Option<Draft>, NoMemory>
    requires { opened.ended ≡ false }
    ensures { IfOk result (Comes (kept.Step opened) (line_of.Cut term bound)) }
{
    let Some(around) = opened.around.checked_add(1) else {
        return Err(NoMemory);
    };
    opened.around = around;
    opened.steps.push(Step::Enter { term, bound })?;
    Ok(Some(Draft::Step(opened)))
}

fn after_nodes(
    alloc: Global,
    opened: Opened,
    growing: Growing,
    line: Line,
) -> Result<Option<Draft>, NoMemory>
    requires { TakesOnce line }
    ensures { IfOk result (Comes (kept.Node opened growing) line) }
{
    match line {
        Line::Leaf { parts } => return leaf(alloc, opened, growing, &parts),
        Line::Split { var, at } => return split(opened, growing, var, at),
        _ => return Ok(None),
    }
}

fn split(
    opened: Opened,
    mut growing: Growing,
    var: u32,
    at: i128,
) -> Result<Option<Draft>, NoMemory>
    ensures { IfOk result (Comes (kept.Node opened growing) (line_of.Split var at)) }
{
    let Some(others) = growing.others.checked_add(1) else {
        return Err(NoMemory);
    };
    growing.others = others;
    growing.nodes.push(Node::Split { var, at })?;
    Ok(Some(Draft::Node(opened, growing)))
}

fn leaf(
    alloc: Global,
    opened: Opened,
    mut growing: Growing,
    multiples: &Multiples,
) -> Result<Option<Draft>, NoMemory>
    requires { All (λ part. pos 1 ≤ℤ part.by) multiples.now }
    ensures { IfOk result (Comes (kept.Node opened growing) (line_of.Leaf multiples.now)) }
{
    let parts = parts_of(alloc, multiples.items())?;
    growing.nodes.push(Node::Leaf(Farkas { parts }))?;
    if growing.others == 0 {
        return refuted(opened, growing);
    }
    growing.others -= 1;
    Ok(Some(Draft::Node(opened, growing)))
}

// The parts of a leaf, each with a multiplier of 1 at least.
fn parts_of(alloc: Global, multiples: &[Multiple]) -> Result<FarkasParts, NoMemory>
    requires { All (λ part. pos 1 ≤ℤ part.by) multiples.now }
    ensures { IfOk result (λ parts. map multiple_of parts ≡ multiples.now) }
{
    let mut parts = FarkasParts::new(alloc);
    for part in multiples {
        parts.push(FarkasPart {
            lit: part.lit,
            by: part.by,
        })?;
    }
    Ok(parts)
}

// The tree of a theory is whole.
fn refuted(mut opened: Opened, growing: Growing) -> Result<Option<Draft>, NoMemory>
    ensures { IfOk result (λ next. next ≡ Some (kept.Step (theory_ended opened growing))) }
{
    let Growing { clause, nodes, .. } = growing;
    opened.ended = is_empty(&clause);
    let tree = Tree { nodes };
    opened.steps.push(Step::Theory { clause, tree })?;
    Ok(Some(Draft::Step(opened)))
}

/// The proof of what was read to its end.
pub(crate) fn proof_of(opened: Opened) -> Proof
    ensures { result ≡ proof_of opened }
{
    Proof {
        goal: goal_of(opened.most),
        shape: opened.shape,
        steps: opened.steps,
    }
}

fn goal_of(most: Option<u64>) -> Goal
    ensures { result ≡ goal_of most }
{
    match most {
        Some(most) => Goal::AtMost(most),
        None => Goal::Nothing,
    }
}
