//! The steps of a solver as the text of a proof, and what the checker says of it.

use crate::run::{Run, Standing};
use crate::shown::{marked, no_call, verdict_text};
use crate::systems::exists;
use mix_system::{Lit, Side, Term};
use proof_spelling::print;
use proof_term::{Goal, Proof, Step, Steps};
use std::alloc::Global;
use wx_base::{Copied, NoMemory};

/// `check`: what the checker says of the steps, over the system whose clauses are the level's.
pub fn check(alloc: Global, run: &Run<'_>) -> Result<String, NoMemory> {
    let Some(proof) = proof_of(alloc, run)? else {
        return no_call(alloc);
    };
    let cost = cost_of(run);
    if !exists(run.checked.vars(), run.checked.rows(), cost) {
        return no_call(alloc);
    }
    let text = print(alloc, &proof)?;
    let verdict = proof_checker::check(alloc, &run.checked, cost, &text)?;
    verdict_text(alloc, verdict, &text)
}

/// `text`: the text of the steps, with a mark for each line feed.
pub fn text(alloc: Global, run: &Run<'_>) -> Result<String, NoMemory> {
    let Some(proof) = proof_of(alloc, run)? else {
        return no_call(alloc);
    };
    let text = print(alloc, &proof)?;
    marked(alloc, &text)
}

// The term of the goal; where there is none, some term.
fn cost_of(run: &Run<'_>) -> Term {
    match run.mixed.level.goal {
        Some(goal) => goal.term,
        None if run.checked.vars() == 0 => Term::Row(0),
        None => Term::Var(0),
    }
}

// The steps as a proof of their goal, `None` for a goal that no proof has. Where the goal of the
// whole can't have its number, they are those of a cut.
fn proof_of(alloc: Global, run: &Run<'_>) -> Result<Option<Proof>, NoMemory> {
    let steps = run.mixed.steps();
    let Some(goal) = run.mixed.level.goal else {
        return Ok(Some(outermost(alloc, Goal::Nothing, steps)?));
    };
    let Some(bound) = bound_below(goal) else {
        return Ok(None);
    };
    if let Ok(most) = u64::try_from(bound) {
        return Ok(Some(outermost(alloc, Goal::AtMost(most), steps)?));
    }
    Ok(Some(of_cut(alloc, goal.term, bound, run)?))
}

// What the goal's term is at most, where the goal can't be met.
fn bound_below(goal: Lit) -> Option<i128> {
    match goal.side {
        Side::Ge => goal.bound.checked_sub(1),
        Side::Le => None,
    }
}

fn outermost(alloc: Global, goal: Goal, steps: &[Step]) -> Result<Proof, NoMemory> {
    let mut copied = Steps::new(alloc);
    push_all(alloc, &mut copied, steps)?;
    Ok(Proof {
        goal,
        shape: None,
        steps: copied,
    })
}

fn of_cut(alloc: Global, term: Term, bound: i128, run: &Run<'_>) -> Result<Proof, NoMemory> {
    let mut steps = Steps::new(alloc);
    steps.push(Step::Enter { term, bound })?;
    push_all(alloc, &mut steps, run.mixed.steps())?;
    if let Standing::Ended = run.standing {
        steps.push(Step::Leave)?;
    }
    Ok(Proof {
        goal: Goal::Nothing,
        shape: None,
        steps,
    })
}

fn push_all(alloc: Global, copied: &mut Steps, steps: &[Step]) -> Result<(), NoMemory> {
    for step in steps {
        copied.push(step.copy(alloc)?)?;
    }
    Ok(())
}
