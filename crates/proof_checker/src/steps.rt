ghost use Rattle.std.specs.Prelude.{◌≡◌, ◌<◌, ◌↔◌, ◌+ℤ◌, pos, true, length, IfOk, IsTrue, All, FitsSigned};
ghost use Rattle.std.specs.Int.{w128};
ghost use Rattle.mix_system.specs.System.{Exists};
ghost use Rattle.proof_term.specs.Valid.{has_ended, after_enter};
ghost use Rattle.open_levels.specs.Kept.{stage_of, AreLevels};
ghost use Rattle.proof_checker.specs.Place.{AtStep};
ghost use Rattle.proof_checker.specs.Outcome.{GoesTo, LemmaGives, TheoryGives, CutGives, EndGives};
ghost use Rattle.proof_checker.specs.Kept.{IsBase, Comes, LineOf};

use crate::Reason;
use crate::base::Base;
use crate::kept::{Found, Kept, Theory};
use mix_system::{Hints, Lits, Term};
use open_levels::{Available, OpenLevels, Shown, assume, follow_hints, has_term, names_terms};
use proof_term::MOST_NESTED;
use proof_text::Line;
use tree_check::OpenBoxes;
use wx_base::NoMemory;
use wx_num::Num;

// A step of the last level, or its end.
pub(crate) fn at_step(base: &Base, levels: OpenLevels, line: Line) -> Result<Found, NoMemory>
    requires sound { IsBase base.now }
    requires kept { AreLevels base.now.system.now base.now.cost levels }
    ensures { IfOk result (Comes base.now (LineOf base.now (AtStep (stage_of levels)) line)) }
{
    if levels.has_ended() {
        return after_empty(base, levels, line);
    }
    match line {
        Line::Lemma { clause, hints } => return lemma(base, levels, clause, hints),
        Line::Theory { clause } => return begin_theory(base, levels, clause),
        Line::Cut { term, bound } => return cut(base, levels, term, bound),
        Line::End => return Ok(Found::Failed(Reason::Unfinished)),
        _ => return Ok(Found::Failed(Reason::BadText)),
    }
}

// Behind the empty clause of a level only its end may stand.
fn after_empty(base: &Base, levels: OpenLevels, line: Line) -> Result<Found, NoMemory>
    requires sound { IsBase base.now }
    requires kept { AreLevels base.now.system.now base.now.cost levels }
    requires ended { has_ended (stage_of levels) ≡ true }
    ensures { IfOk result (Comes base.now (LineOf base.now (AtStep (stage_of levels)) line)) }
{
    let Line::End = line else {
        return Ok(Found::Failed(Reason::BadText));
    };
    end(base, levels)
}

fn lemma(base: &Base, mut levels: OpenLevels, clause: Lits, hints: Hints) -> Result<Found, NoMemory>
    requires sound { IsBase base.now }
    requires kept { AreLevels base.now.system.now base.now.cost levels }
    ensures { IfOk result (Comes base.now (LemmaGives base.now.system.now base.now.cost
        (stage_of levels) clause hints)) }
{
    let lits = clause.items();
    let numbers = hints.items();
    if !names_terms(base.system, lits) {
        return Ok(Found::Failed(Reason::OutOfRange));
    }
    if !are_below(numbers, levels.stack.next()) {
        return Ok(Found::Failed(Reason::OutOfRange));
    }
    let available = Available {
        system: base.system,
        stack: &levels.stack,
    };
    let shown = follow_hints(&mut levels.bounds, &available, lits, numbers)?;
    match shown {
        Shown::Follows => {
            let later = levels.with_clause(base.system, base.cost, lits)?;
            return Ok(Found::At(Kept::Step(later)));
        }
        Shown::Open => return Ok(Found::Failed(Reason::Hints)),
        Shown::TooLarge(excess) => return Ok(Found::Failed(Reason::TooLarge(excess))),
    }
}

// Whether all numbers are below the limit.
fn are_below(numbers: &[u32], limit: u64) -> bool
    ensures { IsTrue result ↔ All (λ number. number < limit) numbers.now }
{
    for number in numbers {
        if *number as u64 >= limit {
            return false;
        }
    }
    true
}

fn begin_theory(base: &Base, mut levels: OpenLevels, clause: Lits) -> Result<Found, NoMemory>
    requires { AreLevels base.now.system.now base.now.cost levels }
    ensures { IfOk result (Comes base.now (TheoryGives base.now.system.now base.now.cost
        (stage_of levels) clause)) }
{
    let lits = clause.items();
    if !names_terms(base.system, lits) {
        return Ok(Found::Failed(Reason::OutOfRange));
    }
    let mark = levels.bounds.mark();
    let excess = assume(&mut levels.bounds, base.system, lits)?;
    match excess {
        Some(excess) => return Ok(Found::Failed(Reason::TooLarge(excess))),
        None => {
            return Ok(Found::At(Kept::Tree(Theory {
                levels,
                clause,
                mark,
                boxes: OpenBoxes::new(base.alloc),
            })));
        }
    }
}

fn cut(base: &Base, levels: OpenLevels, term: Term, bound: i128) -> Result<Found, NoMemory>
    requires sound { IsBase base.now }
    requires kept { AreLevels base.now.system.now base.now.cost levels }
    ensures { IfOk result (Comes base.now (CutGives base.now.system.now
        (stage_of levels) term bound)) }
{
    if !has_term(base.system, term) {
        return Ok(Found::Failed(Reason::OutOfRange));
    }
    if !may_nest(&levels) {
        return Ok(Found::Failed(Reason::TooDeep));
    }
    match Num::add(bound, 1) {
        Err(excess) => return Ok(Found::Failed(Reason::TooLarge(excess))),
        Ok(_) => return enter(base, levels, term, bound),
    }
}

// Whether one level more may stand open.
fn may_nest(levels: &OpenLevels) -> bool
    ensures { IsTrue result ↔ (length levels.now.stack.enclosing < MOST_NESTED) }
{
    levels.stack.around() < MOST_NESTED as usize
}

// Opens the level of a cut.
fn enter(base: &Base, levels: OpenLevels, term: Term, bound: i128) -> Result<Found, NoMemory>
    requires sound { IsBase base.now }
    requires kept { AreLevels base.now.system.now base.now.cost levels }
    requires exists { Exists (length base.now.system.now.ranges)
        (length base.now.system.now.rows) term }
    requires fits { FitsSigned w128 (bound +ℤ pos 1) }
    ensures { IfOk result (Comes base.now (GoesTo
        (AtStep (after_enter (stage_of levels) term bound)))) }
{
    let inner = levels.entered(base.system, base.cost, term, bound)?;
    Ok(Found::At(Kept::Step(inner)))
}

// The end of the last level, which ended with the empty clause.
fn end(base: &Base, levels: OpenLevels) -> Result<Found, NoMemory>
    requires sound { IsBase base.now }
    requires kept { AreLevels base.now.system.now base.now.cost levels }
    requires ended { has_ended (stage_of levels) ≡ true }
    ensures { IfOk result (Comes base.now (EndGives (stage_of levels))) }
{
    let goal = levels.stack.goal();
    let outer = levels.closed(base.system, base.cost)?;
    match outer {
        Some(outer) => return Ok(Found::At(Kept::Step(outer))),
        None => return Ok(Found::At(Kept::End(goal))),
    }
}
