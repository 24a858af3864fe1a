//! Scripts of calls, and what is known of a search between two calls.

ghost use Rattle.std.specs.Prelude.{IfOk, OnOk};
ghost use Rattle.search_rows.specs.Run.{IsKnown};

use crate::shown::{no_call, state_text};
use crate::solve::solve;
use crate::steps::{add, ask, back_to, decide, learn, propagate, raise};
use clause_search::Search;
use mix_system::{System, Tally};
use std::alloc::Global;
use wx_base::NoMemory;

/// What was found of the clauses by the last call.
#[derive(Clone, Copy)]
pub enum Standing {
    /// Nothing.
    Open,
    /// Each asks for nothing.
    Settled,
    /// The one of that number is false.
    Broken(u32),
}

/// A search of a script over so many variables and rows, with its tally.
#[derive(Drop)]
pub struct Run {
    pub search: Search,
    pub tally: Tally,
    pub vars: u32,
    pub rows: u32,
    pub standing: Standing,
}

/// What the calls of a script give, over the clauses of a system.
pub fn told(alloc: Global, system: &System, budget: u64, calls: &str) -> Result<String, NoMemory> {
    let mut told = String::new(alloc);
    let mut run = begun(alloc, system, budget)?;
    for call in calls.split_whitespace() {
        let text = step(alloc, &mut run, call)?;
        told.push_str(if told.is_empty() { "" } else { "; " })?;
        told.push_str(text.as_str())?;
    }
    Ok(told)
}

fn begun(alloc: Global, system: &System, budget: u64) -> Result<Run, NoMemory>
    ensures { IfOk result IsKnown }
{
    Ok(Run {
        search: Search::new(alloc, system)?,
        tally: Tally::new(budget),
        vars: system.vars(),
        rows: system.rows(),
        standing: Standing::Open,
    })
}

fn step(alloc: Global, run: &mut Run, call: &str) -> Result<String, NoMemory>
    requires { IsKnown run.old }
    ensures { OnOk result (IsKnown run.new) }
{
    let (word, of) = call.split_once(':').unwrap_or((call, ""));
    match word {
        "propagate" => propagate(alloc, run),
        "decide" => decide(alloc, run, of),
        "ask" => ask(alloc, run, of),
        "back" => back_to(alloc, run, of),
        "add" => add(alloc, run, of),
        "learn" => learn(alloc, run),
        "solve" => solve(alloc, run),
        "budget" => raise(alloc, run, of),
        "all" => state_text(alloc, run),
        _ => no_call(alloc),
    }
}
