ghost use Rattle.std.specs.Prelude.{◌≡◌, ◌<◌, ◌≤◌, ◌∷◌, ◌++◌, [], ℕ, List, length, IfOk, OnOk, MatchOption};
ghost use Rattle.mix_system.specs.declared.literal.Term.{Term as CostTerm};
ghost use Rattle.mix_system.specs.System.{System as Lists, Exists};
ghost use Rattle.proof_checker.specs.Place.{Place, AtHeader};
ghost use Rattle.proof_checker.specs.Verdict.{line_len, lines, end_verdict, AreAnswered, IsVerdict};
ghost use Rattle.proof_checker.specs.declared.base.Base.{Base as Over};
ghost use Rattle.proof_checker.specs.Kept.{IsKept};
ghost use Rattle.proof_checker.specs.Fed.{HasRead, IsFed};

use crate::base::Base;
use crate::kept::{Found, Kept};
use crate::line::after_line;
use crate::{Reason, Verdict};
use leaf_check::Sums;
use mix_system::{System, Term};
use std::alloc::Global;
use std::mem;
use wx_base::NoMemory;

/// A checker of the text of a proof, which is fed the lines one by one.
#[derive(Drop)]
pub struct Checker<'a> {
    base: Base<'a>,
    sums: Sums,
    // The number of the next line, or of the one that failed.
    number: u64,
    found: Found,
}

/// What the lines so far come to.
#[derive(Clone, Copy, Debug, PartialEq, Eq)]
pub enum Fed {
    /// All of them pass.
    Going,
    /// The first that fails has this reason.
    Failed(Reason),
}

/// The answer to the text of a proof over a system whose cost is the term.
pub fn check(alloc: Global, system: &System, cost: Term, text: &[u8]) -> Result<Verdict, NoMemory>
    requires { Exists (length system.now.ranges) (length system.now.rows) cost }
    ensures { IfOk result (IsVerdict system.now cost text.now) }
{
    let mut checker = Checker::new(alloc, system, cost)?;
    let mut left = text;
    while let Some((line, behind)) = first_line(left) {
        checker.line(line)?;
        left = behind;
    }
    Ok(checker.end(left))
}

// The first line of some bytes, and what stands behind its line feed.
#[tactic(auto, using(crate::proofs::LineLaws::lines_first))]
fn first_line(bytes: &[u8]) -> Option<(&[u8], &[u8])>
    ensures { MatchOption result (lines bytes.now ≡ bytes.now ∷ [])
        (λ parts. (lines bytes.now ≡ parts.0.now ∷ lines parts.1.now) ×
        (length parts.1.now < length bytes.now)) }
{
    let (line, behind) = bytes.split_at(line_len(bytes));
    match behind {
        [] => None,
        [_, rest @ ..] => Some((line, rest)),
    }
}

// How many bytes stand before the first line feed.
fn line_len(bytes: &[u8]) -> usize
    ensures len { result ≡ line_len bytes.now }
    ensures within { result ≤ length bytes.now }
{
    bytes.iter().take_while(|byte| **byte != b'\n').count()
}

impl<'a> Checker<'a> {
    /// A checker that was fed no line yet.
    pub fn new(alloc: Global, system: &'a System, cost: Term) -> Result<Checker<'a>, NoMemory>
        requires { Exists (length system.now.ranges) (length system.now.rows) cost }
        ensures { IfOk result (HasRead system.now cost []) }
    {
        let sums = Sums::new(alloc, system.vars())?;
        Ok(Checker {
            base: Base {
                alloc,
                system,
                cost,
            },
            sums,
            number: 1,
            found: Found::At(Kept::Header),
        })
    }

    /// Takes the next line, without its line feed. After a line that fails all others change
    /// nothing.
    ///
    /// Where memory is wanting the checker is of no more use.
    pub fn line(&mut self, line: &[u8]) -> Result<Fed, NoMemory>
        requires { (system : Lists) × (cost : CostTerm) × (fed : List (List ℕ)) ×
            HasRead system cost fed self.old }
        ensures read { OnOk result ((system : Lists) (cost : CostTerm) (fed : List (List ℕ)) →
            HasRead system cost fed self.old →
            HasRead system cost (fed ++ line.now ∷ []) self.new) }
        ensures answer { IfOk result (λ answer. (system : Lists) (cost : CostTerm)
            (fed : List (List ℕ)) → HasRead system cost fed self.old →
            IsFed system cost (fed ++ line.now ∷ []) answer) }
    {
        let found = mem::replace(&mut self.found, Found::At(Kept::Header));
        match found {
            Found::Failed(reason) => {
                self.found = Found::Failed(reason);
                return Ok(Fed::Failed(reason));
            }
            Found::At(kept) => return self.take(kept, line),
        }
    }

    // Takes the next line behind lines that came to what is kept, which was found.
    fn take(&mut self, kept: Kept, line: &[u8]) -> Result<Fed, NoMemory>
        requires { (system : Lists) × (cost : CostTerm) × (fed : List (List ℕ)) ×
            HasRead system cost fed (record self.old { found = Found.At kept }) }
        ensures read { OnOk result ((system : Lists) (cost : CostTerm) (fed : List (List ℕ)) →
            HasRead system cost fed (record self.old { found = Found.At kept }) →
            HasRead system cost (fed ++ line.now ∷ []) self.new) }
        ensures answer { IfOk result (λ answer. (system : Lists) (cost : CostTerm)
            (fed : List (List ℕ)) →
            HasRead system cost fed (record self.old { found = Found.At kept }) →
            IsFed system cost (fed ++ line.now ∷ []) answer) }
    {
        let found = after_line(&self.base, &mut self.sums, kept, line)?;
        match found {
            Found::Failed(reason) => {
                self.found = Found::Failed(reason);
                return Ok(Fed::Failed(reason));
            }
            Found::At(next) => {
                let Some(later) = self.number.checked_add(1) else {
                    return Err(NoMemory);
                };
                self.number = later;
                self.found = Found::At(next);
                return Ok(Fed::Going);
            }
        }
    }

    /// The answer to the lines that were fed, each with a line feed, and what stands behind the
    /// last line feed.
    pub fn end(self, rest: &[u8]) -> Verdict
        ensures { (system : Lists) (cost : CostTerm) (fed : List (List ℕ)) →
            HasRead system cost fed self.entry →
            AreAnswered system cost AtHeader 1 (fed ++ rest.now ∷ []) result }
    {
        let Checker { number, found, .. } = self;
        match found {
            Found::Failed(reason) => {
                return Verdict::No {
                    line: number,
                    reason,
                };
            }
            Found::At(kept) => return ended(kept, number, rest),
        }
    }
}

// The answer where the lines came to what is kept, and these bytes stand behind the last line feed.
fn ended(kept: Kept, line: u64, rest: &[u8]) -> Verdict
    ensures { (base : Over) (to : Place) → IsKept base kept to →
        result ≡ end_verdict to line rest.now }
{
    if !rest.is_empty() {
        return Verdict::No {
            line,
            reason: Reason::BadText,
        };
    }
    let Kept::End(goal) = kept else {
        return Verdict::No {
            line,
            reason: Reason::Unfinished,
        };
    };
    Verdict::Yes(goal)
}
