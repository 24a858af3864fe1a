ghost use Rattle.std.specs.Prelude.{◌≡◌, ℕ, ◌+◌, ◌^◌, ◌<◌, List, length, sum, vec_len, IsSome, IfSome, IfNone, IfOk, MatchBool};
ghost use Rattle.wx_base.specs.Args.{AreArguments};
ghost use Rattle.wcet_core.specs.Trial.{IsFirstBest, IsLeader, NoneReach, ReachTheSame, place};

use std::alloc::Global;
use wx_base::{NoMemory, Sequence};

/// A function with a way to run it on arguments.
pub trait Machine {
    /// The widths of its parameters in bits.
    ghost widths: { Self → List ℕ };

    /// Arguments have a run that costs so much.
    ghost reaches: { Self → List ℕ → ℕ → Type 0 };

    /// Every list of arguments has a run. Where that is not known, an implementation says `⊥`.
    ghost always_runs: { Self → Type 0 };

    /// Runs on arguments, and gives the cost of their run: `None` exactly where they have none.
    fn run(&mut self, args: &[u32]) -> Option<u64>
        requires { AreArguments (widths self.old) args.now }
        ensures cost { IfSome result (reaches self.old args.now) }
        ensures only { (n : ℕ) → reaches self.old args.now n → result ≡ Some n }
        ensures always { always_runs self.old → IsSome result }
        ensures same_widths { widths self.new ≡ widths self.old }
        ensures same_reach { ReachTheSame (reaches self.old) (reaches self.new) }
        ensures still_runs { always_runs self.old → always_runs self.new };
}

/// Arguments with a run that costs the most, and its cost.
#[derive(Debug, Drop)]
pub struct Best {
    pub args: Sequence<u32>,
    pub cost: u64,
}

// The best of the arguments tried so far. Where there is no cost, none had a run.
#[derive(Drop)]
struct Leader {
    args: Vec<u32>,
    cost: Option<u64>,
}

/// Tries all arguments in lexicographic order, the last one fastest, and gives the first of those
/// that cost the most. It gives `None` exactly where no arguments have a run.
///
/// Memory is taken only before the first run. With fewer than 32 bits in all, each argument is a
/// `u32`, and so is the number of runs.
pub fn try_all<M: Machine>(
    alloc: Global,
    machine: &mut M,
    widths: &[u32],
) -> Result<Option<Best>, NoMemory>
    requires widths { M.widths machine.old ≡ widths.now }
    requires bits { sum widths.now < 32 }

    ensures best { IfOk result (λ found. IfSome found (λ best.
        IsFirstBest (M.reaches machine.old) widths.now best.args best.cost)) }
    ensures none { IfOk result (λ found.
        IfNone found (NoneReach (M.reaches machine.old) widths.now)) }
    ensures always { M.always_runs machine.old → IfOk result IsSome }

    // The machine is as good for another trial.
    ensures same_widths { M.widths machine.new ≡ M.widths machine.old }
    ensures same_reach { ReachTheSame (M.reaches machine.old) (M.reaches machine.new) }
    ensures still_runs { M.always_runs machine.old → M.always_runs machine.new }
{
    let mut args = vec![in alloc; 0; widths.len()]?;
    let mut leader = Leader {
        args: vec![in alloc; 0; widths.len()]?,
        cost: None,
    };
    try_from(machine, widths, &mut args, &mut leader);
    let Some(cost) = leader.cost else {
        return Ok(None);
    };
    Ok(Some(Best {
        args: Sequence::from_vec(leader.args),
        cost,
    }))
}

// Tries the arguments and all that come after them.
fn try_from<M: Machine>(machine: &mut M, widths: &[u32], args: &mut [u32], leader: &mut Leader)
    requires widths { M.widths machine.old ≡ widths.now }
    requires bits { sum widths.now < 32 }
    requires are { AreArguments widths.now args.old }
    requires room { vec_len leader.old.args ≡ length args.old }
    requires leads { IsLeader (M.reaches machine.old) widths.now (place widths.now args.old)
        leader.old.args.items leader.old.cost }

    ensures leads { IsLeader (M.reaches machine.old) widths.now (2 ^ sum widths.now)
        leader.new.args.items leader.new.cost }
    ensures always { M.always_runs machine.old → IsSome leader.new.cost }

    ensures same_widths { M.widths machine.new ≡ M.widths machine.old }
    ensures same_reach { ReachTheSame (M.reaches machine.old) (M.reaches machine.new) }
    ensures still_runs { M.always_runs machine.old → M.always_runs machine.new }
{
    try_one(machine, args, leader);
    while advance(args, widths) {
        try_one(machine, args, leader);
    }
}

// Runs on the arguments, which lead from then on if they cost more than the leader.
fn try_one<M: Machine>(machine: &mut M, args: &[u32], leader: &mut Leader)
    requires are { AreArguments (M.widths machine.old) args.now }
    requires room { vec_len leader.old.args ≡ length args.now }
    requires leads { let widths = M.widths machine.old in
        IsLeader (M.reaches machine.old) widths (place widths args.now)
        leader.old.args.items leader.old.cost }

    ensures leads { let widths = M.widths machine.old in
        IsLeader (M.reaches machine.old) widths (place widths args.now + 1)
        leader.new.args.items leader.new.cost }
    ensures always { M.always_runs machine.old → IsSome leader.new.cost }
    ensures room { vec_len leader.new.args ≡ length args.now }

    ensures same_widths { M.widths machine.new ≡ M.widths machine.old }
    ensures same_reach { ReachTheSame (M.reaches machine.old) (M.reaches machine.new) }
    ensures still_runs { M.always_runs machine.old → M.always_runs machine.new }
{
    let Some(cost) = machine.run(args) else {
        return;
    };
    if leader.cost.is_none_or(|most| cost > most) {
        leader.args.copy_from_slice(args);
        leader.cost = Some(cost);
    }
}

// Steps to the next arguments. From the last ones it goes back to the first, and answers false.
fn advance(args: &mut [u32], widths: &[u32]) -> bool
    requires are { AreArguments widths.now args.old }
    requires bits { sum widths.now < 32 }

    ensures are { AreArguments widths.now args.new }
    ensures next { MatchBool result
        (place widths.now args.new ≡ place widths.now args.old + 1)
        (place widths.now args.old + 1 ≡ 2 ^ sum widths.now) }
{
    for i in (0..args.len()).rev() {
        if args[i] < last_value(widths[i]) {
            args[i] += 1;
            return true;
        }
        args[i] = 0;
    }
    false
}

// The greatest value of so many bits.
fn last_value(width: u32) -> u32
    requires { width < 32 }
    ensures { result + 1 ≡ 2 ^ width }
{
    (1 << width) - 1
}
