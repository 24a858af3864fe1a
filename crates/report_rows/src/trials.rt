ghost use Rattle.std.specs.Prelude.{◌≡◌, ◌<◌, ◌==◌, ◌&&◌, find, slice_index, sum, Some, IsTrue, IfOk};
ghost use Rattle.std.specs.Option.{option_map};

use std::alloc::Global;
use wcet_core::{Machine, try_all};
use wx_base::NoMemory;

// A run: its first argument, its second one and its cost.
type Run = (u32, u32, u64);

// A function of at most two parameters, by its runs. An argument that it lacks counts as 0.
#[derive(Drop)]
struct Listed {
    widths: Vec<u32>,
    runs: Vec<Run>,
    calls: u32,
}

impl Machine for Listed {
    ghost widths = { λ listed. listed.widths.items };

    ghost reaches = { λ listed args n. option_map (λ run. run.2)
        (find (λ run. (run.0 == slice_index args 0) && (run.1 == slice_index args 1))
        listed.runs.items) ≡ Some n };

    ghost always_runs = { λ _. ⊥ };

    fn run(&mut self, args: &[u32]) -> Option<u64> {
        self.calls = self.calls.saturating_add(1);
        cost_of(&self.runs, args)
    }
}

fn argument(args: &[u32], at: usize) -> u32
    ensures { result ≡ slice_index args.now at }
{
    args.get(at).copied().unwrap_or(0)
}

// The cost of the first of the runs that has these arguments.
fn cost_of(runs: &[Run], args: &[u32]) -> Option<u64>
    ensures { result ≡ option_map (λ run. run.2)
        (find (λ run. (run.0 == slice_index args.now 0) && (run.1 == slice_index args.now 1))
        runs.now) }
{
    runs.iter()
        .find(|run| run.0 == argument(args, 0) && run.1 == argument(args, 1))
        .map(|run| run.2)
}

// `WIDTH .. / FIRST SECOND COST ..`: the best arguments of a function with parameters of these widths and with these
// runs, and how often it was run.
pub fn trial(alloc: Global, call: &str) -> Result<String, NoMemory> {
    let (widths, runs) = call.split_once('/').unwrap_or((call, ""));
    let widths = numbers(alloc, widths)?;
    if !are_narrow(&widths) {
        return Ok(String::from_str(alloc, "too wide")?);
    }
    let mut listed = machine_of(alloc, &widths, runs)?;
    let best = try_all(alloc, &mut listed, &widths)?;
    let calls = listed.calls;
    Ok(match best {
        Some(best) => format!(in alloc; "{:?} {}, {calls} runs", best.args.items(), best.cost)?,
        None => format!(in alloc; "none, {calls} runs")?,
    })
}

// Whether at most two parameters have fewer than 32 bits in all.
fn are_narrow(widths: &[u32]) -> bool
    ensures { IsTrue result → sum widths.now < 32 }
{
    match widths {
        [] => true,
        [one] => *one < 32,
        [one, other] => *one < 16 && *other < 16,
        _ => false,
    }
}

fn machine_of(alloc: Global, widths: &[u32], runs: &str) -> Result<Listed, NoMemory>
    ensures { IfOk result (λ listed. listed.widths.items ≡ widths.now) }
{
    Ok(Listed {
        widths: widths.to_vec(alloc)?,
        runs: runs_of(alloc, runs)?,
        calls: 0,
    })
}

fn runs_of(alloc: Global, text: &str) -> Result<Vec<Run>, NoMemory> {
    let mut runs = Vec::new(alloc);
    for run in text.split(',') {
        if let [first, second, cost] = numbers(alloc, run)?.as_slice() {
            runs.push((*first, *second, u64::from(*cost)))?;
        }
    }
    Ok(runs)
}

fn numbers(alloc: Global, text: &str) -> Result<Vec<u32>, NoMemory> {
    let mut numbers = Vec::new(alloc);
    for word in text.split_whitespace() {
        if let Ok(number) = word.parse::<u32>() {
            numbers.push(number)?;
        }
    }
    Ok(numbers)
}
