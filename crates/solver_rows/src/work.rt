use mix_system::{Tally, Work};
use std::alloc::Global;
use wx_base::NoMemory;

// `tally BUDGET WORK ..`: whether each unit is counted, and then the counts.
pub fn answer(alloc: Global, call: &str) -> Result<String, NoMemory> {
    let (budget, words) = call.split_once(' ').unwrap_or((call, ""));
    let mut tally = Tally::new(budget.parse::<u64>().unwrap_or(0));
    let mut line = String::new(alloc);
    for word in words.split_whitespace() {
        if let Some(work) = work_of(word) {
            line.push_str(if tally.tick(work) {
                "counted, "
            } else {
                "spent, "
            })?;
        }
    }
    line.push_str(format!(in alloc; "{tally:?}")?.as_str())?;
    Ok(line)
}

fn work_of(word: &str) -> Option<Work> {
    match word {
        "decision" => Some(Work::Decision),
        "propagation" => Some(Work::Propagation),
        "conflict" => Some(Work::Conflict),
        "split" => Some(Work::Split),
        "check" => Some(Work::Check),
        _ => None,
    }
}
