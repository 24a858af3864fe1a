//! The portions of a function, with what a path spends in each at most.

ghost use Rattle.sound_costs.specs.Costs.{AreCostsOf};

use crate::texts::{MOST, no_row, plain};
use ll_links::Position;
use ll_reader::read;
use ll_verifier::{Sound, verify};
use portion_cuts::{Portion, longest, portions};
use sound_costs::{Costs, read_costs};
use std::alloc::Global;
use wx_base::{Name, NoMemory};

/// `portions FUNCTION|TABLE`: each portion of the function `f` with its longest, and that of all
/// positions.
pub fn portions_row(alloc: Global, call: &str) -> Result<String, NoMemory> {
    let (text, table) = call.split_once('|').unwrap_or((call, ""));
    let text = plain(alloc, text)?;
    let table = plain(alloc, table)?;
    if text.len() > MOST || table.len() > MOST {
        return no_row(alloc);
    }
    let Ok(func) = read(alloc, &text, &Name::new(alloc, b"f")?) else {
        return Ok(String::from_str(alloc, "not read")?);
    };
    match verify(alloc, func) {
        Ok(sound) => costed(alloc, &sound, &table),
        Err(_) => Ok(String::from_str(alloc, "not kept")?),
    }
}

fn costed(alloc: Global, sound: &Sound, table: &[u8]) -> Result<String, NoMemory> {
    if table.len() > MOST {
        return no_row(alloc);
    }
    match read_costs(alloc, table, sound) {
        Ok(costs) => portions_text(alloc, sound, &costs),
        Err(_) => Ok(String::from_str(alloc, "no table")?),
    }
}

fn portions_text(alloc: Global, sound: &Sound, costs: &Costs) -> Result<String, NoMemory>
    requires { AreCostsOf sound.now.func costs.now }
{
    let mut line = String::new(alloc);
    for portion in portions(alloc, sound)?.as_slice() {
        line.push_str(portion_text(alloc, sound, costs, *portion)?.as_str())?;
    }
    let all = Portion {
        from: Position(0),
        to: Position(256),
    };
    let most = longest(alloc, sound, costs, all)?;
    line.push_str(format!(in alloc; "all {most}")?.as_str())?;
    Ok(line)
}

fn portion_text(
    alloc: Global,
    sound: &Sound,
    costs: &Costs,
    portion: Portion,
) -> Result<String, NoMemory>
    requires { AreCostsOf sound.now.func costs.now }
{
    let most = longest(alloc, sound, costs, portion)?;
    let (from, to) = (portion.from.0, portion.to.0);
    Ok(format!(in alloc; "{from}..{to} {most}, ")?)
}
