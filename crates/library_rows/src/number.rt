use std::alloc::Global;
use wx_base::NoMemory;
use wx_num::{Excess, Num};

// What a call on two numbers gives.
pub fn answer(alloc: Global, call: &str) -> Result<String, NoMemory> {
    let mut words = call.split_whitespace();
    let (Some(name), Some(x), Some(y)) = (words.next(), words.next(), words.next()) else {
        return Ok(String::from_str(alloc, "no call")?);
    };
    if name == "gcd" {
        return gcd_of(alloc, x, y);
    }
    match (x.parse::<i128>(), y.parse::<i128>()) {
        (Ok(x), Ok(y)) => signed(alloc, name, x, y),
        _ => Ok(String::from_str(alloc, "no number")?),
    }
}

fn gcd_of(alloc: Global, x: &str, y: &str) -> Result<String, NoMemory> {
    match (x.parse::<u128>(), y.parse::<u128>()) {
        (Ok(x), Ok(y)) => Ok(format!(in alloc; "{}", Num::gcd(x, y))?),
        _ => Ok(String::from_str(alloc, "no number")?),
    }
}

fn signed(alloc: Global, name: &str, x: i128, y: i128) -> Result<String, NoMemory> {
    match name {
        "plus" => shown(alloc, Num::add(x, y)),
        "minus" => shown(alloc, Num::sub(x, y)),
        "times" => shown(alloc, Num::mul(x, y)),
        "floor" if y > 0 => shown(alloc, Ok(Num::floor_div(x, y))),
        _ => Ok(String::from_str(alloc, "no call")?),
    }
}

fn shown(alloc: Global, found: Result<i128, Excess>) -> Result<String, NoMemory> {
    Ok(match found {
        Ok(number) => format!(in alloc; "{number}")?,
        Err(excess) => format!(in alloc; "{excess}")?,
    })
}
