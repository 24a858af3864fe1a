//! Tables of names, and what is found by labels. In a list of names a `,` stands before each.

use crate::texts::plain;
use crate::told::no_row;
use crate::verdict::MOST;
use ll_edges::graph_of;
use ll_links::block_of;
use ll_reader::read;
use ll_tree::Func;
use name_table::{NameTable, first_repeat, table_of};
use std::alloc::Global;
use wx_base::{Name, NoMemory};

/// `repeat NAMES`: the place of the first that stood before, or how many there are.
pub fn repeat(alloc: Global, call: &str) -> Result<String, NoMemory> {
    let mut names = Vec::new(alloc);
    for name in call.split(',').skip(1) {
        names.push(name.as_bytes())?;
    }
    match first_repeat(alloc, &names)? {
        Some(place) => Ok(format!(in alloc; "place {place}")?),
        None => Ok(format!(in alloc; "{} names", table_of(alloc, &names)?.len())?),
    }
}

fn filled<'a>(alloc: Global, names: &'a str) -> Result<NameTable<'a>, NoMemory> {
    let mut table = NameTable::new(alloc);
    for name in names.split(',').skip(1) {
        table.add(name.as_bytes())?;
    }
    Ok(table)
}

/// `find NAME NAMES`: the place of a name in a table of these, and how many that has.
pub fn find(alloc: Global, call: &str) -> Result<String, NoMemory> {
    let (name, names) = call.split_once(' ').unwrap_or((call, ""));
    let table = filled(alloc, names)?;
    Ok(format!(in alloc; "{:?} of {}", table.find(name.as_bytes()), table.len())?)
}

/// `block LABEL LABELS`: the number of the block with a label.
pub fn block(alloc: Global, call: &str) -> Result<String, NoMemory> {
    let (label, labels) = call.split_once(' ').unwrap_or((call, ""));
    let table = filled(alloc, labels)?;
    if table.len() > MOST {
        return no_row(alloc);
    }
    let label = Name::new(alloc, label.as_bytes())?;
    Ok(format!(in alloc; "{:?}", block_of(&table, &label))?)
}

/// `edges LABELS FUNCTION`: its edges to blocks with these labels, by their places among them.
pub fn edges(alloc: Global, call: &str) -> Result<String, NoMemory> {
    let (labels, text) = call.split_once(' ').unwrap_or((call, ""));
    let text = plain(alloc, text)?;
    if text.len() > MOST {
        return no_row(alloc);
    }
    match read(alloc, &text, &Name::new(alloc, b"f")?) {
        Ok(func) => edges_between(alloc, &func, &filled(alloc, labels)?),
        Err(_) => no_row(alloc),
    }
}

fn edges_between(alloc: Global, func: &Func, labels: &NameTable) -> Result<String, NoMemory> {
    if func.blocks.len() > MOST {
        return no_row(alloc);
    }
    if labels.len() > MOST {
        return no_row(alloc);
    }
    let mut line = String::from_str(alloc, "edges")?;
    for edge in graph_of(alloc, func, labels)?.items() {
        line.push_str(format!(in alloc; " {}-{}", edge.from, edge.to)?.as_str())?;
    }
    Ok(line)
}
