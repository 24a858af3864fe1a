use proof_text::{Kind, Line, LineRead, Multiple, read};
use std::alloc::Global;
use wx_base::NoMemory;

// What a line of a proof gives, and how much stands in it. A `^` ends a line in a carriage return.
pub fn answer(alloc: Global, line: &str) -> Result<String, NoMemory> {
    match line.split_once('^') {
        Some((front, _)) => found(alloc, format!(in alloc; "{front}\r")?.as_bytes()),
        None => found(alloc, line.as_bytes()),
    }
}

fn found(alloc: Global, line: &[u8]) -> Result<String, NoMemory> {
    Ok(match read(alloc, line)? {
        LineRead::Malformed => String::from_str(alloc, "malformed")?,
        LineRead::Unfit(kind) => format!(in alloc; "unfit {}", name_of(kind))?,
        LineRead::Fits(line) => shown(alloc, &line)?,
    })
}

fn name_of(kind: Kind) -> &'static str {
    match kind {
        Kind::Header => "header",
        Kind::Shape => "shape",
        Kind::Goal => "goal",
        Kind::Lemma => "lemma",
        Kind::Theory => "theory",
        Kind::Split => "split",
        Kind::Leaf => "leaf",
        Kind::Cut => "cut",
        Kind::End => "end",
    }
}

fn shown(alloc: Global, line: &Line) -> Result<String, NoMemory> {
    Ok(match line {
        Line::Header(_) => String::from_str(alloc, "header")?,
        Line::Shape { vars, clauses } => format!(in alloc; "{vars} variables, {clauses} clauses")?,
        Line::Goal(None) => String::from_str(alloc, "no goal")?,
        Line::Goal(Some(most)) => format!(in alloc; "at most {most}")?,
        Line::Lemma { clause, hints } => {
            format!(in alloc; "{} literals, {} hints", clause.len(), hints.len())?
        }
        Line::Theory { clause } => format!(in alloc; "{} literals", clause.len())?,
        Line::Split { var, at } => format!(in alloc; "variable {var} at {at}")?,
        Line::Leaf { parts } => {
            format!(in alloc;
                "{} parts, the first by {}",
                parts.len(),
                first_multiplier(parts.items())
            )?
        }
        Line::Cut { bound, .. } => format!(in alloc; "bound {bound}")?,
        Line::End => String::from_str(alloc, "end")?,
    })
}

fn first_multiplier(parts: &[Multiple]) -> i128 {
    match parts {
        [part, ..] => part.by,
        [] => 0,
    }
}
