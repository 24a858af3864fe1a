use flow_graph::Edge;
use std::alloc::Global;
use wx_base::NoMemory;

// A number of a row.
pub fn number(word: &str) -> u32 {
    word.parse::<u32>().unwrap_or(0)
}

// Edges such as `0-1 1-2`.
pub fn edges_of(alloc: Global, text: &str) -> Result<Vec<Edge>, NoMemory> {
    let mut edges = Vec::new(alloc);
    for word in text.split_whitespace() {
        let (from, to) = word.split_once('-').unwrap_or((word, ""));
        edges.push(Edge {
            from: number(from),
            to: number(to),
        })?;
    }
    Ok(edges)
}

pub fn shown(alloc: Global, edges: &[Edge]) -> Result<String, NoMemory> {
    let mut line = String::new(alloc);
    for edge in edges {
        line.push_str(format!(in alloc; " {}-{}", edge.from, edge.to)?.as_str())?;
    }
    Ok(line)
}

pub fn joined(alloc: Global, numbers: &[u32]) -> Result<String, NoMemory> {
    let mut line = String::new(alloc);
    for number in numbers {
        line.push_str(format!(in alloc; " {number}")?.as_str())?;
    }
    Ok(line)
}
