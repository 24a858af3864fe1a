ghost use Rattle.std.specs.Prelude.{◌≡◌, ◌≤◌, ◌++◌, ◌∷◌, ℕ, List, length, drop, IfSome, MatchOption};
ghost use Rattle.std.specs.List.{prefix_len};
ghost use Rattle.ll_token.specs.Scan.{IsLocalName};
ghost use Rattle.cost_table.specs.Names.{begins_quoted, no_quote, no_space, name_len};

// Whether a name in quotes stands at the front.
fn begins_quoted(line: &[u8]) -> bool
    ensures { result ≡ begins_quoted line.now }
{
    matches!(line, [b'%', b'"', ..])
}

// How many bytes stand between the quotes of a name.
fn inner_len(line: &[u8]) -> usize
    ensures count { result ≡ prefix_len no_quote (drop 2 line.now) }
    ensures within { result ≤ length line.now }
{
    line.iter()
        .skip(2)
        .take_while(|byte| **byte != b'"')
        .count()
}

// How many bytes stand before the first space.
fn run_len(line: &[u8]) -> usize
    ensures { result ≡ prefix_len no_space line.now }
{
    line.iter().take_while(|byte| **byte != b' ').count()
}

// How many bytes a local name at the front has: those up to its second quote, or to the first space.
fn name_len(line: &[u8]) -> usize
    ensures { result ≡ name_len line.now }
{
    if begins_quoted(line) {
        return inner_len(line) + 3;
    }
    run_len(line)
}

/// The local name at the front and what stands behind it and one space. Where there is no such name, what is
/// given is free.
pub fn split_name(line: &[u8]) -> Option<(&[u8], &[u8])>
    ensures parts { IfSome result (λ parts. line.now ≡ parts.0.now ++ 32 ∷ parts.1.now) }
    ensures only { (written rest name : List ℕ) → line.now ≡ written ++ 32 ∷ rest
        → IsLocalName written name
        → MatchOption result ⊥ (λ parts. (parts.0.now ≡ written) × (parts.1.now ≡ rest)) }
{
    let end = name_len(line);
    if end >= line.len() || line[end] != b' ' {
        return None;
    }
    let (name, rest) = line.split_at(end);
    let (_, rest) = rest.split_at(1);
    Some((name, rest))
}
