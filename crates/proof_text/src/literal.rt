ghost use Rattle.std.specs.Prelude.{◌≡◌, ◌≤◌, length};
ghost use Rattle.std.specs.List.{prefix_len};
ghost use Rattle.std.specs.Option.{option_map};
ghost use Rattle.proof_text.specs.Literal.{is_term_byte, term_of, var_of, index_of, side_of, literal_of};

use crate::number::{number, unsigned};
use crate::reading::{Reading, both};
use mix_system::{Lit, Side, Term};

// Variables and rows have numbers below this.
const NUMBERS: u128 = 1 << 32;

// The number of a variable or a row.
fn index_of(digits: &[u8]) -> Reading<u32>
    ensures { result ≡ index_of digits.now }
{
    match unsigned(digits, NUMBERS) {
        Reading::Fits(index) => Reading::Fits(index as u32),
        Reading::Unfit => Reading::Unfit,
        Reading::Malformed => Reading::Malformed,
    }
}

// The number of a variable: `v`, and digits.
pub(crate) fn var_of(word: &[u8]) -> Reading<u32>
    ensures { result ≡ var_of word.now }
{
    match word {
        [b'v', digits @ ..] => index_of(digits),
        _ => Reading::Malformed,
    }
}

// A term: `v` or `r`, and digits.
pub(crate) fn term_of(word: &[u8]) -> Reading<Term>
    ensures { result ≡ term_of word.now }
{
    match word {
        [b'r', digits @ ..] => match index_of(digits) {
            Reading::Fits(row) => Reading::Fits(Term::Row(row)),
            Reading::Unfit => Reading::Unfit,
            Reading::Malformed => Reading::Malformed,
        },
        _ => match var_of(word) {
            Reading::Fits(var) => Reading::Fits(Term::Var(var)),
            Reading::Unfit => Reading::Unfit,
            Reading::Malformed => Reading::Malformed,
        },
    }
}

// How many bytes stand before the first `<` or `>`.
fn term_len(word: &[u8]) -> usize
    ensures len { result ≡ prefix_len is_term_byte word.now }
    ensures within { result ≤ length word.now }
{
    word.iter()
        .take_while(|byte| **byte != b'<' && **byte != b'>')
        .count()
}

// The side that `<=` or `>=` says, and what follows it.
fn side_of(bytes: &[u8]) -> Option<(Side, &[u8])>
    ensures { option_map (λ side. (side.0, side.1.now)) result ≡ side_of bytes.now }
{
    match bytes {
        [b'<', b'=', bound @ ..] => Some((Side::Le, bound)),
        [b'>', b'=', bound @ ..] => Some((Side::Ge, bound)),
        _ => None,
    }
}

// A literal: a term, `<=` or `>=`, and a number.
#[tactic(auto, unfolding(crate::specs::Literal::literal_of))]
pub(crate) fn literal_of(word: &[u8]) -> Reading<Lit>
    ensures { result ≡ literal_of word.now }
{
    let (term, rest) = word.split_at(term_len(word));
    let Some((side, bound)) = side_of(rest) else {
        return Reading::Malformed;
    };
    match both(term_of(term), number(bound)) {
        Reading::Fits((term, bound)) => Reading::Fits(Lit { term, side, bound }),
        Reading::Unfit => Reading::Unfit,
        Reading::Malformed => Reading::Malformed,
    }
}
