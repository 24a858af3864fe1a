//! What may stand between tokens: white space and comments.

ghost use Rattle.std.specs.Prelude.{◌≡◌, ◌<◌, ◌≤◌, ◌^◌, false, length, take};
ghost use Rattle.ll_token.specs.Bytes.{line_ends};
ghost use Rattle.ll_token.specs.Reading.{gap_len};

use crate::bytes::is_space;

/// White space and comments: how many bytes they have, and how many of these end a line.
#[derive(Clone, Copy)]
pub struct Blanks {
    pub len: usize,
    pub lines: u32,
}

/// The white space and comments at the front.
#[tactic(auto, using(crate::proofs::GapLaws::gap_more, crate::proofs::GapLaws::gap_all, std::proofs::lemmas::Bool::Decides::nat_tests))]
pub fn blanks_at(bytes: &[u8]) -> Blanks
    requires { length bytes.now < 2 ^ 31 }
    ensures len { result.len ≡ gap_len false bytes.now }
    ensures bound { result.len ≤ length bytes.now }
    ensures lines { result.lines ≡ line_ends (take result.len bytes.now) }
    ensures few { result.lines ≤ result.len }
{
    let mut lines = 0;
    let mut in_comment = false;
    for (len, byte) in bytes.iter().enumerate() {
        match byte {
            b'\n' => {
                lines += 1;
                in_comment = false;
            }
            b';' => in_comment = true,
            byte if in_comment || is_space(*byte) => {}
            _ => return Blanks { len, lines },
        }
    }
    Blanks {
        len: bytes.len(),
        lines,
    }
}
