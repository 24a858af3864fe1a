//! The bytes of LLVM text, by the part that they play in it.

ghost use Rattle.std.specs.Prelude.{◌≡◌, ◌==◌, ◌<◌, ◌≤◌, ◌-◌, length, take, drop};
ghost use Rattle.std.specs.List.{list_all, prefix_len};
ghost use Rattle.std.specs.Char.{is_ascii_digit};
ghost use Rattle.ll_token.specs.Bytes as text;

/// Whether the byte is space, tab, CR or LF.
pub fn is_space(byte: u8) -> bool
    ensures { result ≡ text.is_space byte }
{
    matches!(byte, b' ' | b'\t' | b'\r' | b'\n')
}

/// Whether the byte is `-`, `$`, `.`, `_`, a letter or a digit.
pub fn is_run_byte(byte: u8) -> bool
    ensures { result ≡ text.is_run_byte byte }
{
    byte.is_ascii_alphanumeric() || matches!(byte, b'-' | b'$' | b'.' | b'_')
}

/// Whether the byte is a token by itself.
pub fn is_mark(byte: u8) -> bool
    ensures { result ≡ text.is_mark byte }
{
    b"(){}[],=*<>:|".contains(&byte)
}

/// How many bytes the run at the front has; 0 where there is none.
pub fn run_len(bytes: &[u8]) -> usize
    ensures len { result ≡ prefix_len text.is_run_byte bytes.now }
    ensures bound { result ≤ length bytes.now }
{
    bytes.iter().take_while(|byte| is_run_byte(**byte)).count()
}

/// How many bytes stand before the first `"` or LF.
pub fn inner_len(bytes: &[u8]) -> usize
    ensures len { result ≡ prefix_len text.is_inner bytes.now }
    ensures bound { result ≤ length bytes.now }
{
    bytes
        .iter()
        .take_while(|byte| **byte != b'"' && **byte != b'\n')
        .count()
}

/// Whether the first byte is this one.
pub fn begins_with(bytes: &[u8], byte: u8) -> bool
    ensures { result ≡ text.begins (λ first. first == byte) bytes.now }
{
    match bytes {
        [first, ..] => *first == byte,
        [] => false,
    }
}

/// The bytes behind the first.
pub fn without_first(bytes: &[u8]) -> &[u8]
    requires { 0 < length bytes.now }
    ensures { result.now ≡ drop 1 bytes.now }
{
    let (_, rest) = bytes.split_at(1);
    rest
}

/// The bytes before the last.
pub fn without_last(bytes: &[u8]) -> &[u8]
    requires { 0 < length bytes.now }
    ensures { result.now ≡ take (length bytes.now - 1) bytes.now }
{
    let (front, _) = bytes.split_at(bytes.len() - 1);
    front
}

/// Whether the run is an optional `-` and digits, one at least.
pub fn is_number(run: &[u8]) -> bool
    ensures { result ≡ text.is_number run.now }
{
    match run {
        [b'-', digits @ ..] => are_digits(digits),
        digits => are_digits(digits),
    }
}

fn are_digits(bytes: &[u8]) -> bool
    ensures { result ≡ text.are_digits bytes.now }
{
    !bytes.is_empty() && all_digits(bytes)
}

fn all_digits(bytes: &[u8]) -> bool
    ensures { result ≡ list_all is_ascii_digit bytes.now }
{
    bytes.iter().all(|byte| byte.is_ascii_digit())
}
