//! How a name is written (LLVM Language Reference, "Identifiers").

ghost use Rattle.std.specs.Prelude.{◌≡◌, ◌<◌, ◌∷◌, ◌++◌, [], OnOk, OnErr};
ghost use Rattle.std.specs.List.{flat_map, list_all};
ghost use Rattle.ll_token.specs.Bytes.{is_run_byte};
ghost use Rattle.ll_tree.specs.Naming.{escaped, hex_digit, is_plain, is_run, name_text};

use wx_base::NoMemory;

/// Adds a name to a text, as it stands behind `%` or `@` or before a `:`: a run of letters, digits and
/// `-`, `$`, `.`, `_` as it is, and any other name between quotes.
#[tactic(auto, unfolding(crate::specs::Naming::name_text))]
pub fn push_name(text: &mut Vec<u8>, name: &[u8]) -> Result<(), NoMemory>
    ensures { OnOk result (text.new.items ≡ text.old.items ++ name_text name.now) }
{
    if is_run(name) {
        push(text, name)
    } else {
        push_quoted(text, name)
    }
}

/// Adds bytes to a text.
pub(crate) fn push(text: &mut Vec<u8>, more: &[u8]) -> Result<(), NoMemory>
    ensures { OnOk result (text.new.items ≡ text.old.items ++ more.now) }
{
    text.extend_from_slice(more)?;
    Ok(())
}

// Whether a name needs no quotes.
fn is_run(name: &[u8]) -> bool
    ensures { result ≡ is_run name.now }
{
    !name.is_empty() && are_run_bytes(name)
}

fn are_run_bytes(name: &[u8]) -> bool
    ensures { result ≡ list_all is_run_byte name.now }
{
    name.iter().all(|byte| is_run_byte(*byte))
}

fn is_run_byte(byte: u8) -> bool
    ensures { result ≡ is_run_byte byte }
{
    byte.is_ascii_alphanumeric() || matches!(byte, b'-' | b'$' | b'.' | b'_')
}

fn push_quoted(text: &mut Vec<u8>, name: &[u8]) -> Result<(), NoMemory>
    ensures { OnOk result (text.new.items ≡ text.old.items
        ++ 34 ∷ (flat_map escaped name.now ++ 34 ∷ [])) }
{
    push(text, b"\"")?;
    push_all_escaped(text, name)?;
    push(text, b"\"")
}

fn push_all_escaped(text: &mut Vec<u8>, name: &[u8]) -> Result<(), NoMemory>
    ensures { OnOk result (text.new.items ≡ text.old.items ++ flat_map escaped name.now) }
{
    for byte in name {
        push_escaped(text, *byte)?;
    }
    Ok(())
}

#[tactic(auto, unfolding(crate::specs::Naming::escaped))]
fn push_escaped(text: &mut Vec<u8>, byte: u8) -> Result<(), NoMemory>
    ensures { OnOk result (text.new.items ≡ text.old.items ++ escaped byte) }
{
    if is_plain(byte) {
        push(text, &[byte])
    } else {
        push(text, &[b'\\', hex_digit(byte / 16), hex_digit(byte % 16)])
    }
}

// Whether a byte stands for itself between quotes.
fn is_plain(byte: u8) -> bool
    ensures { result ≡ is_plain byte }
{
    matches!(byte, b' '..=b'~') && byte != b'"' && byte != b'\\'
}

fn hex_digit(digit: u8) -> u8
    requires { digit < 16 }
    ensures { result ≡ hex_digit digit }
{
    if digit < 10 {
        b'0' + digit
    } else {
        b'A' + (digit - 10)
    }
}
