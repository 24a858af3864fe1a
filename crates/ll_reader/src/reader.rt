//! A function of a file.

ghost use Rattle.std.specs.Prelude.{◌≡◌, ◌⊎◌, ◌<◌, ◌^◌, IfOk, List, ℕ, Ok, Err, Result, All, IfErr, length};
ghost use Rattle.ll_token.specs.declared.token.Token.{Token};
ghost use Rattle.ll_token.specs.Scan.{IsTokenOf};
ghost use Rattle.ll_tree.specs.declared.func.Func.{Func};
ghost use Rattle.ll_tree.specs.Formed.{IsFormed};
ghost use Rattle.ll_grammar.specs.Tokens.{seen};
ghost use Rattle.ll_grammar.specs.Header.{function};
ghost use Rattle.ll_reader.specs.declared.finder.Found.TheVariants as founds;
ghost use Rattle.ll_reader.specs.declared.fault.ReadFault.{ReadFault};
ghost use Rattle.ll_reader.specs.declared.fault.ReadFault.TheVariants as faults;
ghost use Rattle.ll_reader.specs.Functions.{LiesInFile};
ghost use Rattle.ll_reader.specs.FileSpells.{FileSpells, FileStops, IsAnswer, answer_of, FileSays, SectionSays};

use crate::fault::{ReadFault, refused};
use crate::finder::{Found, Section, find};
use ll_grammar::{Cursor, Stop, read_function};
use ll_token::{Token, tokens};
use ll_tree::Func;
use std::alloc::Global;
use wx_base::Name;

/// The function that the tokens of a text spell. The brace that closes the text stands in `closing_line`.
fn read_tokens(
    alloc: Global,
    text: &[u8],
    tokens: &[Token],
    closing_line: u32,
) -> Result<Func, ReadFault>
    requires { All (IsTokenOf text.now) tokens.now }
    ensures { IsAnswer (λ answer.
        answer ≡ answer_of closing_line (function (seen text.now 0 tokens.now))) result }
{
    let mut cursor = Cursor::new(text, tokens, 0);
    match read_function(alloc, &mut cursor) {
        Ok(func) => Ok(func),
        Err(Stop::Refused(refusal)) => {
            let token = Name::new(alloc, cursor.text())?;
            Err(refused(refusal, cursor.line(), token))
        }
        Err(Stop::RanOut) => {
            let token = Name::new(alloc, b"}")?;
            Err(ReadFault::Unexpected {
                line: closing_line,
                text: token,
            })
        }
        Err(Stop::NoMemory) => Err(ReadFault::NoMemory),
    }
}

/// The function that a part of a file spells.
fn read_section(alloc: Global, text: &[u8], section: Section) -> Result<Func, ReadFault>
    requires short { length text.now < 2 ^ 31 }
    requires within { LiesInFile text.now (founds.Closed section) }
    ensures { IsAnswer (SectionSays text.now section) result }
{
    let body = &text[section.start..section.end];
    match tokens(alloc, body, section.line) {
        Ok(Ok(tokens)) => read_tokens(alloc, body, tokens.items(), section.closing_line),
        Ok(Err(fault)) => Err(ReadFault::Token(fault)),
        Err(_) => Err(ReadFault::NoMemory),
    }
}

/// What the functions under a name spell.
fn read_found(alloc: Global, text: &[u8], found: Found) -> Result<Func, ReadFault>
    requires short { length text.now < 2 ^ 31 }
    requires within { LiesInFile text.now found }
    ensures { IsAnswer (FileSays text.now found) result }
{
    match found {
        Found::Nowhere => Err(ReadFault::NoFunction),
        Found::Twice => Err(ReadFault::TwoFunctions),
        Found::Unclosed => Err(ReadFault::NotClosed),
        Found::Closed(section) => read_section(alloc, text, section),
    }
}

/// Reads the function with a name in a file of LLVM IR.
///
/// The text of a function goes from a line that begins with `define` and a blank to the next line that begins
/// with `}`, and its name is the global name at the define line's first `@` outside of a string. All else in the
/// file is passed over, also a define line in the text of another function.
///
/// One pass over the lines, one over the text of the function for its tokens, and one over the tokens. What
/// memory it takes is linear in the text of the function.
pub fn read(alloc: Global, text: &[u8], function: &Name) -> Result<Func, ReadFault>
    requires { length text.now < 2 ^ 31 }

    // What is answered is so.
    ensures spells { IfOk result (FileSpells text.now function.now) }
    ensures stops { IfErr result (λ fault.
        (fault ≡ faults.NoMemory) ⊎ FileStops text.now function.now fault) }

    ensures formed { IfOk result IsFormed }

    // What is so is answered.
    ensures only { (func : Func) → FileSpells text.now function.now func
        → (result ≡ Ok func) ⊎ (result ≡ Err faults.NoMemory) }
    ensures only_fault { (fault : ReadFault) → FileStops text.now function.now fault
        → (result ≡ Err fault) ⊎ (result ≡ Err faults.NoMemory) }
{
    match find(alloc, text, function) {
        Ok(found) => read_found(alloc, text, found),
        Err(_) => Err(ReadFault::NoMemory),
    }
}

/// A file spells one function under a name, which is formed, or stops with one fault.
pub fn one_answer()
    ensures tree { (text name : List ℕ) (one other : Func)
        → FileSpells text name one → FileSpells text name other → one ≡ other }
    ensures fault { (text name : List ℕ) (one other : ReadFault)
        → FileStops text name one → FileStops text name other → one ≡ other }
    ensures not_both { (text name : List ℕ) (func : Func) (fault : ReadFault)
        → FileSpells text name func → FileStops text name fault → ⊥ }
    ensures formed { (text name : List ℕ) (func : Func)
        → FileSpells text name func → IsFormed func }
{}
