//! The tables, each a function's value: a table is two words of memory, and its rows are static.

ghost use Rattle.std.specs.Prelude.{◌≡◌, IsTrue};
ghost use Rattle.op_table.specs.Rows.{rows_of, are_distinct};
ghost use Rattle.op_table.specs.Words as words;

use crate::WordTable;

/// Does nothing: to call it is to have proved that no two rows share a word.
fn check_distinct<const N: usize>(_table: &WordTable<N>)
    requires { IsTrue (are_distinct (rows_of _table.now.words.now)) }
{}

/// A table of these words, of which no two are the same.
macro_rules! word_table {
    ($($word:literal),+ $(,)?) => {{
        let table = WordTable { words: &[$($word),+] };
        check_distinct(&table);
        table
    }};
}

/// The words that may stand between `define` and the type of a function's result (LLVM Language
/// Reference, "Functions"): linkage, preemption, visibility, DLL storage, calling convention, and
/// attributes of the result.
pub fn header_words() -> WordTable<22>
    ensures rows { rows_of result.words.now ≡ words.header }
    ensures distinct { IsTrue (are_distinct (rows_of result.words.now)) }
{
    word_table![
        b"private",
        b"internal",
        b"available_externally",
        b"linkonce",
        b"weak",
        b"linkonce_odr",
        b"weak_odr",
        b"external",
        b"dso_local",
        b"dso_preemptable",
        b"default",
        b"hidden",
        b"protected",
        b"dllimport",
        b"dllexport",
        b"ccc",
        b"fastcc",
        b"coldcc",
        b"zeroext",
        b"signext",
        b"inreg",
        b"noundef",
    ]
}

/// The words that may stand behind a parameter's type ("Parameter Attributes").
pub fn attribute_words() -> WordTable<4>
    ensures rows { rows_of result.words.now ≡ words.attribute }
    ensures distinct { IsTrue (are_distinct (rows_of result.words.now)) }
{
    word_table![b"noundef", b"zeroext", b"signext", b"inreg"]
}

/// The words of the instructions with a result, but for calls ("Instruction Reference").
pub fn opcode_words() -> WordTable<19>
    ensures rows { rows_of result.words.now ≡ words.opcode }
    ensures distinct { IsTrue (are_distinct (rows_of result.words.now)) }
{
    word_table![
        b"phi", b"add", b"sub", b"mul", b"shl", b"lshr", b"ashr", b"and", b"or", b"xor", b"udiv",
        b"sdiv", b"urem", b"srem", b"icmp", b"zext", b"sext", b"trunc", b"select",
    ]
}

/// The words of the instructions that end a block ("Terminator Instructions").
pub fn terminator_words() -> WordTable<4>
    ensures rows { rows_of result.words.now ≡ words.terminator }
    ensures distinct { IsTrue (are_distinct (rows_of result.words.now)) }
{
    word_table![b"ret", b"unreachable", b"br", b"switch"]
}

/// The flags of instructions ("Binary Operations", "Bitwise Binary Operations", "Conversion
/// Operations", "icmp Instruction").
pub fn flag_words() -> WordTable<6>
    ensures rows { rows_of result.words.now ≡ words.flag }
    ensures distinct { IsTrue (are_distinct (rows_of result.words.now)) }
{
    word_table![b"nuw", b"nsw", b"exact", b"nneg", b"samesign", b"disjoint"]
}

/// The conditions of `icmp` ("icmp Instruction").
pub fn predicate_words() -> WordTable<10>
    ensures rows { rows_of result.words.now ≡ words.predicate }
    ensures distinct { IsTrue (are_distinct (rows_of result.words.now)) }
{
    word_table![
        b"eq", b"ne", b"ugt", b"uge", b"ult", b"ule", b"sgt", b"sge", b"slt", b"sle"
    ]
}

/// The words that begin a call ("call Instruction"), but for `musttail`.
pub fn call_words() -> WordTable<3>
    ensures rows { rows_of result.words.now ≡ words.call }
    ensures distinct { IsTrue (are_distinct (rows_of result.words.now)) }
{
    word_table![b"call", b"tail", b"notail"]
}

/// The intrinsic functions with a result, each without its last `.` and type ("Standard C/C++ Library
/// Intrinsics").
pub fn valued_call_names() -> WordTable<5>
    ensures rows { rows_of result.words.now ≡ words.valued_call }
    ensures distinct { IsTrue (are_distinct (rows_of result.words.now)) }
{
    word_table![
        b"llvm.smin",
        b"llvm.smax",
        b"llvm.umin",
        b"llvm.umax",
        b"llvm.abs"
    ]
}

/// The intrinsic functions without a result ("llvm.assume Intrinsic").
pub fn void_call_names() -> WordTable<1>
    ensures rows { rows_of result.words.now ≡ words.void_call }
    ensures distinct { IsTrue (are_distinct (rows_of result.words.now)) }
{
    word_table![b"llvm.assume"]
}
