//! The laws.

ghost use Rattle.std.specs.Prelude.{◌<◌, ◌^◌, ℕ, List, length};
ghost use Rattle.ll_tree.specs.declared.func.Func.{Func};
ghost use Rattle.ll_tree.specs.Text.{canonical};
ghost use Rattle.canonical_text.specs.Named.{AreBytes};
ghost use Rattle.ll_reader.specs.FileSpells.{FileSpells};

/// Where a file of bytes spells a function under a name, the function's canonical text spells it under its
/// own name.
pub fn canonical_file_is_read_back()
    ensures { (text name : List ℕ) (func : Func) → AreBytes text → length text < 2 ^ 64
        → FileSpells text name func → FileSpells (canonical func) func.name func }
{}
