//! The laws.

ghost use Rattle.std.specs.Prelude.{◌<◌, ◌^◌, ℕ, List, [], length};
ghost use Rattle.ll_token.specs.declared.token.Token.{Token};
ghost use Rattle.ll_token.specs.Scan.{AreTokens};
ghost use Rattle.ll_tree.specs.declared.func.Func.{Func};
ghost use Rattle.ll_tree.specs.Pieces.{written};
ghost use Rattle.ll_tree.specs.Text.{canonical, pieces_of};
ghost use Rattle.ll_grammar.specs.Tokens.{Tok, seen};
ghost use Rattle.ll_grammar.specs.Spells.{SpellsFunction};
ghost use Rattle.canonical_text.specs.Shown.{ShowAll, open_pieces};
ghost use Rattle.canonical_text.specs.Named.{AreBytes, AreNamed, AreReal};

/// The tokens of the canonical text of a tree that some tokens spell are tokens that spell it.
pub fn shown_tokens_spell_the_tree()
    ensures { (func : Func) (given shown : List Tok) → SpellsFunction func given
        → ShowAll (open_pieces func) shown [] → SpellsFunction func shown }
{}

/// The canonical text of a tree that some tokens spell has tokens, and what the grammar sees of them are the
/// tokens of its pieces; also without the brace that closes it. Each name has to have a byte.
pub fn canonical_text_has_its_tokens()
    ensures whole { (func : Func) (given : List Tok) (first_line before : ℕ)
        → SpellsFunction func given → AreNamed (pieces_of func)
        → (tokens : List Token) × AreTokens (canonical func) first_line tokens
        × ShowAll (pieces_of func) (seen (canonical func) before tokens) [] }
    ensures unclosed { (func : Func) (given : List Tok) (first_line before : ℕ)
        → SpellsFunction func given → AreNamed (open_pieces func)
        → (tokens : List Token) × AreTokens (written (open_pieces func)) first_line tokens
        × ShowAll (open_pieces func) (seen (written (open_pieces func)) before tokens) [] }
{}

/// Each name of a tree that the tokens of a text spell has a byte.
pub fn names_have_a_byte()
    ensures { (func : Func) (given : List Tok) → length given < 2 ^ 64 → AreReal given
        → SpellsFunction func given → AreNamed (open_pieces func) }
{}

/// So the canonical text without the brace that closes it has tokens, and they spell the tree.
pub fn canonical_text_spells_its_tree()
    ensures { (func : Func) (given : List Tok) (first_line before : ℕ)
        → SpellsFunction func given → AreNamed (open_pieces func)
        → (tokens : List Token) × AreTokens (written (open_pieces func)) first_line tokens
        × SpellsFunction func (seen (written (open_pieces func)) before tokens) }
{}

/// The canonical text of a tree that the tokens of a text spell has tokens that spell it too. The brace that
/// closes it stands behind both texts.
pub fn canonical_text_is_read_back()
    ensures { (text : List ℕ) (line again_line before again_before : ℕ)
        (tokens : List Token) (func : Func)
        → AreBytes text → length text < 2 ^ 64
        → AreTokens text line tokens → SpellsFunction func (seen text before tokens)
        → (again : List Token) × AreTokens (written (open_pieces func)) again_line again
        × SpellsFunction func (seen (written (open_pieces func)) again_before again) }
{}
