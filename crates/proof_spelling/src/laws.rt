ghost use Rattle.proof_spelling.specs.Laws.{CompleteProofsHaveAText, ProofsHaveOneText, TextsSpellOneProof, FaultyTextsSpellNothing, TextsHaveOneFault};

/// A proof that has the form of one, and whose numbers are those of its types, has a text.
pub fn complete_proofs_have_a_text()
    ensures { CompleteProofsHaveAText }
{}

/// A proof has no text but that one.
pub fn proofs_have_one_text()
    ensures { ProofsHaveOneText }
{}

/// No text spells two proofs.
pub fn texts_spell_one_proof()
    ensures { TextsSpellOneProof }
{}

/// A text with a fault spells no proof.
pub fn faulty_texts_spell_nothing()
    ensures { FaultyTextsSpellNothing }
{}

/// No text has two faults.
pub fn texts_have_one_fault()
    ensures { TextsHaveOneFault }
{}
