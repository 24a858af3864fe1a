ghost use Rattle.proof_checker.specs.Laws.{CheckedTextsBound, ValidProofsPass, ValidTextsHaveAProof, TextsHaveOneVerdict};

/// Every point that fits a system meets the goal of a text that is valid over it.
pub fn checked_texts_bound()
    ensures { CheckedTextsBound }
{}

/// A text that spells a valid proof, made for the system, is valid with the proof's goal.
pub fn valid_proofs_pass()
    ensures { ValidProofsPass }
{}

/// A text that is valid spells a valid proof with its goal, made for the system.
pub fn valid_texts_have_a_proof()
    ensures { ValidTextsHaveAProof }
{}

/// No text has two verdicts.
pub fn texts_have_one_verdict()
    ensures { TextsHaveOneVerdict }
{}
