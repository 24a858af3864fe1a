ghost use Rattle.std.specs.Prelude.{◌≡◌, ◌<◌, ◌≤◌, [], ◌∷◌, length, MatchOption};
ghost use Rattle.std.specs.Option.{option_map};
ghost use Rattle.proof_text.specs.Words.{word_len, words, words_after, only_word, two_words};

// How many bytes stand before the first space.
pub(crate) fn word_len(bytes: &[u8]) -> usize
    ensures len { result ≡ word_len bytes.now }
    ensures within { result ≤ length bytes.now }
{
    bytes.iter().take_while(|byte| **byte != b' ').count()
}

// The first word of some bytes, and what follows it: nothing, or a space and further words.
#[tactic(auto, using(crate::proofs::WordLaws::words_first))]
pub(crate) fn first_word(bytes: &[u8]) -> (&[u8], &[u8])
    ensures words { words bytes.now ≡ result.0.now ∷ words_after result.1.now }
    ensures within { length result.1.now ≤ length bytes.now }
{
    bytes.split_at(word_len(bytes))
}

// The word behind a space, and what follows it.
pub(crate) fn next_word(rest: &[u8]) -> Option<(&[u8], &[u8])>
    ensures { MatchOption result (words_after rest.now ≡ [])
        (λ next. (words_after rest.now ≡ next.0.now ∷ words_after next.1.now)
        × (length next.1.now < length rest.now)) }
{
    match rest {
        [] => None,
        [_, bytes @ ..] => Some(first_word(bytes)),
    }
}

// The one word that is left.
pub(crate) fn only_word(rest: &[u8]) -> Option<&[u8]>
    ensures { option_map (λ word. word.now) result ≡ only_word (words_after rest.now) }
{
    let (word, rest) = next_word(rest)?;
    match next_word(rest) {
        None => Some(word),
        Some(_) => None,
    }
}

// The two words that are left.
pub(crate) fn two_words(rest: &[u8]) -> Option<(&[u8], &[u8])>
    ensures { option_map (λ words. (words.0.now, words.1.now)) result
        ≡ two_words (words_after rest.now) }
{
    let (first, rest) = next_word(rest)?;
    let second = only_word(rest)?;
    Some((first, second))
}
