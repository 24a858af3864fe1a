ghost use Rattle.std.specs.Prelude.{◌≡◌, ◌<◌, ℕ, Contains, IfNone, IfSome, IsTrue, slice_get, Some, length};
ghost use Rattle.std.specs.List.{position};
ghost use Rattle.std.specs.Str.{bytes_eq};
ghost use Rattle.op_table.specs.Rows.{rows_of, IsFirstAt, are_distinct};

/// A table of `N` words. No call takes memory.
#[derive(Clone, Copy, Debug)]
pub struct WordTable<const N: usize> {
    /// The rows, one word each.
    pub words: &'static [&'static [u8]],
    ghost sized: { length words.now ≡ N },
}

impl<const N: usize> WordTable<N> {
    /// The first place at which the word stands; `None` exactly where it isn't in the table.
    pub fn find(&self, word: &[u8]) -> Option<usize>
        ensures within { IfSome result (λ at. at < N) }
        ensures first { IfSome result (IsFirstAt (rows_of self.now.words.now) word.now) }
        ensures absent { IfNone result (¬ Contains (rows_of self.now.words.now) word.now) }

        // Where no two rows share a word, this undoes `word`.
        ensures inverse { IsTrue (are_distinct (rows_of self.now.words.now))
            → (at : ℕ) → slice_get (rows_of self.now.words.now) at ≡ Some word.now
            → result ≡ Some at }
    {
        place_of(self.words, word)
    }

    /// The word at a place.
    pub fn word(&self, at: usize) -> &'static [u8]
        requires { at < N }
        ensures { slice_get (rows_of self.now.words.now) at ≡ Some result.now }
    {
        self.words[at]
    }
}

fn place_of(rows: &[&[u8]], word: &[u8]) -> Option<usize>
    ensures { result ≡ position (λ row. bytes_eq row.now word.now) rows.now }
{
    rows.iter().position(|row| *row == word)
}
