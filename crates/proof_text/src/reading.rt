ghost use Rattle.std.specs.Prelude.{◌≡◌, [], IfOk, MatchBool};
ghost use Rattle.proof_text.specs.declared.reading.Reading.TheVariants as give;
ghost use Rattle.proof_text.specs.Reading.{both, gathered, joined, single};

use std::alloc::Global;
use wx_base::{NoMemory, Sequence};

/// What a part of a line gives.
#[derive(Clone, Copy, Debug, Drop)]
pub enum Reading<T> {
    /// It hasn't the form of such a part.
    Malformed,
    /// It has the form, but a number is out of its range.
    Unfit,
    /// It has the form, and its numbers are in their ranges.
    Fits(T),
}

/// What two parts give together: the form of both is looked at before any number.
pub(crate) fn both<A: Drop, B: Drop>(first: Reading<A>, second: Reading<B>) -> Reading<(A, B)>
    ensures { result ≡ both first second }
{
    match (first, second) {
        (Reading::Fits(first), Reading::Fits(second)) => Reading::Fits((first, second)),
        (Reading::Malformed, _) | (_, Reading::Malformed) => Reading::Malformed,
        _ => Reading::Unfit,
    }
}

/// Items of one kind, read one after the other.
#[derive(Drop)]
pub(crate) struct Gathered<T> {
    items: Sequence<T>,
    // Whether all of them fit.
    fits: bool,
}

impl<T: Drop> Gathered<T> {
    pub(crate) fn new(alloc: Global) -> Gathered<T>
        ensures { gathered result.fits result.items ≡ give.Fits [] }
    {
        Gathered {
            items: Sequence::new(alloc),
            fits: true,
        }
    }

    // Takes one item more, and answers false where it is malformed.
    pub(crate) fn put(&mut self, item: Reading<T>) -> Result<bool, NoMemory>
        ensures { IfOk result (λ goes. MatchBool goes
            (gathered self.new.fits self.new.items
            ≡ joined (gathered self.old.fits self.old.items) (single item))
            (item ≡ give.Malformed)) }
    {
        match item {
            Reading::Fits(item) => {
                self.items.push(item)?;
                Ok(true)
            }
            Reading::Unfit => {
                self.fits = false;
                Ok(true)
            }
            Reading::Malformed => Ok(false),
        }
    }

    // What all of them give.
    pub(crate) fn end(self) -> Reading<Sequence<T>>
        ensures { result ≡ gathered self.fits self.items }
    {
        if self.fits {
            Reading::Fits(self.items)
        } else {
            Reading::Unfit
        }
    }
}
