ghost use Rattle.std.specs.Prelude.{◌≡◌, ◌<◌, ◌≤◌, ◌+◌, ◌⊎◌, length, All, IfSome, MatchOption};
ghost use Rattle.tableau_rows.specs.Equation.{IsSparse};
ghost use Rattle.tableau_rows.specs.Merge.{BeginsAt, IsSplitOff};

use crate::Entry;

/// The least column of two lists whose columns rise, `None` where both are empty.
#[tactic(auto, using(crate::proofs::FrontLaws::least_first))]
pub(crate) fn least_column(left: &[Entry], right: &[Entry]) -> Option<u32>
    requires left { IsSparse left.now }
    requires right { IsSparse right.now }
    ensures first { MatchOption result ((length left.now ≡ 0)
        × (length right.now ≡ 0)) (λ column. BeginsAt column left.now ⊎ BeginsAt column right.now) }
    ensures of_left { IfSome result (λ column. All (λ entry. column ≤ entry.column) left.now) }
    ensures of_right { IfSome result (λ column. All (λ entry. column ≤ entry.column) right.now) }
{
    match (left, right) {
        ([], []) => None,
        ([first, ..], []) | ([], [first, ..]) => Some(first.column),
        ([first, ..], [other, ..]) => {
            if first.column <= other.column {
                Some(first.column)
            } else {
                Some(other.column)
            }
        }
    }
}

/// How often the least column is taken, and the entries behind it.

pub(crate) fn split_front(entries: &[Entry], column: u32) -> (i128, &[Entry])
    requires sparse { IsSparse entries.now }
    requires least { All (λ entry. column ≤ entry.column) entries.now }
    ensures split { IsSplitOff entries.now column result.0 result.1.now }
    ensures shorter { BeginsAt column entries.now → length result.1.now + 1 ≡ length entries.now }
    ensures not_longer { length result.1.now ≤ length entries.now }
{
    let [first, rest @ ..] = entries else {
        return (0, entries);
    };
    if first.column != column {
        return (0, entries);
    }
    (first.coeff, rest)
}
