ghost use Rattle.std.specs.Prelude.{◌≡◌};
ghost use Rattle.ir_pieces.specs.Choice as spec;

use crate::IrPiece;
use ll_tree::Range;
use wrap_rows::Ranged;

/// The piece of a parameter of this width whose argument's number stands at a variable; `None` exactly where it has no range.
pub fn range_piece(range: Option<Range>, width: u32, number: u32) -> Option<IrPiece>
    ensures { result ≡ spec.range_piece range width number }
{
    let range = range?;
    Some(IrPiece::Ranged(Ranged {
        width,
        low: range.lo,
        high: range.hi,
        number,
    }))
}
