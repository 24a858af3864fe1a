ghost use Rattle.std.specs.Prelude.{◌≡◌, ◌<◌, length};
ghost use Rattle.ll_rules.specs.Items.{OfInstr};
ghost use Rattle.ll_links.specs.Items.{items_at, item_at};
ghost use Rattle.ir_pieces.specs.Choice as spec;
ghost use Rattle.value_pieces.specs.Pieces.{operands_of};
ghost use Rattle.value_pieces.specs.Sources.{AreConstants};

use crate::operand::operand_of;
use ir_constants::Constants;
use ir_pieces::{IrPiece, piece_of};
use ll_links::BlockId;
use ll_tree::Instr;
use ll_verifier::Sound;
use path_encoding::PathSpots;

/// The piece of an instruction, which stands behind so many items of its block; `None` exactly for an assume.
/// It takes no memory.
pub fn op_piece(
    sound: &Sound,
    spots: &PathSpots,
    constants: &Constants,
    place: BlockId,
    item: u32,
    instr: &Instr,
) -> Option<IrPiece>
    requires constants { AreConstants constants.now spots.now }
    requires within { item < length (items_at sound.now.func.blocks place.0) }
    requires there { item_at sound.now.func.blocks place.0 item ≡ OfInstr instr.now }
    ensures { result ≡ spec.piece_of instr.now.op
        (operands_of sound.now spots.now instr.now.op) }
{
    let sources = sound.links(place, item).sources;
    let first = operand_of(spots, constants, sources, 0);
    let second = operand_of(spots, constants, sources, 1);
    let third = operand_of(spots, constants, sources, 2);
    piece_of(&instr.op, &[first, second, third])
}
