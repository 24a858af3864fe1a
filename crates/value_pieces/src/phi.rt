ghost use Rattle.std.specs.Prelude.{◌≡◌, ◌<◌, length, IfOk};
ghost use Rattle.ll_tree.specs.declared.block.Phi.{Phi};
ghost use Rattle.ll_rules.specs.Items.{OfPhi};
ghost use Rattle.ll_links.specs.Items.{items_at, item_at};
ghost use Rattle.ll_links.specs.Links.{IsPhi};
ghost use Rattle.value_pieces.specs.Pieces.{coming_from, IsPhiPiece};
ghost use Rattle.value_pieces.specs.Sources.{AreConstants};

use crate::operand::source_vars;
use ir_constants::Constants;
use ir_pieces::IrPiece;
use ll_links::{BlockId, Position, Source};
use ll_tree::Phi;
use ll_verifier::Sound;
use path_encoding::PathSpots;
use portion_cuts::block_at;
use std::alloc::Global;
use wrap_rows::{Incoming, Phi as PhiPiece, ValueVars};
use wx_base::NoMemory;

/// The piece of a phi of the block at a position, which stands behind so many items of it: the operands of the
/// edges into the block, by the positions from which they come.
pub fn phi_piece(
    alloc: Global,
    sound: &Sound,
    spots: &PathSpots,
    constants: &Constants,
    at: u32,
    place: BlockId,
    item: u32,
    phi: &Phi,
) -> Result<IrPiece, NoMemory>
    requires constants { AreConstants constants.now spots.now }
    requires edges { length spots.now.edges.items ≡ length sound.now.flow.edges }
    requires within { item < length (items_at sound.now.func.blocks place.0) }
    requires there { item_at sound.now.func.blocks place.0 item ≡ OfPhi phi.now }
    ensures { IfOk result (IsPhiPiece sound.now spots.now at phi.now) }
{
    let mut incoming = Vec::new(alloc);
    for (k, edge) in sound.edges().iter().enumerate() {
        if edge.to.0 != at {
            continue;
        }
        incoming.push(Incoming {
            edge: spots.edges[k],
            value: coming_vars(sound, spots, constants, edge.from, place, item),
        })?;
    }
    Ok(IrPiece::Phi(PhiPiece {
        width: phi.width,
        incoming,
    }))
}

// Number and mark of the operand that a phi has for the block at a position.
fn coming_vars(
    sound: &Sound,
    spots: &PathSpots,
    constants: &Constants,
    from: Position,
    place: BlockId,
    item: u32,
) -> ValueVars
    requires constants { AreConstants constants.now spots.now }
    requires from { from.0 < length sound.now.flow.order }
    requires within { item < length (items_at sound.now.func.blocks place.0) }
    requires phi { IsPhi (item_at sound.now.func.blocks place.0 item) }
    ensures { (phi : Phi) → item_at sound.now.func.blocks place.0 item ≡ OfPhi phi
        → result ≡ coming_from sound.now spots.now from.0 phi }
{
    let source = sound.incoming(place, item, block_at(sound, from));
    source_vars(spots, constants, source.unwrap_or(Source::Poison))
}
