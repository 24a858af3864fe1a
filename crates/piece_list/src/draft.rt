ghost use Rattle.std.specs.Prelude.{◌+◌, ◌^◌, ◌<◌, length, IfSome, OnOk};
ghost use Rattle.ir_pieces.specs.Pieces.{IsAt, ranges};
ghost use Rattle.piece_list.specs.Drafts.{IsKept};
ghost use Rattle.piece_list.specs.Pieces.{put_vars};
ghost use Rattle.std.specs.Prelude.{◌≡◌};

use ir_pieces::{IrPiece, Placed, place};
use ll_links::ValueId;
use mix_system::System;
use path_encoding::PathSpots;
use wrap_rows::ValueVars;
use wx_base::NoMemory;

/// A system with the variables of a function's values, where they lie, and their pieces.
#[derive(Debug, Drop)]
pub struct Declared {
    pub system: System,
    pub spots: PathSpots,
    /// In the order of values: of parameters with a range, then of phis and of instructions with a result.
    pub placed: Vec<Placed>,
}

impl Declared {
    /// Adds the variables of a piece behind all others, and keeps where its value stands.
    ///
    /// After want of memory some of them may stand.
    pub fn keep(&mut self, id: Option<ValueId>, piece: IrPiece) -> Result<(), NoMemory>
        requires at { IsAt piece (length self.old.system.ranges) }
        requires room { length self.old.system.ranges + length (ranges piece) < 2 ^ 31 }
        requires there { IfSome id (λ id. id.0 < length self.old.spots.values.items) }
        ensures { OnOk result (IsKept self.old self.new id piece) }
    {
        let vars = place(&mut self.placed, piece, &mut self.system)?;
        put(&mut self.spots.values, id, vars);
        Ok(())
    }
}

fn put(values: &mut Vec<ValueVars>, id: Option<ValueId>, vars: ValueVars)
    requires { IfSome id (λ id. id.0 < length values.old.items) }
    ensures { values.new.items ≡ put_vars values.old.items id vars }
{
    match id {
        Some(id) => values[id.0 as usize] = vars,
        None => {}
    }
}
