//! The pieces of a function's system as one type, and lists of them.
//!
//! The definitions stand in `specs/`; the laws are contracts of functions that do nothing.
#![tactic(auto)]

mod choice;
mod laws;
mod list;
mod param;
mod piece;

pub use choice::piece_of;
pub use laws::{
    a_piece_is_small, what_a_range_has, what_an_operation_has, what_pieces_lay_is_little,
    what_pieces_say,
};
pub use list::{Placed, fill_all, lay_all, place};
pub use param::range_piece;
pub use piece::IrPiece;
