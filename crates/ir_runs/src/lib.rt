//! Runs of a function: which blocks are visited on given arguments, which values the names have, what is
//! returned, and what that costs.
#![tactic(auto)]

mod law;
mod ret_val;
mod run_end;
mod undefined;

pub use law::{
    arguments_have_one_answer, each_list_ends_once, no_operand_is_missing, values_fit_their_widths,
};
pub use ret_val::RetVal;
pub use run_end::RunEnd;
pub use undefined::UndefinedCause;
