//! What the blocks and edges of a verified function cost, read from a table of costs.
#![tactic(auto)]

mod costs;
mod edges;
mod laws;

pub use cost_table::CostFault;
pub use costs::{Costs, read_costs};
pub use laws::{edges_lead, one_table};
