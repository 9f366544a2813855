//! The plan of a text of keys: which address each would have in a new network.
#![tactic(auto)]

mod laws;
mod planner;
mod row_fault;

pub use laws::plans_are_unique;
pub use planner::{PlanFault, plan};
pub use row_fault::RowFault;
