//! One network in the register's tables: it is loaded from its rows, and a change of it is written. What
//! is written of a register ([`Writing`]) is written by [`commit`], in one transaction.
//!
//! Every contract is about the rows as `wgr_model` defines them, and about what the database holds,
//! also after a fault shut its store.
#![tactic(auto)]

mod change;
mod enter;
mod leave;
mod load;
mod range;
mod read;
mod route;
mod stored;
mod writing;

pub use change::NetworkChange;
pub use load::{load_network, network_row};
pub use stored::network_if_stored;
pub use wgr_sql::{Cause, Fault};
pub use writing::{Writing, commit};
