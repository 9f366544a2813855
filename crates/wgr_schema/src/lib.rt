//! Creates the register's tables in an empty database, tells of which version a database's tables
//! are, and takes them to the third.
#![tactic(auto)]

mod fault;
mod form;
mod free;
mod indexes;
mod later;
mod laws;
mod layout;
mod making;
mod tables;
mod upgrading;
mod version;

pub use fault::{RegisterFault, register_fault};
pub use free::{are_free, lacks_counters};
pub use laws::{fresh_is_consistent, version_is_read};
pub use layout::holds_register;
pub use making::make;
pub use upgrading::upgrade;
pub use version::{Version, check_layout, version_of};
