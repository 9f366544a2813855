//! Whether a database is a register whose rows are good: the tables, the rows of each, and the
//! network that the rows of each network form.
#![tactic(auto)]

mod check;
mod later;
mod laws;
mod migrate;
mod outlines;
mod read;
mod stored;

pub use check::check_register;
pub use laws::{migrations_keep_views, whole_rows_are_consistent};
pub use migrate::migrate_tables;
pub use outlines::Outlines;
