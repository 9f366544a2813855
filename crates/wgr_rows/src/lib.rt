//! What Add and Owner need of one network, read from its rows without loading it.
#![tactic(auto)]

mod act;
mod allowed;
mod count;
mod expired;
mod fault;
mod free;
mod head;
mod holds;
mod key;
mod owner;
mod progress;
mod row;

pub use act::{is_directed, row_act};
pub use allowed::allowed_row;
pub use count::count_rows;
pub use expired::expired_rows;
pub use fault::RowFault;
pub use free::free_row;
pub use head::head_row;
pub use key::key_row;
pub use owner::owner_row;
pub use wgr_sql::Fault;
