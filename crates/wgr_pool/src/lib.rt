//! Pools of addresses: which of them may be given, which are held, and the lowest that is free.
#![tactic(auto)]

mod address_set;
mod allot;
mod held_spans;
mod pool;
mod spans;

pub use address_set::AddressSet;
pub use allot::{Holds, Stop, lowest_free};
pub use held_spans::lowest_address;
pub use pool::{BadPool, Pool, covers};
pub use spans::SortedSpans;
