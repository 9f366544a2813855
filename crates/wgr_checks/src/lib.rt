//! All rows of a register's tables, read and tested: each is of its form, no two share a key, no two
//! pools share an address, and each owner exists.
#![tactic(auto)]

mod allowed;
mod keys;
mod later;
mod laws;
mod networks;
mod owners;
mod peers;
mod pools;
mod readers;
mod sorted;
mod table;
mod tenants;
mod tokens;
mod walk;

pub use allowed::allowed_are_written;
pub use later::has_no_seconds;
pub use laws::{
    good_networks_are_consistent, good_readers_are_consistent, good_tenants_are_consistent,
    good_tokens_are_consistent, written_allowed_are_allowed, written_peers_are_peers,
};
pub use networks::read_networks;
pub use peers::peers_are_written;
pub use readers::readers_are_good;
pub use tenants::read_tenants;
pub use tokens::{are_own_rowids, tokens_are_good};
