//! The entries of the register in its tables: tenants, their tokens and their networks. They are
//! found by a key (`lookup`), listed (`all`), counted (`counts`) and read from their rows (`settled`).
//! What adds and deletes them (`tenant`, `token`, `network`) is committed by `commit` of `wgr_tables`.
//!
//! Whether an operator's order is refused is not decided here: the crate only reads what the decision
//! needs of every entry. A key that a row has already is a fault of the store.
#![tactic(auto)]

mod all;
mod counts;
mod lookup;
mod network;
mod reader;
mod settled;
mod tenant;
mod token;

pub use all::{count_tokens, settled_networks, tenant_ids, tenants, tokens};
pub use counts::{count_peers, count_routes};
pub use lookup::{network_id, networks_of_tenant, tenant_id, tenant_of_token};
pub use network::{EndedNetwork, NewNetwork};
pub use reader::{drop_reader, insert_reader, is_reader, readers};
pub use settled::read_settled;
pub use tenant::NewTenant;
pub use token::{EndedToken, NewToken};
