//! Peers and routes in order, and what they contain: keys, labels, names, hosts, leases and other numbers
//! with limits.
#![tactic(auto)]

mod endpoint;
mod host;
mod items;
mod label;
mod limits;
mod name;
mod number_set;
pub mod order;
mod peer;
mod peer_draft;
mod peer_table;
mod route_slots;

pub use host::Host;
pub use items::Items;
pub use label::Label;
pub use limits::{Capacity, Count, LeaseEnd, MAX_LABEL, MAX_NUMBER, MAX_ROUTES, Port};
pub use name::Name;
pub use number_set::NumberSet;
pub use peer::{Peer, Status};
pub use peer_draft::PeerDraft;
pub use peer_table::{ExpiredPeers, PeerTable, soonest_end};
pub use route_slots::RouteSlots;
