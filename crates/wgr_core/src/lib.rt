//! One network: its pool, peers, routes and leases, and the commands on it.
#![tactic(auto)]

mod act;
mod adopt;
mod arrange;
mod change;
mod command;
mod draft;
mod fault;
mod form;
mod forms;
mod held;
mod joining;
mod line;
mod live;
mod network;
mod owner;
mod parts;
mod peers;
mod refusal;
mod reply;
mod routes;
mod seen_peer;
mod views;

pub use change::{Change, number_set};
pub use command::Command;
pub use fault::ActFault;
pub use form::Form;
pub use joining::{Joining, address_refusal};
pub use network::Network;
pub use parts::Parts;
pub use refusal::{CommandRefusal, Refusal};
pub use reply::{PeerView, Reply};
pub use seen_peer::SeenPeer;
pub use wgr_peers::{Capacity, Count, Host, Items, Label, LeaseEnd, Name, Peer, Port, Status};
pub use wgr_pool::{AddressSet, BadPool, Holds, Pool, SortedSpans, Stop, lowest_free};
