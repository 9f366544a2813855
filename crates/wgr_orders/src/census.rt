//! All entries of a register, for an operator to look at.
use crate::entries::{NetworkEntry, Tenant, Token};
use wgr_model::Right;

/// A token with its right.
#[derive(Drop)]
pub struct Granted {
    pub token: Token,
    pub right: Right,
}

/// A network as it was added, and how many peers and routes its rows have. A peer whose lease is over counts
/// until a change of the network removes it.
#[derive(Drop)]
pub struct Counted {
    pub network_entry: NetworkEntry,
    pub peers: usize,
    pub routes: usize,
}

/// All entries, each list in any order.
#[derive(Drop)]
pub struct Census {
    pub tenants: Vec<Tenant>,
    pub tokens: Vec<Granted>,
    pub networks: Vec<Counted>,
}
