//! The answer to an event.
use wgr_core::{CommandRefusal, Items, Name, Network, Reply};
use wgr_orders::OrderRefusal;

/// The answer to an event.
#[derive(Drop)]
pub enum Answer {
    /// What a command replies, with a copy of the network after it, from which files are written.
    Replied(Reply, Network),
    /// The network refuses the command.
    Declined(CommandRefusal),
    /// Copies of a tenant's networks, in the order of their names.
    Listed(Items<(Name, Network)>),
    /// No tenant has the token.
    UnknownToken,
    /// The token only reads, and the command changes.
    ReadOnly,
    /// The tenant has no network of the name.
    NoSuchNetwork,
    /// The order is done.
    Done,
    /// The order is refused.
    Refused(OrderRefusal),
}
