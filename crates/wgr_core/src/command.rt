//! The commands on a network.
use crate::form::Form;
use crate::seen_peer::SeenPeer;
use wgr_peers::{Items, Label, LeaseEnd};
use wgr_text::{Addr, Key, Prefix};

/// A command on a network.
#[derive(Drop)]
pub enum Command {
    /// A new peer, at the named address or the lowest free one.
    Add {
        key: Key,
        label: Label,
        address: Option<Addr>,
        until: LeaseEnd,
        keepalive: u16,
    },
    /// The peer gets the named address or the lowest that is free without it; its routes stay.
    Move {
        number: u32,
        address: Option<Addr>,
    },
    /// The peer and the routes to it are removed.
    Revoke {
        number: u32,
    },
    /// The prefix leads to the peer from now on, and no longer to another.
    Route {
        number: u32,
        prefix: Prefix,
    },
    /// The route of exactly this prefix is removed.
    Unroute {
        prefix: Prefix,
    },
    /// The peer's lease ends at another moment.
    Renew {
        number: u32,
        until: LeaseEnd,
    },
    /// The peers of a running interface are taken over, all or none. Its public key, where it has one,
    /// has to be the server's.
    Adopt {
        server: Option<Key>,
        lines: Items<SeenPeer>,
    },
    /// The live peers by number.
    List,
    /// The peer to which the longest allowed prefix with the address leads.
    Owner {
        address: Addr,
    },
    /// The server's file, whose text the caller makes.
    ServerFile {
        form: Form,
    },
    /// The file of a peer, whose text the caller makes.
    PeerFile {
        number: u32,
        form: Form,
    },
}
