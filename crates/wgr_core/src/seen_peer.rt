//! A peer as an interface shows it.
use wgr_peers::{Items, Status};
use wgr_text::{Key, Prefix};

/// A peer as a running interface shows it, in a line of `wg show <interface> dump` (wg(8)).
#[derive(Drop)]
pub struct SeenPeer {
    /// Its public key.
    pub key: Key,
    /// Its allowed IPs, in the order of the line.
    pub allowed: Items<Prefix>,
    /// Its latest handshake and its counts of bytes.
    pub status: Status,
    /// Seconds between keepalive packets, or 0 for none.
    pub keepalive: u16,
}
