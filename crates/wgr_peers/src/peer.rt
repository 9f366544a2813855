//! A peer, and what an interface shows of it.
ghost use Rattle.std.specs.Prelude.{◌≡◌, ◌↔◌, true, is_some, IfOk, IsTrue};

use crate::label::Label;
use crate::limits::{Count, LeaseEnd};
use std::alloc::AllocError;
use wgr_text::{Addr, Key};

/// What a running interface last showed of a peer.
#[derive(Clone, Copy, Debug, Drop, PartialEq, Eq)]
pub struct Status {
    /// The second of the latest handshake, or 0.
    pub handshake: Count,
    /// Bytes received from the peer.
    pub received: Count,
    /// Bytes sent to the peer.
    pub sent: Count,
}

/// A peer of a network.
#[derive(Debug, Drop)]
pub struct Peer {
    /// Its number, from 1 on; a network never uses one again.
    pub number: u32,
    /// Its public key.
    pub key: Key,
    /// A note on it.
    pub label: Label,
    /// Its tunnel address in the network's first pool.
    pub address: Addr,
    /// Its tunnel address in the second pool, if it has one.
    pub second: Option<Addr>,
    /// When its lease ends.
    pub until: LeaseEnd,
    /// Seconds between keepalive packets, or 0 for none.
    pub keepalive: u16,
    /// What a running interface last showed of it.
    pub status: Option<Status>,
}

impl Peer {
    ghost use Rattle.wgr_peers.specs.Peers.{is_at, is_live, same_key};

    /// Whether the peer's lease runs at this moment.
    pub fn is_live(&self, now: u64) -> bool
        ensures { result ≡ is_live now self.now }
    {
        !self.until.is_expired(now)
    }

    /// Whether the address is one of the peer's own.
    pub fn is_at(&self, address: &Addr) -> bool
        ensures { result ≡ is_at self.now address.now }
    {
        self.address == *address || self.second == Some(*address)
    }

    /// Whether the key is the peer's.
    pub fn has_key(&self, key: &Key) -> bool
        ensures { result ≡ same_key self.now.key key.now }
    {
        self.key == *key
    }

    /// Whether another peer has the key, and a second address only where this one has one.
    pub(crate) fn has_place_for(&self, peer: &Peer) -> bool
        ensures { IsTrue result ↔ (same_key self.now.key peer.now.key ≡ true) × (is_some peer.now.second ≡ true → is_some self.now.second ≡ true) }
    {
        self.has_key(&peer.key) && (peer.second.is_none() || self.second.is_some())
    }

    /// A copy of the peer.
    pub fn copy(&self) -> Result<Peer, AllocError>
        ensures { IfOk result (λ p. p ≡ self.now) }
    {
        Ok(Peer {
            number: self.number,
            key: self.key,
            label: self.label.copy()?,
            address: self.address,
            second: self.second,
            until: self.until,
            keepalive: self.keepalive,
            status: self.status,
        })
    }
}
