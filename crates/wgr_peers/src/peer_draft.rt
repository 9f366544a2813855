//! Peers to which many are added.
ghost use Rattle.std.specs.Prelude.{◌≡◌, ◌<◌, ◌≤◌, ◌↔◌, ◌||◌, [], ◌∷◌, ◌++◌, length, IsTrue, IfOk, OnOk, OnErr, All, None};
ghost use Rattle.std.specs.HashMap.{get};
ghost use Rattle.std.specs.List.{list_any};
ghost use Rattle.wgr_text.specs.Prefix.{width};
ghost use Rattle.wgr_text.specs.declared.key.Key.{Key as KeyValue};
ghost use Rattle.wgr_pool.specs.Allot.{lowest_where};
ghost use Rattle.wgr_pool.specs.HeldSpans.{is_routed};
ghost use Rattle.std.specs.HashSet.{spare};
ghost use Rattle.wgr_peers.specs.PeerDraft.{HasOneMore, HasSpots};
ghost use Rattle.wgr_peers.specs.Peers.{addresses, is_first, is_own, key_holder, put_peer, same_key, AreNumbered, AreApart, IsApart};
ghost use Rattle.wgr_peers.specs.PeerIndex.{IsAlikeAt};

use crate::order::are_below;
use crate::peer::Peer;
use crate::peer_table::first_addresses;
use crate::route_slots::RouteSlots;
use std::alloc::{AllocError, Global};
use std::collections::{HashMap, HashSet};
use std::marker::Model;
use wgr_pool::{AddressSet, Pool};
use wgr_text::{Addr, Key};

/// Peers in the order of their numbers, to which many others are added, one after the other.
///
/// Unlike in a [`PeerTable`](crate::PeerTable), their addresses aren't kept as runs, in whose
/// vector each address that touches no run moves all runs after it: the runs are made from all
/// first addresses at once, when they are first needed.
#[derive(Drop)]
pub struct PeerDraft {
    peers: Vec<Peer>,
    numbers: HashMap<Key, u32>,
    // The width and the number of each address that a peer has.
    owned: HashSet<(u8, u128)>,
    addresses: Option<AddressSet>,
}

impl Model for PeerDraft {
    ghost use Rattle.std.specs.Prelude.{List};
    ghost use Rattle.wgr_peers.specs.declared.peer.Peer.{Peer};

    ghost Value = { List Peer };

    ghost use Rattle.wgr_peers.specs.PeerDraft.{IsDrafted};

    ghost view = { λ d. d.peers.items };

    ghost invariant = { λ d. IsDrafted d.peers.items d.numbers d.owned d.addresses };
}

impl PeerDraft {
    /// No peers.
    pub(crate) fn new(alloc: Global) -> PeerDraft
        ensures { result ≡ [] }
    {
        PeerDraft {
            peers: Vec::new(alloc),
            numbers: HashMap::new(alloc),
            owned: HashSet::new(alloc),
            addresses: None,
        }
    }

    /// A copy of these peers, whose numbers rise and of which no two have a key or an address in
    /// common.
    pub fn from_slice(alloc: Global, peers: &[Peer]) -> Result<PeerDraft, AllocError>
        requires numbered { AreNumbered peers.now }
        requires apart { AreApart peers.now }
        ensures { IfOk result (λ draft. draft ≡ peers.now) }
    {
        let mut draft = PeerDraft::new(alloc);
        for peer in peers {
            draft.push(peer.copy()?)?;
        }
        Ok(draft)
    }

    /// The peers.
    pub fn as_slice(&self) -> &[Peer]
        ensures value { result.now ≡ self.now }
        ensures numbered { AreNumbered self.now }
    {
        &self.peers
    }

    /// The peers, and the number of each key's peer.
    pub(crate) fn into_parts(self) -> (Vec<Peer>, HashMap<Key, u32>)
        ensures peers { result.0.items ≡ self }
        ensures numbers { (key : KeyValue) → get same_key result.1 key ≡ key_holder self key }
    {
        (self.peers, self.numbers)
    }

    /// How many peers there are.
    pub fn len(&self) -> usize
        ensures { result ≡ length self.now }
    {
        self.peers.len()
    }

    /// The number of the peer that has this key.
    pub fn key_holder(&self, key: &Key) -> Option<u32>
        ensures { result ≡ key_holder self.now key.now }
    {
        self.numbers.get(key).copied()
    }

    /// Whether a peer has the address as its own.
    pub fn owns(&self, address: &Addr) -> bool
        ensures { result ≡ is_own self.now address.now }
    {
        self.owned.contains(&spot(address))
    }

    /// Whether the peer's number is above all numbers, and its key and its addresses are no peer's.
    pub(crate) fn takes(&self, peer: &Peer) -> bool
        ensures { IsTrue result ↔ (All (λ q. q.number < peer.now.number) self.now × All (λ q. IsApart q peer.now) self.now) }
    {
        are_below(&self.peers, peer.number) && self.is_apart(peer)
    }

    // Whether no peer has the key or an address of this one.
    fn is_apart(&self, peer: &Peer) -> bool
        ensures { IsTrue result ↔ All (λ q. IsApart q peer.now) self.now }
    {
        self.key_holder(&peer.key).is_none() && !self.owns_any(peer)
    }

    // Whether a peer has one of this one's addresses as its own.
    fn owns_any(&self, peer: &Peer) -> bool
        ensures { result ≡ list_any (is_own self.now) (addresses peer.now) }
    {
        if self.owns(&peer.address) {
            return true;
        }
        match &peer.second {
            Some(second) => self.owns(second),
            None => false,
        }
    }

    /// The lowest address of the pool that may be given and that neither a peer has as its first
    /// nor a route that lies wholly in the pool.
    pub fn lowest_free(
        &mut self,
        alloc: Global,
        pool: &Pool,
        routes: &RouteSlots,
    ) -> Result<Option<Addr>, AllocError>
        ensures lowest { IfOk result (λ found. found ≡ lowest_where pool.now (λ a. list_any (λ p. is_first p a) self.old || is_routed pool.now routes.now a)) }
        ensures same { self.new ≡ self.old }
    {
        let addresses = match self.addresses.take() {
            Some(addresses) => addresses,
            None => AddressSet::collect(alloc, first_addresses(alloc, &self.peers)?)?,
        };
        let lowest = routes.lowest_free(pool, &addresses);
        self.addresses = Some(addresses);
        Ok(lowest)
    }

    /// Appends a peer whose number is above all others; if memory runs out, the draft is unchanged.
    pub fn push(&mut self, peer: Peer) -> Result<(), AllocError>
        requires above { All (λ p. p.number < peer.number) self.old }
        requires new_key { key_holder self.old peer.key ≡ None }
        ensures ok { OnOk result (self.new ≡ self.old ++ peer ∷ []) }
        ensures err { OnErr result (self.new ≡ self.old) }
    {
        self.peers.reserve(1)?;
        self.numbers.reserve(1)?;
        self.owned.reserve(2)?;
        insert_address(&mut self.addresses, peer.address)?;
        let Ok(_) = self.numbers.insert(peer.key, peer.number) else {
            unreachable!();
        };
        insert_spots(&mut self.owned, &peer);
        self.peers.push_reserved(peer);
        Ok(())
    }

    /// Replaces a peer with one that has its number, key and addresses.
    pub fn replace(&mut self, place: usize, peer: Peer)
        requires { IsAlikeAt self.old peer place }
        ensures { self.new ≡ put_peer self.old peer }
    {
        self.peers[place] = peer;
    }
}

// The width and the number of the address.
fn spot(address: &Addr) -> (u8, u128)
    ensures { result ≡ (width address.now.family, address.now.number) }
{
    (address.family().width(), address.number())
}

// Inserts the spots of the peer's addresses into the set, which has room for two more.
fn insert_spots(owned: &mut HashSet<(u8, u128)>, peer: &Peer)
    requires { 2 ≤ spare owned.old }
    ensures { HasSpots (addresses peer.now) owned.old owned.new }
{
    let Ok(_) = owned.insert(spot(&peer.address)) else {
        unreachable!();
    };
    let Some(second) = &peer.second else {
        return;
    };
    let Ok(_) = owned.insert(spot(second)) else {
        unreachable!();
    };
}

// Inserts the address into the set, if there is one.
fn insert_address(addresses: &mut Option<AddressSet>, address: Addr) -> Result<(), AllocError>
    ensures ok { OnOk result (HasOneMore address addresses.old addresses.new) }
    ensures err { OnErr result (addresses.new ≡ addresses.old) }
{
    match addresses {
        Some(set) => set.insert(address),
        None => Ok(()),
    }
}
