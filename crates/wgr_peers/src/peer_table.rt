//! The peers of a network, with their indexes.
ghost use Rattle.std.specs.Prelude.{◌≡◌, ◌+◌, ◌<◌, ◌≤◌, ◌↔◌, ◌⊎◌, List, [], ◌∷◌, ◌++◌, length, map, is_some, IsTrue, IsSome, IfSome, IfNone, IfOk, OnOk, OnErr, All, Some, None, true};
ghost use Rattle.std.specs.HashMap.{get};
ghost use Rattle.std.specs.List.{filter};
ghost use Rattle.std.specs.Option.{option_copied};
ghost use Rattle.wgr_text.specs.declared.key.Key.{Key as KeyValue};
ghost use Rattle.wgr_peers.specs.Peers.{is_first, is_live, is_own, expired, expired_addresses, key_holder, peer_of, put_peer, same_key, without_peer, AreNumbered, AreApart};
ghost use Rattle.wgr_peers.specs.PeerIndex.{EndsFrom, HasThose, IsKeyedAt};
ghost use Rattle.wgr_peers.specs.PeersLeft.{HasItsPlaces};

use crate::items::Items;
use crate::limits::LeaseEnd;
use crate::order::{are_below, peer_place};
use crate::peer::Peer;
use crate::peer_draft::PeerDraft;
use std::alloc::{AllocError, Global};
use std::collections::HashMap;
use std::marker::Model;
use wgr_pool::AddressSet;
use wgr_text::{Addr, Key};

mod change;
mod own;

pub(crate) use own::first_addresses;
use own::{insert_addresses, move_addresses, remove_addresses, second_addresses};

/// The peers that are expired at a moment.
#[derive(Debug, Drop)]
pub struct ExpiredPeers {
    /// Their numbers, which rise.
    pub numbers: Items<u32>,
    /// Their first addresses, in the same order.
    pub addresses: Items<Addr>,
}

/// Peers in the order of their numbers, with indexes by key and by address, so that neither
/// lookup is a linear search.
#[derive(Drop)]
pub struct PeerTable {
    peers: Vec<Peer>,
    numbers: HashMap<Key, u32>,
    // The first addresses, and the second ones.
    addresses: AddressSet,
    seconds: AddressSet,
    // No lease ends before this moment; the greatest number where none ends.
    soonest_end: u64,
}

impl Model for PeerTable {
    ghost use Rattle.std.specs.Prelude.{List};
    ghost use Rattle.wgr_peers.specs.declared.peer.Peer.{Peer};

    ghost Value = { List Peer };

    ghost use Rattle.wgr_peers.specs.PeerIndex.{IsIndexed};

    ghost view = { λ t. t.peers.items };

    ghost invariant = { λ t. IsIndexed t.peers.items t.numbers t.addresses t.seconds t.soonest_end };
}

impl PeerTable {
    /// No peers.
    pub fn new(alloc: Global) -> PeerTable
        ensures { result ≡ [] }
    {
        PeerTable {
            peers: Vec::new(alloc),
            numbers: HashMap::new(alloc),
            addresses: AddressSet::new(alloc),
            seconds: AddressSet::new(alloc),
            soonest_end: u64::MAX,
        }
    }

    /// The peers.
    pub fn as_slice(&self) -> &[Peer]
        ensures { result.now ≡ self.now }
    {
        &self.peers
    }

    /// How many peers there are.
    pub fn len(&self) -> usize
        ensures { result ≡ length self.now }
    {
        self.peers.len()
    }

    /// The number of the peer that has this key.
    pub fn key_holder(&self, key: &Key) -> Option<u32>
        ensures { result ≡ key_holder self.now key.now }
    {
        self.numbers.get(key).copied()
    }

    /// The peer with this number.
    pub fn peer(&self, number: u32) -> Option<&Peer>
        ensures { option_copied result ≡ peer_of self.now number }
    {
        match self.peers.binary_search_by_key(&number, |peer| peer.number) {
            Ok(place) => Some(&self.peers[place]),
            Err(_) => None,
        }
    }

    /// Whether a peer has the address as its own.
    pub fn owns(&self, address: &Addr) -> bool
        ensures { result ≡ is_own self.now address.now }
    {
        address.rules_hold();
        self.addresses.contains(address) || self.seconds.contains(address)
    }

    /// The first addresses of the peers.
    pub fn addresses(&self) -> &AddressSet
        ensures { HasThose is_first self.now result.now }
    {
        &self.addresses
    }

    /// Appends a peer whose number is above all others; if memory runs out, the table is unchanged.
    pub fn push(&mut self, peer: Peer) -> Result<(), AllocError>
        requires above { All (λ p. p.number < peer.number) self.old }
        requires new_key { key_holder self.old peer.key ≡ None }
        ensures ok { OnOk result (self.new ≡ self.old ++ peer ∷ []) }
        ensures err { OnErr result (self.new ≡ self.old) }
    {
        self.peers.reserve(1)?;
        self.numbers.reserve(1)?;
        insert_addresses(&mut self.addresses, &mut self.seconds, &peer)?;
        let Ok(_) = self.numbers.insert(peer.key, peer.number) else {
            unreachable!();
        };
        self.soonest_end = sooner(self.soonest_end, peer.until);
        self.peers.push_reserved(peer);
        Ok(())
    }
}

impl PeerTable {
    // The place of the peer that has this peer's number and key, and as many addresses.
    fn place_keyed(&self, peer: &Peer) -> Option<usize>
        requires { AreApart self.now }
        ensures place { IfSome result (λ at. IsKeyedAt self.now peer.now at) }
        ensures some { IfSome result (λ _. key_holder self.now peer.now.key ≡ Some peer.now.number) }
        ensures places { IfSome result (λ _. HasItsPlaces self.now peer.now) }
        ensures none { IfNone result (key_holder self.now peer.now.key ≡ Some peer.now.number → HasItsPlaces self.now peer.now → ⊥) }
    {
        match peer_place(&self.peers, peer.number) {
            Ok(place) if self.peers[place].has_place_for(peer) => Some(place),
            _ => None,
        }
    }

    // Replaces a peer with one that has its number and key, and no more addresses.
    fn replace(&mut self, place: usize, peer: Peer)
        requires keyed { IsKeyedAt self.old peer place }
        requires apart { AreApart self.old }
        ensures { self.new ≡ put_peer self.old peer }
    {
        let until = peer.until;
        let left = &self.peers[place];
        move_addresses(&mut self.addresses, &mut self.seconds, left, &peer);
        self.peers[place] = peer;
        self.soonest_end = sooner(self.soonest_end, until);
    }

    /// Removes the peer with this number, if there is one.
    pub fn remove(&mut self, number: u32)
        requires { AreApart self.old }
        ensures { self.new ≡ without_peer self.old number }
    {
        let Ok(place) = peer_place(&self.peers, number) else {
            return;
        };
        let peer = &self.peers[place];
        remove_addresses(&mut self.addresses, &mut self.seconds, peer);
        self.numbers.remove(&peer.key);
        self.peers.remove(place);
    }
}

impl PeerTable {
    /// The table of these peers, whose numbers rise and of which no two have a key or an address
    /// in common.
    pub fn collect(alloc: Global, peers: Vec<Peer>) -> Result<PeerTable, AllocError>
        requires numbered { AreNumbered peers.items }
        requires apart { AreApart peers.items }
        ensures { IfOk result (λ table. table ≡ peers.items) }
    {
        let numbers = numbers_by_key(alloc, &peers)?;
        PeerTable::indexed(alloc, peers, numbers)
    }

    // The table of these peers, where the map has the number of each key's.
    fn indexed(
        alloc: Global,
        peers: Vec<Peer>,
        numbers: HashMap<Key, u32>,
    ) -> Result<PeerTable, AllocError>
        requires numbered { AreNumbered peers.items }
        requires by_key { (key : KeyValue) → get same_key numbers key ≡ key_holder peers.items key }
        ensures { IfOk result (λ table. table ≡ peers.items) }
    {
        Ok(PeerTable {
            addresses: AddressSet::collect(alloc, first_addresses(alloc, &peers)?)?,
            seconds: AddressSet::collect(alloc, second_addresses(alloc, &peers)?)?,
            soonest_end: soonest_end(&peers),
            numbers,
            peers,
        })
    }

    /// The table of these peers, if their numbers rise and no two of them have a key or an address
    /// in common.
    pub fn of(alloc: Global, peers: Vec<Peer>) -> Result<Option<PeerTable>, AllocError>
        ensures some { IfOk result (λ made. IfSome made (λ table. table ≡ peers.items)) }
        ensures exact { IfOk result (λ made. IsSome made ↔ (AreNumbered peers.items × AreApart peers.items)) }
    {
        let mut draft = PeerDraft::new(alloc);
        for peer in peers {
            if !draft.takes(&peer) {
                return Ok(None);
            }
            draft.push(peer)?;
        }
        let (peers, numbers) = draft.into_parts();
        Ok(Some(PeerTable::indexed(alloc, peers, numbers)?))
    }

    // Whether all numbers are below this one.
    fn is_below(&self, number: u32) -> bool
        ensures { IsTrue result ↔ All (λ q. q.number < number) self.now }
    {
        are_below(&self.peers, number)
    }

    /// The peers that are live at this moment.
    pub fn live(&self, alloc: Global, now: u64) -> Result<Vec<Peer>, AllocError>
        ensures { IfOk result (λ peers. peers.items ≡ filter (is_live now) self.now) }
    {
        let mut peers = Vec::new(alloc);
        for peer in &self.peers {
            if peer.is_live(now) {
                peers.push(peer.copy()?)?;
            }
        }
        Ok(peers)
    }

    /// A moment before which no lease ends, in seconds since 1970-01-01 (UTC); the greatest number where none
    /// ends. It is the soonest end, except after a removal: then it may be sooner.
    pub fn soonest_end(&self) -> u64
        ensures { All (EndsFrom result) self.now }
    {
        self.soonest_end
    }

    /// The peers that are expired at this moment; one pass over the peers, and none before the
    /// soonest end of a lease.
    pub fn expired(&self, alloc: Global, now: u64) -> Result<ExpiredPeers, AllocError>
        ensures numbers { IfOk result (λ found. found.numbers ≡ expired now self.now) }
        ensures addresses { IfOk result (λ found. found.addresses ≡ expired_addresses now self.now) }
    {
        let mut found = ExpiredPeers {
            numbers: Items::new(alloc),
            addresses: Items::new(alloc),
        };
        if now < self.soonest_end {
            return Ok(found);
        }
        for peer in &self.peers {
            if !peer.is_live(now) {
                found.numbers.push(peer.number)?;
                found.addresses.push(peer.address)?;
            }
        }
        Ok(found)
    }
}

// The sooner of a moment and the end of a lease, if that has one.
fn sooner(moment: u64, until: LeaseEnd) -> u64
    ensures at_most { result ≤ moment }
    ensures ends { (until ≡ 0) ⊎ (result ≤ until) }
{
    let seconds = until.seconds();
    if seconds != 0 && seconds < moment {
        seconds
    } else {
        moment
    }
}

// The number of each key's peer.
fn numbers_by_key(alloc: Global, peers: &[Peer]) -> Result<HashMap<Key, u32>, AllocError>
    requires { AreApart peers.now }
    ensures { IfOk result (λ numbers. (key : KeyValue) → get same_key numbers key ≡ key_holder peers.now key) }
{
    let mut numbers = HashMap::new(alloc);
    for peer in peers {
        numbers.insert(peer.key, peer.number)?;
    }
    Ok(numbers)
}

/// A moment before which no lease of these peers ends; the greatest number where none ends.
pub fn soonest_end(peers: &[Peer]) -> u64
    ensures { All (EndsFrom result) peers.now }
{
    let mut soonest = u64::MAX;
    for peer in peers {
        soonest = sooner(soonest, peer.until);
    }
    soonest
}
