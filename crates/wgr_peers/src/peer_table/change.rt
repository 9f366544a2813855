//! Removing peers, and adding or replacing one, in one change.
ghost use Rattle.std.specs.Prelude.{◌≡◌, ◌≤◌, ◌<◌, ◌↔◌, true, IsOk, IfOk, OnOk, OnErr, Some};
ghost use Rattle.std.specs.HashMap.{get, spare};
ghost use Rattle.std.specs.Vec.{vec_len, vec_capacity};
ghost use Rattle.wgr_text.specs.declared.key.Key.{Key as KeyValue};
ghost use Rattle.wgr_peers.specs.Peers.{is_first, is_second, key_holder, put_peer, same_key, AreNumbered, AreApart};
ghost use Rattle.wgr_peers.specs.PeerIndex.{HasThose};
ghost use Rattle.wgr_peers.specs.PeersLeft.{peers_left, peers_after, HasItsPlaces, OnlyRenews};

use super::own::{insert_addresses, remove_addresses};
use super::{PeerTable, soonest_end};
use crate::number_set::NumberSet;
use crate::order::peer_place;
use crate::peer::Peer;
use std::alloc::AllocError;
use std::collections::HashMap;
use wgr_pool::AddressSet;
use wgr_text::Key;

impl PeerTable {
    /// Removes the peers with these numbers, and puts in the one that comes, in place of the
    /// one with its number if there is one; if memory runs out, the table is unchanged.
    ///
    /// No peer is copied, and each is moved at most once. If none comes, or one that renews a
    /// peer that stays and has no more addresses, no memory is allocated.
    pub fn change(&mut self, gone: NumberSet, coming: Option<Peer>) -> Result<(), AllocError>
        requires apart { AreApart self.old }
        requires fits { AreApart (peers_after self.old gone coming) }
        ensures ok { OnOk result (self.new ≡ peers_after self.old gone coming) }
        ensures err { OnErr result (self.new ≡ self.old) }
        ensures succeeds { OnlyRenews self.old gone coming → IsOk result }
    {
        let Some(peer) = coming else {
            self.remove_all(&gone);
            return Ok(());
        };
        match self.place_keyed(&peer) {
            Some(_) if !gone.contains(peer.number) => {
                self.remove_all(&gone);
                self.put(peer)
            }
            _ => self.exchange(gone, peer),
        }
    }

    /// Puts in a peer, in place of the one with its number if there is one; if memory runs out, the
    /// table is unchanged. If a peer has its number and key already, and as many addresses, no memory
    /// is allocated.
    ///
    /// There is no pass over the peers then, nor if its number is above all.
    pub fn put(&mut self, peer: Peer) -> Result<(), AllocError>
        requires apart { AreApart self.old }
        requires fits { AreApart (put_peer self.old peer) }
        ensures ok { OnOk result (self.new ≡ put_peer self.old peer) }
        ensures err { OnErr result (self.new ≡ self.old) }
        ensures succeeds { key_holder self.old peer.key ≡ Some peer.number → HasItsPlaces self.old peer → IsOk result }
    {
        if let Some(place) = self.place_keyed(&peer) {
            self.replace(place, peer);
            return Ok(());
        }
        if self.is_below(peer.number) {
            return self.push(peer);
        }
        let gone = NumberSet::of(Vec::new(*self.peers.allocator()));
        self.exchange(gone, peer)
    }

    /// Removes the peers with these numbers, in one pass.
    pub fn remove_all(&mut self, gone: &NumberSet)
        requires { AreApart self.old }
        ensures { self.new ≡ peers_left self.old gone.now }
    {
        forget_addresses(
            &mut self.addresses,
            &mut self.seconds,
            &self.peers,
            gone.as_slice(),
        );
        forget_keys(&mut self.numbers, &self.peers, gone.as_slice());
        drop_peers(&mut self.peers, gone);
        self.soonest_end = soonest_end(&self.peers);
    }

    // Removes the peers with these numbers and the one with the peer's number, and puts in the peer.
    fn exchange(&mut self, mut gone: NumberSet, peer: Peer) -> Result<(), AllocError>
        requires apart { AreApart self.old }
        requires fits { AreApart (put_peer (peers_left self.old gone) peer) }
        ensures ok { OnOk result (self.new ≡ put_peer (peers_left self.old gone) peer) }
        ensures err { OnErr result (self.new ≡ self.old) }
    {
        gone.insert(peer.number)?;
        let (mut addresses, mut seconds) = self.addresses_left(&gone)?;
        insert_addresses(&mut addresses, &mut seconds, &peer)?;
        self.peers.reserve(1)?;
        self.numbers.reserve(1)?;
        // Nothing fails from here on.
        forget_keys(&mut self.numbers, &self.peers, gone.as_slice());
        drop_peers(&mut self.peers, &gone);
        let Err(place) = peer_place(&self.peers, peer.number) else {
            unreachable!();
        };
        let Ok(_) = self.numbers.insert(peer.key, peer.number) else {
            unreachable!();
        };
        let Ok(()) = self.peers.insert(place, peer) else {
            unreachable!();
        };
        self.addresses = addresses;
        self.seconds = seconds;
        self.soonest_end = soonest_end(&self.peers);
        Ok(())
    }

    // The first and the second addresses of the peers except those with these numbers.
    fn addresses_left(&self, gone: &NumberSet) -> Result<(AddressSet, AddressSet), AllocError>
        requires { AreApart self.now }
        ensures first { IfOk result (λ left. HasThose is_first (peers_left self.now gone.now) left.0) }
        ensures second { IfOk result (λ left. HasThose is_second (peers_left self.now gone.now) left.1) }
    {
        let mut addresses = self.addresses.copy()?;
        let mut seconds = self.seconds.copy()?;
        forget_addresses(&mut addresses, &mut seconds, &self.peers, gone.as_slice());
        Ok((addresses, seconds))
    }
}

// Removes the addresses of the peers with these numbers from the sets.
fn forget_addresses(
    addresses: &mut AddressSet,
    seconds: &mut AddressSet,
    peers: &[Peer],
    gone: &[u32],
)
    requires numbered { AreNumbered peers.now }
    requires apart { AreApart peers.now }
    requires by_address { HasThose is_first peers.now addresses.old }
    requires by_second { HasThose is_second peers.now seconds.old }
    ensures first { HasThose is_first (peers_left peers.now gone.now) addresses.new }
    ensures second { HasThose is_second (peers_left peers.now gone.now) seconds.new }
{
    for number in gone {
        if let Ok(place) = peer_place(peers, *number) {
            remove_addresses(addresses, seconds, &peers[place]);
        }
    }
}

// Removes the keys of the peers with these numbers from the index.
fn forget_keys(numbers: &mut HashMap<Key, u32>, peers: &[Peer], gone: &[u32])
    requires numbered { AreNumbered peers.now }
    requires apart { AreApart peers.now }
    requires by_key { (key : KeyValue) → get same_key numbers.old key ≡ key_holder peers.now key }
    ensures by_key { (key : KeyValue) → get same_key numbers.new key ≡ key_holder (peers_left peers.now gone.now) key }
    ensures room { spare numbers.old ≤ spare numbers.new }
{
    for number in gone {
        if let Ok(place) = peer_place(peers, *number) {
            numbers.remove(&peers[place].key);
        }
    }
}

// Removes the peers with these numbers, in one pass.
fn drop_peers(peers: &mut Vec<Peer>, gone: &NumberSet)
    ensures left { peers.new.items ≡ peers_left peers.old.items gone.now }
    ensures fewer { vec_len peers.new ≤ vec_len peers.old }
    ensures room { vec_capacity peers.new ≡ vec_capacity peers.old }
{
    peers.retain(|peer| !gone.contains(peer.number));
}
