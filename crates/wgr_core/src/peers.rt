//! The commands on peers.
ghost use Rattle.std.specs.Prelude.{◌≡◌, ◌≤◌, ◌||◌, true, false, cond, nat_eq, [], ◌∷◌, Some, None, IfOk, IfSome, IsTrue, option_map};
ghost use Rattle.std.specs.HashSet.{contains};
ghost use Rattle.wgr_pool.specs.Allot.{lower, lowest_where};
ghost use Rattle.wgr_pool.specs.HeldSpans.{is_routed, standing};
ghost use Rattle.wgr_pool.specs.PrefixTests.{has};
ghost use Rattle.wgr_core.specs.Change.{MeetsLive};
ghost use Rattle.wgr_core.specs.Network.{IsNetwork, lowest_free};
ghost use Rattle.wgr_peers.specs.Peers.{is_own, peer_of};
ghost use Rattle.wgr_core.specs.Outcome.{joined, move, renew, replaced, revoke, vacated};
ghost use Rattle.wgr_core.specs.Refusals.{address_refusal, join_refusal, place};
ghost use Rattle.wgr_peers.specs.Limits.{max_number};

use crate::change::Change;
use crate::fault::ActFault;
use crate::joining::{Joining, address_refusal};
use crate::live::{Live, one_item};
use crate::network::Network;
use crate::refusal::Refusal;
use crate::reply::{PeerView, Reply};
use std::alloc::{AllocError, Global};
use std::collections::HashSet;
use wgr_peers::{Items, LeaseEnd, Peer};
use wgr_pool::{Pool, lowest_address};
use wgr_text::{Addr, Key};

impl Live<'_> {
    // Why no peer with this key and this end of its lease may join.
    pub(crate) fn join_refusal(&self, now: u64, key: &Key, until: LeaseEnd) -> Option<Refusal>
        ensures { result ≡ join_refusal self.now now key.now until }
    {
        let joining = Joining {
            server: self.server_key(),
            key_holder: self.key_holder(key),
            has_room: self.len() < usize::from(self.capacity().peers()),
            next: self.next(),
        };
        joining.refusal(now, key, until)
    }

    // Whether a peer other than `mover` has the address.
    fn is_others(&self, mover: Option<&Peer>, address: &Addr) -> bool
        requires { IfSome mover (λ p. peer_of self.now.peers p.now.number ≡ Some p.now) }
        ensures { result ≡ is_own (vacated self.now (option_map (λ p. p.now.number) mover.entry)).peers address.now }
    {
        let Some(peer) = mover else {
            return self.owns(address);
        };
        self.rules_hold();
        !peer.is_at(address) && self.owns(address)
    }

    // Why the named address of the pool can't be taken by a new peer or by `mover`.
    fn address_refusal(&self, mover: Option<&Peer>, pool: &Pool, address: &Addr) -> Option<Refusal>
        requires { IfSome mover (λ p. peer_of self.now.peers p.now.number ≡ Some p.now) }
        ensures { result ≡ address_refusal (vacated self.now (option_map (λ p. p.now.number) mover.entry)) pool.now address.now }
    {
        let is_taken = self.is_others(mover, address) || self.is_route_at(address);
        address_refusal(pool, address, is_taken)
    }

    // The lowest address of the pool, which is the network's, that nobody holds.
    pub(crate) fn lowest_free(&self, pool: &Pool) -> Option<Addr>
        requires { pool.now ≡ self.now.pool }
        ensures value { result ≡ lowest_free self.now pool.now }
        ensures rules { IsNetwork self.now }
    {
        let mut lowest = lowest_beside(self.network, pool, &self.expired);
        for address in self.addresses.as_slice() {
            lowest = self.or_freed(lowest, address);
        }
        self.network.rules_hold();
        lowest
    }

    // The lower of the lowest free address and one that a peer gives up, if no route has that one.
    fn or_freed(&self, lowest: Option<Addr>, address: &Addr) -> Option<Addr>
        requires { has self.now.pool address.now ≡ true }
        ensures { result ≡ cond (is_routed self.now.pool self.now.routes address.now) lowest (Some (lower lowest address.now)) }
    {
        if is_below(&lowest, address) {
            return lowest;
        }
        if self.is_routed(address) {
            return lowest;
        }
        Some(*address)
    }

    // The lowest address of the pool that nobody holds, or that only `mover` holds. Its own address may also
    // lie in a route that lies in the pool, and then isn't free for it.
    fn lowest_for(&self, mover: Option<&Peer>, pool: &Pool) -> Option<Addr>
        requires stands { IfSome mover (λ p. peer_of self.now.peers p.now.number ≡ Some p.now) }
        requires own { pool.now ≡ self.now.pool }
        ensures { result ≡ lowest_free (vacated self.now (option_map (λ p. p.now.number) mover.entry)) pool.now }
    {
        let lowest = self.lowest_free(pool);
        let Some(peer) = mover else {
            return lowest;
        };
        self.or_freed(lowest, &peer.address)
    }

    // The address of the pool that a new peer or `mover` takes: the named one, or the lowest that is free.
    pub(crate) fn place(
        &self,
        mover: Option<&Peer>,
        pool: &Pool,
        wanted: Option<Addr>,
    ) -> Result<Addr, Refusal>
        requires stands { IfSome mover (λ p. peer_of self.now.peers p.now.number ≡ Some p.now) }
        requires own { pool.now ≡ self.now.pool }
        ensures { result ≡ place (vacated self.now (option_map (λ p. p.now.number) mover.entry)) pool.now wanted }
    {
        match wanted {
            Some(address) => match self.address_refusal(mover, pool, &address) {
                Some(why) => Err(why),
                None => Ok(address),
            },
            None => self.lowest_for(mover, pool).ok_or(Refusal::PoolFull),
        }
    }

    // The new peer's view, and the change by which it joins.
    pub(crate) fn joined(
        &self,
        alloc: Global,
        peer: Peer,
        removed: Items<u32>,
    ) -> Result<(Reply, Option<Change>), ActFault>
        requires next { peer.number ≡ self.now.next }
        requires left { self.now.next ≤ max_number }
        ensures { MeetsLive false None self.now removed result (joined self.now peer) }
    {
        let mut change = self.putting(alloc, &peer, removed)?;
        change.next = self.next() + 1;
        let routes = Items::new(alloc);
        Ok((Reply::Peer(PeerView { peer, routes }), Some(change)))
    }

    // The peer's view, and the change by which it replaces the one with its number.
    fn replaced(
        &self,
        alloc: Global,
        peer: Peer,
        removed: Items<u32>,
    ) -> Result<(Reply, Option<Change>), ActFault>
        ensures { MeetsLive false None self.now removed result (replaced self.now peer) }
    {
        let routes = self.routes_to(alloc, peer.number)?;
        let change = self.putting(alloc, &peer, removed)?;
        Ok((Reply::Peer(PeerView { peer, routes }), Some(change)))
    }

    // The change that removes these peers and puts this one.
    fn putting(&self, alloc: Global, peer: &Peer, removed: Items<u32>) -> Result<Change, AllocError>
        ensures { IfOk result (λ change. change ≡ record { removed = removed; peers = peer.now ∷ []; routes_put = []; routes_gone = []; next = self.now.next }) }
    {
        let peers = one_item(alloc, peer.copy()?)?;
        Ok(Change {
            removed,
            peers,
            routes_put: Items::new(alloc),
            routes_gone: Items::new(alloc),
            next: self.next(),
        })
    }

    // The peer gets another address.
    pub(crate) fn moved(
        &self,
        alloc: Global,
        number: u32,
        wanted: Option<Addr>,
        removed: Items<u32>,
    ) -> Result<(Reply, Option<Change>), ActFault>
        ensures { MeetsLive false None self.now removed result (move self.now number wanted) }
    {
        let Some(peer) = self.peer(number) else {
            return Err(ActFault::from(Refusal::NoSuchPeer));
        };
        let address = self.place(Some(peer), &self.pool(), wanted)?;
        let mut moved = peer.copy()?;
        moved.address = address;
        self.replaced(alloc, moved, removed)
    }

    // The peer and the routes to it are removed.
    pub(crate) fn revoked(
        &self,
        alloc: Global,
        number: u32,
        mut removed: Items<u32>,
    ) -> Result<(Reply, Option<Change>), ActFault>
        ensures { MeetsLive false (Some number) self.now removed result (revoke self.now number) }
    {
        if self.peer(number).is_none() {
            return Err(ActFault::from(Refusal::NoSuchPeer));
        }
        removed.push(number)?;
        let change = self.removal(alloc, removed);
        Ok((Reply::Revoked(number), Some(change)))
    }

    // The peer's lease ends at another moment.
    pub(crate) fn renewed(
        &self,
        alloc: Global,
        now: u64,
        number: u32,
        until: LeaseEnd,
        removed: Items<u32>,
    ) -> Result<(Reply, Option<Change>), ActFault>
        ensures { MeetsLive false None self.now removed result (renew self.now now number until) }
    {
        let Some(peer) = self.peer(number) else {
            return Err(ActFault::from(Refusal::NoSuchPeer));
        };
        if until.is_expired(now) {
            return Err(ActFault::from(Refusal::LeaseOver));
        }
        let mut renewed = peer.copy()?;
        renewed.until = until;
        self.replaced(alloc, renewed, removed)
    }
}

impl Network {
    /// The lowest address that the pool may give and that nobody holds, whether or not a lease is over.
    pub fn lowest_free(&self, alloc: Global, pool: &Pool) -> Option<Addr>
        ensures { result ≡ lowest_free self.now pool.now }
    {
        lowest_beside(self, pool, &HashSet::new(alloc))
    }
}

// The lowest address of the pool that no peer has, live or expired, and no route except those to the peers
// with these numbers.
fn lowest_beside(network: &Network, pool: &Pool, expired: &HashSet<u32>) -> Option<Addr>
    ensures { result ≡ lowest_where pool.now (λ a. is_own network.now.peers a || is_routed pool.now (standing (contains nat_eq expired.now) network.now.routes) a) }
{
    network.rules_hold();
    let addresses = network.table().addresses();
    lowest_address(pool, addresses, network.routes(), expired)
}

// Whether there is an address and it is below the other, which is of its family.
fn is_below(found: &Option<Addr>, other: &Addr) -> bool
    ensures below { IsTrue result → found.now ≡ Some (lower found.now other.now) }
    ensures not_below { result ≡ false → lower found.now other.now ≡ other.now }
{
    match found {
        Some(address) => address.number() < other.number(),
        None => false,
    }
}
