//! What a line of a dump requests from a network.
ghost use Rattle.std.specs.Prelude.{◌≡◌, ◌<◌, length, slice_index_or, option_map, IfSome};
ghost use Rattle.wgr_core.specs.Adoption.{keyed_peer, named_address, names_address};
ghost use Rattle.wgr_core.specs.Draft.{MeetsAddress, is_asked_for, line_address};
ghost use Rattle.wgr_core.specs.Refusals.{join_refusal, place, route_refusal};
ghost use Rattle.wgr_peers.specs.declared.peer.Peer.{Peer};

use crate::draft::Draft;
use crate::fault::AdoptFault;
use crate::joining::{Joining, address_refusal, route_refusal};
use crate::refusal::Refusal;
use crate::routes::is_address;
use crate::seen_peer::SeenPeer;
use std::alloc::{AllocError, Global};
use wgr_peers::order::peer_place;
use wgr_peers::{LeaseEnd, MAX_ROUTES, PeerDraft};
use wgr_pool::Pool;
use wgr_text::{Addr, Key, Prefix};

// The first of the prefixes that is one address which the pool may give.
fn named_address(pool: &Pool, allowed: &[Prefix]) -> Option<Addr>
    ensures { result ≡ named_address pool.now allowed.now }
{
    for prefix in allowed {
        let address = prefix.address();
        if prefix.length() == address.family().width() && pool.gives(&address) {
            return Some(address);
        }
    }
    None
}

// Whether the line names an address, or where `naming` is false, whether it names none.
pub(crate) fn is_asked_for(pool: &Pool, line: &SeenPeer, naming: bool) -> bool
    ensures { result ≡ is_asked_for naming (names_address pool.now line.now) }
{
    let names = named_address(pool, line.allowed.as_slice()).is_some();
    if naming { names } else { !names }
}

// The prefixes that the lines are to lead to their peers: all but the addresses that they name.
pub(crate) fn expected_routes(
    alloc: Global,
    pool: &Pool,
    lines: &[SeenPeer],
) -> Result<Vec<Prefix>, AllocError> {
    let mut expected = Vec::new(alloc);
    for line in lines {
        let allowed = line.allowed.as_slice();
        let own = named_address(pool, allowed).map(|address| Prefix::full(address));
        for prefix in allowed {
            if own != Some(*prefix) {
                expected.push(*prefix)?;
            }
        }
    }
    Ok(expected)
}

// The place of the peer that has the key.
pub(crate) fn keyed_place(peers: &PeerDraft, key: &Key) -> Option<usize>
    ensures value { (d : Peer) → keyed_peer peers.now key.now ≡ option_map (λ at. slice_index_or peers.now at d) result }
    ensures within { IfSome result (λ at. at < length peers.now) }
{
    match peers.key_holder(key) {
        Some(number) => match peer_place(peers.as_slice(), number) {
            Ok(place) => Some(place),
            Err(_) => None,
        },
        None => None,
    }
}

impl Draft<'_> {
    // The address that a new peer of the line takes.
    pub(crate) fn line_address(
        &mut self,
        alloc: Global,
        line: &SeenPeer,
    ) -> Result<Addr, AdoptFault>
        ensures place { MeetsAddress result (line_address self.old.network line.now) }
        ensures same { self.new ≡ self.old }
    {
        if let Some(why) = self.join_refusal(&line.key) {
            return Err(AdoptFault::Refused(why));
        }
        let pool = self.start.pool();
        let named = named_address(&pool, line.allowed.as_slice());
        self.place(alloc, &pool, named)
    }

    // Why no peer with this key, whose lease has no end, may join.
    fn join_refusal(&self, key: &Key) -> Option<Refusal>
        ensures { result ≡ join_refusal self.now.network 0 key.now 0 }
    {
        let joining = Joining {
            server: self.start.server_key(),
            key_holder: self.peers.key_holder(key),
            has_room: self.peers.len() < usize::from(self.start.capacity().peers()),
            next: self.next(),
        };
        joining.refusal(0, key, LeaseEnd::never())
    }

    // The named address of the pool, or the lowest that is free.
    fn place(&mut self, alloc: Global, pool: &Pool, named: Option<Addr>) -> Result<Addr, AdoptFault>
        ensures place { MeetsAddress result (place self.old.network pool.now named) }
        ensures same { self.new ≡ self.old }
    {
        let Some(address) = named else {
            let lowest = self.peers.lowest_free(alloc, pool, &self.routes)?;
            return lowest.ok_or(AdoptFault::Refused(Refusal::PoolFull));
        };
        let is_route = self.routes.route(&Prefix::full(address)).is_some();
        let is_taken = self.peers.owns(&address) || is_route;
        match address_refusal(pool, &address, is_taken) {
            Some(why) => Err(AdoptFault::Refused(why)),
            None => Ok(address),
        }
    }

    // Why the prefix can't be a route.
    pub(crate) fn route_refusal(&self, prefix: &Prefix) -> Option<Refusal>
        ensures { result ≡ route_refusal self.now.network prefix.now }
    {
        self.rules_hold();
        let is_owned = self.peers.owns(&prefix.address());
        let is_address = is_address(&self.start.pool(), prefix, is_owned);
        let is_full = self.routes.len() >= MAX_ROUTES;
        route_refusal(is_address, self.routes.route(prefix), is_full)
    }
}
