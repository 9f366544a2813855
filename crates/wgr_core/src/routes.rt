//! The commands on routes, and the routes to a peer.
ghost use Rattle.std.specs.Prelude.{◌≡◌, ℕ, false, List, map, nat_eq, Some, None, Err, IfOk, IfErr};
ghost use Rattle.std.specs.List.{filter};
ghost use Rattle.wgr_core.specs.Change.{MeetsLive};
ghost use Rattle.wgr_core.specs.Network.{AreAlone, NetworkValue, is_address};
ghost use Rattle.wgr_core.specs.Outcome.{route, unroute};
ghost use Rattle.wgr_core.specs.Refusals.{route_refusal};
ghost use Rattle.wgr_peers.specs.Peers.{is_own, peer_of};
ghost use Rattle.wgr_peers.specs.Routes.{assign_route, route_of, routes_to, without_route};

use crate::change::Change;
use crate::fault::ActFault;
use crate::joining::route_refusal;
use crate::live::{Live, one_item};
use crate::network::Network;
use crate::refusal::Refusal;
use crate::reply::{PeerView, Reply};
use crate::views::view_with;
use std::alloc::{AllocError, Global};
use wgr_peers::Items;
use wgr_peers::order::{drop_route, is_same, put_route, route_place};
use wgr_pool::Pool;
use wgr_text::Prefix;

impl Live<'_> {
    // The prefix leads to the peer from now on.
    pub(crate) fn routed(
        &self,
        alloc: Global,
        number: u32,
        prefix: Prefix,
        removed: Items<u32>,
    ) -> Result<(Reply, Option<Change>), ActFault>
        ensures { MeetsLive false None self.now removed result (route self.now number prefix) }
    {
        let view = self.routed_view(alloc, number, prefix)?;
        let routes_put = one_item(alloc, (prefix, number))?;
        let change = Change {
            removed,
            peers: Items::new(alloc),
            routes_put,
            routes_gone: Items::new(alloc),
            next: self.next(),
        };
        Ok((Reply::Peer(view), Some(change)))
    }

    // The view of the peer once the prefix leads to it.
    fn routed_view(&self, alloc: Global, number: u32, prefix: Prefix) -> Result<PeerView, ActFault>
        ensures ok { IfOk result (λ view. (peer_of self.now.peers number ≡ Some view.peer) × (route_refusal self.now prefix ≡ None) × (view.routes ≡ map (λ r. r.0) (assign_route (filter (λ r. nat_eq r.1 number) self.now.routes) prefix number))) }
        ensures err { IfErr result (λ why. (gone : List ℕ) → MeetsLive false None self.now gone (Err why) (route self.now number prefix)) }
    {
        let Some(peer) = self.peer(number) else {
            return Err(ActFault::from(Refusal::NoSuchPeer));
        };
        if let Some(why) = self.route_refusal(&prefix) {
            return Err(ActFault::from(why));
        }
        self.rules_hold();
        let mut own = self.own_routes(alloc, number)?;
        put_route(&mut own, prefix, number)?;
        Ok(view_with(alloc, peer, &own)?)
    }

    // The route of exactly this prefix is removed.
    pub(crate) fn unrouted(
        &self,
        alloc: Global,
        prefix: &Prefix,
        removed: Items<u32>,
    ) -> Result<(Reply, Option<Change>), ActFault>
        ensures { MeetsLive false None self.now removed result (unroute self.now prefix.now) }
    {
        let view = self.unrouted_view(alloc, prefix)?;
        let routes_gone = one_item(alloc, *prefix)?;
        let change = Change {
            removed,
            peers: Items::new(alloc),
            routes_put: Items::new(alloc),
            routes_gone,
            next: self.next(),
        };
        Ok((Reply::Peer(view), Some(change)))
    }

    // The view of the peer to which the prefix leads, once it no longer does. The definition has a case
    // for a route to no peer too, which no network has.
    fn unrouted_view(&self, alloc: Global, prefix: &Prefix) -> Result<PeerView, ActFault>
        ensures ok { IfOk result (λ view. (number : ℕ) × (route_of self.now.routes prefix.now ≡ Some number) × (peer_of self.now.peers number ≡ Some view.peer) × (view.routes ≡ map (λ r. r.0) (without_route (filter (λ r. nat_eq r.1 number) self.now.routes) prefix.now))) }
        ensures err { IfErr result (λ why. (gone : List ℕ) → MeetsLive false None self.now gone (Err why) (unroute self.now prefix.now)) }
    {
        let Some(number) = self.route(prefix) else {
            return Err(ActFault::from(Refusal::NoSuchRoute));
        };
        let Some(peer) = self.peer(number) else {
            return Err(ActFault::from(Refusal::NoSuchPeer));
        };
        self.rules_hold();
        let mut own = self.own_routes(alloc, number)?;
        drop_route(&mut own, prefix);
        Ok(view_with(alloc, peer, &own)?)
    }

    // Why the prefix can't be a route.
    fn route_refusal(&self, prefix: &Prefix) -> Option<Refusal>
        ensures { result ≡ route_refusal self.now prefix.now }
    {
        route_refusal(self.is_address(prefix), self.route(prefix), self.is_full())
    }

    // Whether the prefix is the address of a live peer, or the server's.
    fn is_address(&self, prefix: &Prefix) -> bool
        ensures { result ≡ is_address self.now prefix.now }
    {
        self.rules_hold();
        is_address(&self.pool(), prefix, self.owns(&prefix.address()))
    }
}

impl Network {
    /// The prefixes that lead to the peer with this number.
    pub fn routes_to(&self, alloc: Global, number: u32) -> Result<Items<Prefix>, AllocError>
        ensures { IfOk result (λ routes. routes ≡ routes_to self.now.routes number) }
    {
        prefixes_of(alloc, &self.own_routes(alloc, number)?)
    }

    // The routes that lead to the peer with this number.
    pub(crate) fn own_routes(
        &self,
        alloc: Global,
        number: u32,
    ) -> Result<Vec<(Prefix, u32)>, AllocError>
        ensures { IfOk result (λ own. own.items ≡ filter (λ r. nat_eq r.1 number) self.now.routes) }
    {
        let mut own = Vec::new(alloc);
        for route in &self.routes {
            if route.1 == number {
                own.push(*route)?;
            }
        }
        Ok(own)
    }

    /// The peer to which this prefix leads.
    pub fn route(&self, prefix: &Prefix) -> Option<u32>
        ensures { result ≡ route_of self.now.routes prefix.now }
    {
        match route_place(&self.routes, prefix) {
            Ok(place) => Some(self.routes[place].1),
            Err(_) => None,
        }
    }
}

// Whether the prefix is the server's address or a peer's; `is_owned` says whether a peer has the
// prefix's address.
pub(crate) fn is_address(pool: &Pool, prefix: &Prefix, is_owned: bool) -> bool
    ensures { (n : NetworkValue) → AreAlone n.peers → n.pool ≡ pool.now → is_own n.peers prefix.now.address ≡ is_owned → result ≡ is_address n prefix.now }
{
    (is_owned && is_same(prefix, &Prefix::full(prefix.address())))
        || is_same(prefix, &Prefix::full(pool.server()))
}

// The prefixes of these routes.
pub(crate) fn prefixes_of(
    alloc: Global,
    routes: &[(Prefix, u32)],
) -> Result<Items<Prefix>, AllocError>
    ensures { IfOk result (λ prefixes. prefixes ≡ map (λ r. r.0) routes.now) }
{
    let mut prefixes = Items::new(alloc);
    for route in routes {
        prefixes.push(route.0)?;
    }
    Ok(prefixes)
}
