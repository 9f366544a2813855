//! Peers in the order of their numbers, and routes in the order of their prefixes.
ghost use Rattle.std.specs.Prelude.{◌≡◌, ℕ, ◌<◌, ◌≤◌, ◌↔◌, nat_eq, nat_lt, not, IsTrue, IsSome, IsOk, OnOk, OnErr, All};
ghost use Rattle.std.specs.List.{filter};
ghost use Rattle.wgr_text.specs.Prefix.{IsAddr};
ghost use Rattle.wgr_peers.specs.Ordered.{EndsAt};
ghost use Rattle.wgr_peers.specs.Peers.{AreNumbered, peer_of, put_peer};
ghost use Rattle.wgr_pool.specs.PrefixTests.{is_before, same_prefix};
ghost use Rattle.wgr_peers.specs.Routes.{AreOrdered, HasAddr, assign_route, route_of, without_route};

use crate::peer::Peer;
use std::alloc::AllocError;
use wgr_text::Prefix;

/// The place of the peer with this number, or else the place that it would have.
pub fn peer_place(peers: &[Peer], number: u32) -> Result<usize, usize>
    requires { AreNumbered peers.now }
    ensures { EndsAt (λ p. nat_lt p.number number) (λ p. nat_eq p.number number) peers.now result }
{
    let place = peers.partition_point(|peer| peer.number < number);
    if place < peers.len() && peers[place].number == number {
        Ok(place)
    } else {
        Err(place)
    }
}

/// Whether all numbers are below this one.
pub(crate) fn are_below(peers: &[Peer], number: u32) -> bool
    requires { AreNumbered peers.now }
    ensures { IsTrue result ↔ All (λ p. p.number < number) peers.now }
{
    match peers.last() {
        Some(last) => last.number < number,
        None => true,
    }
}

/// Puts a peer in its place, replacing the peer with its number if there is one, which allocates no
/// memory; if memory runs out, the peers are unchanged.
pub fn put_peer(peers: &mut Vec<Peer>, peer: Peer) -> Result<(), AllocError>
    requires { AreNumbered peers.old.items }
    ensures put { OnOk result (peers.new.items ≡ put_peer peers.old.items peer) }
    ensures numbered { OnOk result (AreNumbered peers.new.items) }
    ensures err { OnErr result (peers.new.items ≡ peers.old.items) }
    ensures succeeds { IsSome (peer_of peers.old.items peer.number) → IsOk result }
{
    match peer_place(peers, peer.number) {
        Ok(place) => peers[place] = peer,
        Err(place) => peers.insert(place, peer)?,
    }
    Ok(())
}

/// Whether the one prefix comes before the other: IPv4 before IPv6, then by address, then by
/// length.
pub fn comes_before(one: &Prefix, other: &Prefix) -> bool
    ensures { result ≡ is_before one.now other.now }
{
    let (first, second) = (one.address(), other.address());
    !second.is_at_most(&first) || (first.is_at_most(&second) && one.length() < other.length())
}

/// Whether the two prefixes are the same.
pub fn is_same(one: &Prefix, other: &Prefix) -> bool
    ensures { result ≡ same_prefix one.now other.now }
{
    one == other
}

/// The place of the prefix's route, or else the place that it would have.
pub fn route_place(routes: &[(Prefix, u32)], prefix: &Prefix) -> Result<usize, usize>
    requires ordered { AreOrdered routes.now }
    ensures found { EndsAt (λ r. is_before r.0 prefix.now) (λ r. same_prefix r.0 prefix.now) routes.now result }
    ensures masked { IsAddr prefix.now.address }
{
    prefix.rules_hold();
    let place = routes.partition_point(|route| comes_before(&route.0, prefix));
    if place < routes.len() && is_same(&routes[place].0, prefix) {
        Ok(place)
    } else {
        Err(place)
    }
}

/// Leads a prefix to the peer with this number; if memory runs out, the routes are unchanged. A prefix
/// that already leads to a peer needs no memory.
pub fn put_route(
    routes: &mut Vec<(Prefix, u32)>,
    prefix: Prefix,
    number: u32,
) -> Result<(), AllocError>
    requires ordered { AreOrdered routes.old.items }
    requires masked { All HasAddr routes.old.items }
    ensures put { OnOk result (routes.new.items ≡ assign_route routes.old.items prefix number) }
    ensures ordered { OnOk result (AreOrdered routes.new.items) }
    ensures masked { OnOk result (All HasAddr routes.new.items) }
    ensures err { OnErr result (routes.new.items ≡ routes.old.items) }
    ensures succeeds { IsSome (route_of routes.old.items prefix) → IsOk result }
{
    match route_place(routes, &prefix) {
        Ok(place) => routes[place] = (prefix, number),
        Err(place) => routes.insert(place, (prefix, number))?,
    }
    Ok(())
}

/// Removes the route of a prefix, if there is one.
pub fn drop_route(routes: &mut Vec<(Prefix, u32)>, prefix: &Prefix)
    requires { AreOrdered routes.old.items }
    ensures { routes.new.items ≡ without_route routes.old.items prefix.now }
{
    if let Ok(place) = route_place(routes, prefix) {
        routes.remove(place);
    }
}

// Whether the route leads to the peer with this number.
fn leads_to(route: &(Prefix, u32), number: u32) -> bool
    ensures { result ≡ nat_eq route.now.1 number }
{
    route.1 == number
}

/// Removes the routes to the peer with this number.
pub fn drop_routes_to(routes: &mut Vec<(Prefix, u32)>, number: u32)
    ensures { routes.new.items ≡ filter (λ r. not (nat_eq r.1 number)) routes.old.items }
{
    routes.retain(|route| !leads_to(route, number));
}
