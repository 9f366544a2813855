//! Peers and routes of any order, put in the order of their keys.
ghost use Rattle.std.specs.Prelude.{◌≡◌, ◌↔◌, IsTrue};
ghost use Rattle.std.specs.Ordering.{is_lt};
ghost use Rattle.std.specs.List.Sorted.{IsNonDecreasingBy, IsPermutation, IsSortedBy};
ghost use Rattle.wgr_pool.specs.PrefixTests.{is_before};
ghost use Rattle.wgr_peers.specs.Peers.{AreNumbered};
ghost use Rattle.wgr_peers.specs.Routes.{AreOrdered};

use std::cmp::Ordering;
use wgr_peers::Peer;
use wgr_peers::order::comes_before;
use wgr_text::Prefix;

// Puts peers in the order of their numbers. Those that are in order are not touched.
pub(crate) fn sort_peers(peers: &mut Vec<Peer>)
    ensures same { IsPermutation peers.old.items peers.new.items }
    ensures sorted { IsNonDecreasingBy (λ p. p.number) peers.new.items }
{
    if !are_numbered(peers) {
        peers.sort_unstable_by_key(|peer| peer.number);
    }
}

// Puts routes in the order of their prefixes. Those that are in order are not touched.
pub(crate) fn sort_routes(routes: &mut Vec<(Prefix, u32)>)
    ensures same { IsPermutation routes.old.items routes.new.items }
    ensures sorted { IsSortedBy (λ r s. is_before r.0 s.0) routes.new.items }
{
    if !are_ordered(routes) {
        routes.sort_unstable_by(|one, other| compared(&one.0, &other.0));
    }
}

// Whether each number is below the next one.
fn are_numbered(peers: &[Peer]) -> bool
    ensures { IsTrue result → AreNumbered peers.now }
{
    peers.is_sorted_by(|one, other| one.number < other.number)
}

// Whether each prefix comes before the next one.
pub(crate) fn are_ordered(routes: &[(Prefix, u32)]) -> bool
    ensures { IsTrue result ↔ AreOrdered routes.now }
{
    routes.is_sorted_by(|one, other| comes_before(&one.0, &other.0))
}

// How the two prefixes are ordered.
fn compared(one: &Prefix, other: &Prefix) -> Ordering
    ensures { is_lt result ≡ is_before one.now other.now }
{
    if comes_before(one, other) {
        Ordering::Less
    } else if comes_before(other, one) {
        Ordering::Greater
    } else {
        Ordering::Equal
    }
}
