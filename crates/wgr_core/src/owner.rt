//! The peer that has an address: the longest allowed prefix with it leads there.
ghost use Rattle.std.specs.Prelude.{◌≡◌, Some, option_map};
ghost use Rattle.wgr_core.specs.Owner.{longest_match, longer, owner_of, own_prefixes};

use crate::live::{Live, is_same};
use wgr_peers::Peer;
use wgr_text::{Addr, Prefix};

impl Live<'_> {
    // The live peer to which the longest allowed prefix with the address leads.
    pub(crate) fn owner(&self, address: &Addr) -> Option<u32>
        ensures { result ≡ owner_of self.now address.now }
    {
        // No route is longer than a peer's own address, and of equals the peer's comes first.
        if self.owns(address) {
            return own_holder(self.network.peers(), address);
        }
        let (_, number) = self.longest_route(address)?;
        Some(number)
    }

    // The longest of the routes that has the address.
    fn longest_route(&self, address: &Addr) -> Option<(Prefix, u32)>
        ensures { result ≡ longest_match self.now.routes address.now }
    {
        let mut longest = None;
        for route in self.network.routes() {
            if route.0.contains(address) && self.peer(route.1).is_some() {
                longest = longer(longest, *route);
            }
        }
        longest
    }
}

// The number of the peer that has the address as its first.
fn own_holder(peers: &[Peer], address: &Addr) -> Option<u32>
    ensures { result ≡ option_map (λ r. r.1) (longest_match (own_prefixes peers.now) address.now) }
{
    for peer in peers {
        if is_same(&peer.address, address) {
            return Some(peer.number);
        }
    }
    None
}

// The longer of what is found and one more route; of two with equal length the first.
fn longer(found: Option<(Prefix, u32)>, route: (Prefix, u32)) -> Option<(Prefix, u32)>
    ensures { result ≡ longer found (Some route) }
{
    match found {
        Some(first) if first.0.length() >= route.0.length() => Some(first),
        _ => Some(route),
    }
}
