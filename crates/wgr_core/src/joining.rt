//! Why a new peer, an address or a route is refused: of a command on a network in memory or on its rows,
//! and of a line of a dump.
ghost use Rattle.std.specs.Prelude.{◌≡◌, not, nat_lt, is_some, length};
ghost use Rattle.wgr_text.specs.Prefix.{PrefixValue};
ghost use Rattle.wgr_peers.specs.Limits.{max_routes};
ghost use Rattle.wgr_peers.specs.Routes.{route_of};
ghost use Rattle.wgr_core.specs.Network.{NetworkValue, is_address};
ghost use Rattle.wgr_core.specs.Refusals.{address_refusal, is_address_taken, joining_refusal, route_refusal};

use crate::refusal::Refusal;
use wgr_peers::{LeaseEnd, MAX_NUMBER};
use wgr_pool::Pool;
use wgr_text::{Addr, Key};

/// What decides whether a peer with a certain key may join a network.
#[derive(Drop)]
pub struct Joining {
    /// The server's public key.
    pub server: Key,
    /// The number of the live peer that has the key.
    pub key_holder: Option<u32>,
    /// Whether there are fewer live peers than the network may have.
    pub has_room: bool,
    /// The number that the next peer gets.
    pub next: u32,
}

impl Joining {
    /// Why no peer with this key and this end of its lease may join at this moment.
    pub fn refusal(&self, now: u64, key: &Key, until: LeaseEnd) -> Option<Refusal>
        ensures { result ≡ joining_refusal self.now now key.now until }
    {
        if *key == self.server {
            return Some(Refusal::ServerKey);
        }
        if let Some(number) = self.key_holder {
            return Some(Refusal::KeyHeld { number });
        }
        if until.is_expired(now) {
            return Some(Refusal::LeaseOver);
        }
        if !self.has_room {
            return Some(Refusal::CapacityReached);
        }
        if self.next > MAX_NUMBER {
            return Some(Refusal::NumbersSpent);
        }
        None
    }
}

/// Why the named address of this pool can't be taken. `taken` says whether it is a live peer's own, or a
/// route at full length.
pub fn address_refusal(pool: &Pool, address: &Addr, taken: bool) -> Option<Refusal>
    ensures { (n : NetworkValue) → is_address_taken n address.now ≡ taken → result ≡ address_refusal n pool.now address.now }
{
    if !pool.gives(address) {
        return Some(Refusal::OutsidePool);
    }
    if taken {
        return Some(Refusal::AddressHeld);
    }
    None
}

// Why a prefix can't be a route: whether it is an address of a peer or of the server, the peer to which it
// leads already, and whether there are as many routes as a network may have.
pub(crate) fn route_refusal(
    names_address: bool,
    leads_to: Option<u32>,
    is_full: bool,
) -> Option<Refusal>
    ensures { (n : NetworkValue) (prefix : PrefixValue) → is_address n prefix ≡ names_address → route_of n.routes prefix ≡ leads_to → not (nat_lt (length n.routes) max_routes) ≡ is_full → result ≡ route_refusal n prefix }
{
    if names_address {
        return Some(Refusal::IsAddress);
    }
    if leads_to.is_none() && is_full {
        return Some(Refusal::RoutesFull);
    }
    None
}
