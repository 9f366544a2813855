//! Addresses that routes hold.
ghost use Rattle.std.specs.Prelude.{◌≡◌, ◌≤◌, true, is_some};
ghost use Rattle.wgr_text.specs.Prefix.{width, mask};
ghost use Rattle.wgr_pool.specs.HeldSpans.{is_routed};
ghost use Rattle.wgr_pool.specs.PrefixTests.{full, has};
ghost use Rattle.wgr_peers.specs.Routes.{route_of};

use crate::live::Live;
use wgr_text::{Addr, Prefix};

impl Live<'_> {
    // Whether the address alone is a route.
    pub(crate) fn is_route_at(&self, address: &Addr) -> bool
        ensures { result ≡ is_some (route_of self.now.routes (full address.now)) }
    {
        self.route(&Prefix::full(*address)).is_some()
    }

    // Whether a route that lies wholly in the pool has this address of the pool.
    pub(crate) fn is_routed(&self, address: &Addr) -> bool
        requires { has self.now.pool address.now ≡ true }
        ensures { result ≡ is_routed self.now.pool self.now.routes address.now }
    {
        for length in self.pool().prefix().length()..=address.family().width() {
            if self.is_route_of_length(address, length) {
                return true;
            }
        }
        false
    }

    // Whether the prefix of this length that has the address is a route.
    fn is_route_of_length(&self, address: &Addr, length: u8) -> bool
        requires { length ≤ width address.now.family }
        ensures { result ≡ is_some (route_of self.now.routes (mask address.now length)) }
    {
        match Prefix::masked(*address, length) {
            Some(prefix) => self.route(&prefix).is_some(),
            None => false,
        }
    }
}
