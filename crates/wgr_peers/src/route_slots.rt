//! Routes with room at the prefixes that are expected.
ghost use Rattle.std.specs.Prelude.{◌≡◌, ◌↔◌, ◌⊎◌, [], length, Bool, true, false, nat_eq, IsSome, IsOk, IfOk, OnOk, OnErr, All};
ghost use Rattle.std.specs.HashSet.{contains};
ghost use Rattle.wgr_text.specs.Prefix.{AddrValue, IsAddr};
ghost use Rattle.wgr_pool.specs.Allot.{lowest_where};
ghost use Rattle.wgr_pool.specs.HeldSpans.{is_routed};
ghost use Rattle.wgr_pool.specs.Spans.{IsHeld};
ghost use Rattle.wgr_peers.specs.Routes.{AreOrdered, assign_route, route_of};
ghost use Rattle.wgr_peers.specs.RouteSlots.{AreSlots, filled};

use crate::order::{comes_before, put_route, route_place};
use std::alloc::{AllocError, Global};
use std::collections::HashSet;
use std::marker::Model;
use wgr_pool::{AddressSet, Pool, lowest_address};
use wgr_text::{Addr, Prefix};

/// Routes in the order of their prefixes, with vacant slots for prefixes that are expected, so that
/// a route that is added there moves no other. A prefix that wasn't expected is only slower.
#[derive(Drop)]
pub struct RouteSlots {
    slots: Vec<(Prefix, u32)>,
    // How many slots aren't vacant.
    count: usize,
    // The numbers of vacant slots: 0, which is no peer's, or none once a route leads even there.
    vacant: HashSet<u32>,
}

impl Model for RouteSlots {
    ghost use Rattle.std.specs.Prelude.{◌≡◌, length};
    ghost use Rattle.wgr_peers.specs.Routes.{Routes};
    ghost use Rattle.wgr_peers.specs.RouteSlots.{AreSlots, filled};

    ghost Value = { Routes };

    ghost view = { λ s. filled s.vacant s.slots.items };

    ghost invariant = { λ s. AreSlots s.slots.items × (s.count ≡ length (filled s.vacant s.slots.items)) };
}

impl RouteSlots {
    /// These routes, with slots for these prefixes too.
    pub fn new(
        alloc: Global,
        routes: &[(Prefix, u32)],
        mut expected: Vec<Prefix>,
    ) -> Result<RouteSlots, AllocError>
        requires { AreOrdered routes.now }
        ensures { IfOk result (λ made. made ≡ routes.now) }
    {
        expected.extend(routes.iter().map(|route| route.0))?;
        let mut made = RouteSlots::vacant(alloc, expected)?;
        for route in routes {
            made.put(route.0, route.1)?;
        }
        Ok(made)
    }

    // No routes, with slots for these prefixes.
    fn vacant(alloc: Global, mut expected: Vec<Prefix>) -> Result<RouteSlots, AllocError>
        ensures { IfOk result (λ made. made ≡ []) }
    {
        expected.sort_unstable_by_key(|prefix| (prefix.address(), prefix.length()));
        let mut slots = Vec::new(alloc);
        for prefix in &expected {
            push_vacant(&mut slots, *prefix)?;
        }
        let mut vacant = HashSet::new(alloc);
        vacant.insert(0)?;
        Ok(RouteSlots {
            slots,
            count: 0,
            vacant,
        })
    }

    /// How many routes there are.
    pub fn len(&self) -> usize
        ensures { result ≡ length self.now }
    {
        self.count
    }

    /// The number to which the prefix leads.
    pub fn route(&self, prefix: &Prefix) -> Option<u32>
        ensures { result ≡ route_of self.now prefix.now }
    {
        slot_number(&self.slots, &self.vacant, prefix)
    }

    /// Leads a prefix to the peer with this number; if memory runs out, the routes are unchanged. A
    /// prefix that already leads to a peer needs no memory.
    pub fn put(&mut self, prefix: Prefix, number: u32) -> Result<(), AllocError>
        ensures ok { OnOk result (self.new ≡ assign_route self.old prefix number) }
        ensures err { OnErr result (self.new ≡ self.old) }
        ensures succeeds { IsSome (route_of self.old prefix) → IsOk result }
    {
        let (_address, _length) = (prefix.address(), prefix.length());
        reserve_number(&mut self.slots, &mut self.vacant, number);
        let is_new = slot_number(&self.slots, &self.vacant, &prefix).is_none();
        put_route(&mut self.slots, prefix, number)?;
        if is_new {
            self.count += 1;
        }
        Ok(())
    }

    /// The lowest address of the pool that may be given and that neither the set has nor a route
    /// that lies wholly in the pool.
    pub fn lowest_free(&self, pool: &Pool, addresses: &AddressSet) -> Option<Addr>
        ensures { (taken : AddrValue → Bool) → ((b : AddrValue) → IsAddr b → (taken b ≡ true) ↔ (IsHeld addresses.now b ⊎ (is_routed pool.now self.now b ≡ true))) → result ≡ lowest_where pool.now taken }
    {
        lowest_address(pool, addresses, &self.slots, &self.vacant)
    }

    /// The routes in the order of their prefixes.
    pub fn into_routes(self) -> Vec<(Prefix, u32)>
        ensures { result.items ≡ self }
    {
        let RouteSlots {
            mut slots,
            vacant,
            ..
        } = self;
        drop_vacant(&mut slots, &vacant);
        slots
    }
}

// Appends a vacant slot, unless the last one comes no earlier.
fn push_vacant(slots: &mut Vec<(Prefix, u32)>, prefix: Prefix) -> Result<(), AllocError>
    requires slots { AreSlots slots.old.items }
    requires vacant { All (λ s. s.1 ≡ 0) slots.old.items }
    ensures slots { OnOk result (AreSlots slots.new.items) }
    ensures vacant { OnOk result (All (λ s. s.1 ≡ 0) slots.new.items) }
{
    let (_address, _length) = (prefix.address(), prefix.length());
    let is_last = match slots.last() {
        Some(last) => comes_before(&last.0, &prefix),
        None => true,
    };
    if is_last {
        slots.push((prefix, 0))?;
    }
    Ok(())
}

// The number of the prefix's slot, unless there is none or it is vacant.
fn slot_number(slots: &[(Prefix, u32)], vacant: &HashSet<u32>, prefix: &Prefix) -> Option<u32>
    requires { AreSlots slots.now }
    ensures { result ≡ route_of (filled vacant.now slots.now) prefix.now }
{
    let Ok(place) = route_place(slots, prefix) else {
        return None;
    };
    let number = slots[place].1;
    if vacant.contains(&number) {
        return None;
    }
    Some(number)
}

// Removes the vacant slots.
fn drop_vacant(slots: &mut Vec<(Prefix, u32)>, vacant: &HashSet<u32>)
    ensures { slots.new.items ≡ filled vacant.now slots.old.items }
{
    slots.retain(|slot| !vacant.contains(&slot.1));
}

// If vacant slots have this number, removes them, so that it is left to a peer.
fn reserve_number(slots: &mut Vec<(Prefix, u32)>, vacant: &mut HashSet<u32>, number: u32)
    requires { AreSlots slots.old.items }
    ensures slots { AreSlots slots.new.items }
    ensures same { filled vacant.new slots.new.items ≡ filled vacant.old slots.old.items }
    ensures reserved { contains nat_eq vacant.new number ≡ false }
{
    if vacant.contains(&number) {
        drop_vacant(slots, vacant);
        vacant.clear();
    }
}
