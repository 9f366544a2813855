//! What is known of a network that isn't in memory.
ghost use Rattle.std.specs.Prelude.{Option, Ok};
ghost use Rattle.wgr_core.specs.Change.{Meets, applied_if};
ghost use Rattle.wgr_core.specs.Network.{IsNetwork, NetworkValue, live_at};
ghost use Rattle.wgr_core.specs.Outcome.{outcome_of};
ghost use Rattle.wgr_core.specs.declared.change.Change.{Change as ChangeValue};
ghost use Rattle.wgr_outline.specs.Outline.{IsFloor, IsOutline};

use std::alloc::Global;
use wgr_core::{Change, Command, Network, Reply};

/// A moment before which no lease of a network ends, and an address below which none is free.
///
/// Both may be lower than they could be. So a network whose outline isn't known may have that of
/// [`Outline::unknown`].
#[derive(Clone, Copy, Debug, PartialEq, Eq)]
pub struct Outline {
    /// The moment, in seconds since 1970-01-01 (UTC).
    pub end: u64,
    /// The address's number, in the family of the pool. All addresses below it that the pool may give
    /// are held, by live or expired peers, and a route in the pool that begins below it ends below it.
    pub floor: u128,
}

impl Outline {
    /// What holds of each network.
    pub fn unknown() -> Outline
        ensures { (n : NetworkValue) → IsOutline result n }
    {
        Outline { end: 0, floor: 0 }
    }

    /// Of this network.
    pub fn of(alloc: Global, network: &Network) -> Outline
        ensures { IsOutline result network.now }
    {
        network.rules_hold();
        let pool = network.pool();
        let floor = match network.lowest_free(alloc, &pool) {
            Some(address) => address.number(),
            None => 0,
        };
        Outline {
            end: network.soonest_end(),
            floor,
        }
    }

    /// An address below which none is free for a new peer at this moment: 0 once a lease may have
    /// ended, since its peer's addresses are free then.
    pub fn floor_at(&self, now: u64) -> u128
        ensures { (n : NetworkValue) → IsNetwork n → IsOutline self.now n → IsFloor (live_at n now) result }
    {
        if now < self.end { self.floor } else { 0 }
    }

    /// Of the network after this answer, if this one is of the network before it.
    pub fn after(
        &self,
        now: u64,
        command: &Command,
        reply: &Reply,
        change: &Option<Change>,
    ) -> Outline
        ensures { (n : NetworkValue) → IsNetwork n → IsOutline self.now n → Meets n (Ok (reply.now, change.now)) (outcome_of n now command.now) → IsOutline result (applied_if change.now n) }
    {
        let Some(change) = change else {
            return *self;
        };
        Outline {
            end: change.soonest_end(self.end),
            floor: self.floor_after(now, command, reply),
        }
    }

    // Where a new peer took the lowest free address, none below it is free. Where another joined, no
    // address became free. What else happened may have freed any.
    fn floor_after(&self, now: u64, command: &Command, reply: &Reply) -> u128
        ensures { (n : NetworkValue) (change : Option ChangeValue) → IsNetwork n → IsOutline self.now n → Meets n (Ok (reply.now, change)) (outcome_of n now command.now) → IsFloor (applied_if change n) result }
    {
        let Command::Add { address, .. } = command else {
            return 0;
        };
        match (address, reply) {
            (None, Reply::Peer(view)) => view.peer.address.number(),
            _ => self.floor_at(now),
        }
    }
}
