//! Numbers with limits of their own.
ghost use Rattle.std.specs.Prelude.{◌≡◌, ℕ, ◌<◌, ◌≤◌, ◌↔◌, IsSome, IfSome, IsTrue};
ghost use Rattle.wgr_peers.specs.Limits.{IsPort, IsCapacity, IsLeaseEnd, IsCount, is_expired, kept_count};

use std::marker::Model;

/// The greatest number of a peer.
pub const MAX_NUMBER: u32 = 1_000_000;

/// How many characters a label may have.
pub const MAX_LABEL: usize = 64;

/// How many routes a network may have.
pub const MAX_ROUTES: usize = 4096;

/// A UDP port: 1 to 65,535.
#[derive(Clone, Copy, Debug, PartialEq, Eq)]
pub struct Port {
    number: u16,
}

impl Model for Port {
    ghost Value = { ℕ };

    ghost view = { λ p. p.number };

    ghost invariant = { λ p. IsPort p.number };

    ghost inverse = { λ n. record { number = n } };
}

impl Port {
    /// The port of this number, if it isn't 0.
    pub fn new(number: u16) -> Option<Port>
        ensures valid { IsSome result ↔ IsPort number }
        ensures value { IfSome result (λ p. p ≡ number) }
    {
        if number == 0 {
            return None;
        }
        Some(Port { number })
    }

    /// The number.
    pub fn number(self) -> u16
        ensures value { result ≡ self }
        ensures valid { IsPort self }
    {
        self.number
    }
}

/// How many peers a network may have: 1 to 4,096.
#[derive(Clone, Copy, Debug, PartialEq, Eq)]
pub struct Capacity {
    peers: u16,
}

impl Model for Capacity {
    ghost Value = { ℕ };

    ghost view = { λ c. c.peers };

    ghost invariant = { λ c. IsCapacity c.peers };

    ghost inverse = { λ n. record { peers = n } };
}

impl Capacity {
    /// The greatest capacity.
    pub const MOST: u16 = 4096;

    /// Room for this many peers, if it is 1 to 4,096.
    pub fn new(peers: u16) -> Option<Capacity>
        ensures valid { IsSome result ↔ IsCapacity peers }
        ensures value { IfSome result (λ c. c ≡ peers) }
    {
        if peers == 0 || peers > Capacity::MOST {
            return None;
        }
        Some(Capacity { peers })
    }

    /// The number of peers.
    pub fn peers(self) -> u16
        ensures value { result ≡ self }
        ensures valid { IsCapacity self }
    {
        self.peers
    }
}

/// When a lease ends, in seconds of the clock that the caller keeps: 0 for never, and at most
/// 9,007,199,254,740,991, the greatest whole number that JSON readers keep exactly (RFC 8259,
/// section 6).
#[derive(Clone, Copy, Debug, PartialEq, Eq)]
pub struct LeaseEnd {
    seconds: u64,
}

impl Model for LeaseEnd {
    ghost Value = { ℕ };

    ghost view = { λ e. e.seconds };

    ghost invariant = { λ e. IsLeaseEnd e.seconds };

    ghost inverse = { λ n. record { seconds = n } };
}

impl LeaseEnd {
    /// The end of a lease without one.
    pub fn never() -> LeaseEnd
        ensures { result ≡ 0 }
    {
        LeaseEnd { seconds: 0 }
    }

    /// The end at this second, if it is within the limit.
    pub fn new(seconds: u64) -> Option<LeaseEnd>
        ensures valid { IsSome result ↔ IsLeaseEnd seconds }
        ensures value { IfSome result (λ e. e ≡ seconds) }
    {
        if seconds > 9_007_199_254_740_991 {
            return None;
        }
        Some(LeaseEnd { seconds })
    }

    /// The second at which the lease ends, or 0.
    pub fn seconds(self) -> u64
        ensures value { result ≡ self }
        ensures valid { IsLeaseEnd self }
    {
        self.seconds
    }

    /// Whether the lease has ended by this moment.
    pub fn is_expired(self, now: u64) -> bool
        ensures { result ≡ is_expired now self }
    {
        self.seconds != 0 && self.seconds <= now
    }
}

/// A count or a moment that a running interface shows: at most 9,223,372,036,854,775,807, the
/// greatest number that a database column keeps.
#[derive(Clone, Copy, Debug, PartialEq, Eq)]
pub struct Count {
    value: u64,
}

impl Model for Count {
    ghost Value = { ℕ };

    ghost view = { λ c. c.value };

    ghost invariant = { λ c. IsCount c.value };

    ghost inverse = { λ n. record { value = n } };
}

impl Count {
    /// The count, or the greatest that is kept.
    pub fn new(value: u64) -> Count
        ensures { result ≡ kept_count value }
    {
        if value > 9_223_372_036_854_775_807 {
            return Count {
                value: 9_223_372_036_854_775_807,
            };
        }
        Count { value }
    }

    /// The number.
    pub fn value(self) -> u64
        ensures value { result ≡ self }
        ensures valid { IsCount self }
    {
        self.value
    }
}
