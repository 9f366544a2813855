//! Pools, and the addresses that they may give.
ghost use Rattle.std.specs.Prelude.{◌≡◌, ℕ, ◌+◌, ◌-◌, ◌*◌, ◌/◌, ◌%◌, ◌^◌, ◌<◌, ◌≤◌, ◌↔◌, IsTrue, IsSome, IfSome, IsOk, IfOk};
ghost use Rattle.wgr_text.specs.Prefix.{AddrValue, PrefixValue, IsAddr, IsPrefix, IsIn, block, width, mask, rank};
ghost use Rattle.wgr_pool.specs.Allot.{is_assignable};
ghost use Rattle.wgr_pool.specs.Pool.{IsPool, IsPoolLength, IsRangeOf, reserved};
ghost use Rattle.wgr_pool.specs.PrefixTests.{covers};

use crate::allot::sibling;
use std::marker::Model;
use wgr_text::{Addr, Family, Prefix, Span};

/// An address and a length that make no pool.
#[derive(Clone, Copy, Debug, PartialEq, Eq)]
pub struct BadPool;

/// The prefix from which a network's addresses are given.
#[derive(Clone, Copy, Debug, PartialEq, Eq)]
pub struct Pool {
    prefix: Prefix,
}

impl Model for Pool {
    ghost Value = { PrefixValue };

    ghost view = { λ p. p.prefix };

    ghost invariant = { λ p. IsPool p.prefix };

    ghost inverse = { λ v. record { prefix = v } };
}

impl Pool {
    /// The pool at this address, of this length.
    pub fn new(address: Addr, length: u8) -> Result<Pool, BadPool>
        ensures is_pool { IsOk result ↔ IsPool (record { address = address; length = length }) }
        ensures value { IfOk result (λ p. p ≡ record { address = address; length = length }) }
    {
        if !is_pool_length(address.family(), length) {
            return Err(BadPool);
        }
        match Prefix::masked(address, length) {
            Some(prefix) if prefix.address() == address => Ok(Pool { prefix }),
            _ => Err(BadPool),
        }
    }

    /// The pool as a prefix.
    pub fn prefix(&self) -> Prefix
        ensures value { result ≡ self.now }
        ensures is_pool { IsPool self.now }
    {
        self.prefix
    }

    // Does nothing. Every pool is of a length that a pool may have.
    fn rules_hold(&self)
        ensures { IsPool self.now }
    {
        let _prefix = self.prefix;
    }

    /// The server's address: the pool's second.
    pub fn server(&self) -> Addr
        ensures value { result ≡ record { family = self.now.address.family; number = self.now.address.number + 1 } }
        ensures fits { IsAddr result }
    {
        let lo = self.prefix.address();
        sibling(&lo, lo.number() + 1)
    }

    /// Whether the address may be given to a peer.
    pub fn gives(&self, address: &Addr) -> bool
        ensures { result ≡ is_assignable self.now address.now }
    {
        self.rules_hold();
        let Span { lo, hi } = self.assignable();
        is_between(address, &lo, &hi)
    }

    /// The first and the last of the addresses that may be given.
    pub fn assignable(&self) -> Span
        ensures { IsRangeOf self.now result.lo result.hi }
    {
        let Span { lo, hi } = self.prefix.span();
        Span {
            lo: sibling(&lo, lo.number() + 2),
            hi: sibling(&lo, hi.number() - reserved(lo.family())),
        }
    }
}

/// Whether each address of `inner` is in `outer`.
pub fn covers(outer: &Prefix, inner: &Prefix) -> bool
    ensures { result ≡ covers outer.now inner.now }
{
    outer.covers(inner)
}

fn is_pool_length(family: Family, length: u8) -> bool
    ensures { IsTrue result ↔ IsPoolLength family length }
{
    match family {
        Family::V4 => 8 <= length && length <= 30,
        Family::V6 => 48 <= length && length <= 126,
    }
}

// How many of a pool's last addresses are never given.
fn reserved(family: Family) -> u128
    ensures { result ≡ reserved family }
{
    match family {
        Family::V4 => 1,
        Family::V6 => 0,
    }
}

fn is_between(address: &Addr, lo: &Addr, hi: &Addr) -> bool
    ensures within { IsTrue result ↔ ((rank lo.now ≤ rank address.now) × (rank address.now ≤ rank hi.now)) }
    ensures fits { IsAddr address.now }
{
    address.rules_hold();
    lo.is_at_most(address) && address.is_at_most(hi)
}
