//! Prefixes as sets of addresses.
ghost use Rattle.std.specs.Prelude.{◌≡◌, ℕ, ◌+◌, ◌-◌, ◌*◌, ◌/◌, ◌%◌, ◌^◌, ◌<◌, ◌≤◌, ◌↔◌, IsTrue, IsSome, IfSome};
ghost use Rattle.wgr_text.specs.Prefix.{AddrValue, PrefixValue, IsAddr, IsPrefix, IsIn, Covers, AreDisjoint, block, width, mask, IsSpanOf, IsEndsOf};

use crate::addr::{Addr, Family};
use std::marker::Model;

/// A set of addresses that agree in their first bits.
#[derive(Clone, Copy, Debug, PartialEq, Eq)]
pub struct Prefix {
    address: Addr,
    length: u8,
}

impl Model for Prefix {
    ghost Value = { PrefixValue };

    ghost view = { λ p. record { address = p.address; length = p.length } };

    ghost invariant = { λ p. (p.length ≤ width p.address.family) × (p.address.number % block p.address.family p.length ≡ 0) × IsAddr p.address };

    ghost inverse = { λ v. record { address = v.address; length = v.length } };
}

/// The addresses from one to another.
#[derive(Clone, Copy, Debug, PartialEq, Eq)]
pub struct Span {
    pub lo: Addr,
    pub hi: Addr,
}

impl Prefix {
    /// The prefix of this length that has the address, where the family has that length.
    pub fn masked(address: Addr, length: u8) -> Option<Prefix>
        ensures fits { IsSome result ↔ (length ≤ width address.family) }
        ensures value { IfSome result (λ p. p ≡ mask address length) }
        ensures has_address { IfSome result (λ p. IsPrefix p × IsIn p address) }
    {
        let width = address.family().width();
        if length > width {
            return None;
        }
        let number = first_of_block(address.number(), width - length);
        let address = Addr::new(address.family(), number)?;
        Some(Prefix { address, length })
    }

    /// The address alone, as a prefix of full length.
    pub fn full(address: Addr) -> Prefix
        ensures { result ≡ record { address = address; length = width address.family } }
    {
        address.rules_hold();
        Prefix {
            address,
            length: address.family().width(),
        }
    }

    /// The first address.
    pub fn address(&self) -> Addr
        ensures value { result ≡ self.now.address }
        ensures fits { IsAddr result }
    {
        self.address
    }

    /// How many bits the addresses share.
    pub fn length(&self) -> u8
        ensures value { result ≡ self.now.length }
        ensures fits { IsPrefix self.now }
    {
        self.length
    }

    /// Does nothing. Every prefix is masked and no longer than its family has bits, and its address fits.
    pub fn rules_hold(&self)
        ensures prefix { IsPrefix self.now }
        ensures address { IsAddr self.now.address }
    {
        let _length = self.length;
    }

    /// Whether the prefix has the address.
    pub fn contains(&self, address: &Addr) -> bool
        ensures { IsTrue result ↔ IsIn self.now address.now }
    {
        let host = self.address.family().width() - self.length;
        self.address.family() == address.family()
            && same_above(self.address.number(), address.number(), host)
    }

    /// The first and the last address.
    pub fn span(&self) -> Span
        ensures set { IsSpanOf self.now result.lo result.hi }
        ensures ends { IsEndsOf self.now result.lo result.hi }
    {
        let family = self.address.family();
        let last = self.address.number() + low_bits(family.width() - self.length);
        match Addr::new(family, last) {
            Some(hi) => Span {
                lo: self.address,
                hi,
            },
            None => Span {
                lo: self.address,
                hi: self.address,
            },
        }
    }

    /// Whether each address of `other` is in this prefix.
    pub fn covers(&self, other: &Prefix) -> bool
        ensures value { IsTrue result ↔ Covers self.now other.now }
        ensures prefixes { IsPrefix self.now × IsPrefix other.now × IsAddr other.now.address }
    {
        let outer = self.span();
        let inner = other.span();
        outer.lo.family() == inner.lo.family()
            && outer.lo.number() <= inner.lo.number()
            && inner.hi.number() <= outer.hi.number()
    }

    /// Whether no address is in both.
    pub fn disjoint(&self, other: &Prefix) -> bool
        ensures { IsTrue result ↔ AreDisjoint self.now other.now }
    {
        let one = self.span();
        let two = other.span();
        one.lo.family() != two.lo.family()
            || one.hi.number() < two.lo.number()
            || two.hi.number() < one.lo.number()
    }
}

// Whether two numbers agree above their lowest `host` bits.
fn same_above(one: u128, other: u128, host: u8) -> bool
    requires { host ≤ 128 }
    ensures { IsTrue result ↔ (other / 2 ^ host ≡ one / 2 ^ host) }
{
    host == 128 || one >> host == other >> host
}

// The number with its lowest `host` bits zero.
fn first_of_block(number: u128, host: u8) -> u128
    requires { host ≤ 128 }
    ensures { result ≡ number / 2 ^ host * 2 ^ host }
{
    if host == 128 {
        0
    } else {
        number >> host << host
    }
}

// The number whose lowest `host` bits are ones.
fn low_bits(host: u8) -> u128
    requires { host ≤ 128 }
    ensures { result + 1 ≡ 2 ^ host }
{
    if host == 128 {
        u128::MAX
    } else {
        (1u128 << host) - 1
    }
}

#[cfg(test)]
mod tests;
