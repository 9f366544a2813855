//! Addresses: a family and a number.
ghost use Rattle.std.specs.Prelude.{◌≡◌, ℕ, ◌+◌, ◌-◌, ◌*◌, ◌/◌, ◌%◌, ◌^◌, ◌<◌, ◌≤◌, ◌↔◌, IsTrue, IsSome, IfSome, IfNone};
ghost use Rattle.wgr_text.specs.Prefix.{AddrValue, IsAddr, width, rank};
ghost use Rattle.wgr_text.specs.PrefixText.{SpellsAddr};

use std::marker::Model;
use std::net::IpAddr;

/// The family of an address.
#[derive(Clone, Copy, Debug, Drop, PartialEq, Eq, PartialOrd, Ord)]
pub enum Family {
    /// IPv4: 32 bits.
    V4,
    /// IPv6: 128 bits.
    V6,
}

impl Family {
    /// How many bits an address of this family has.
    pub fn width(self) -> u8
        ensures { result ≡ width self }
    {
        match self {
            Family::V4 => 32,
            Family::V6 => 128,
        }
    }
}

/// An address: a family and a number, highest bit first.
#[derive(Clone, Copy, Debug, PartialEq, Eq, PartialOrd, Ord)]
pub struct Addr {
    family: Family,
    number: u128,
}

impl Model for Addr {
    ghost Value = { AddrValue };

    ghost view = { λ a. record { family = a.family; number = a.number } };

    ghost invariant = { λ a. a.number < 2 ^ width a.family };

    ghost inverse = { λ v. record { family = v.family; number = v.number } };
}

impl Addr {
    /// The address with this number, where it fits the family.
    pub fn new(family: Family, number: u128) -> Option<Addr>
        ensures fits { IsSome result ↔ (number < 2 ^ width family) }
        ensures value { IfSome result (λ a. a ≡ record { family = family; number = number }) }
    {
        if family == Family::V4 && number >> 32 != 0 {
            return None;
        }
        Some(Addr { family, number })
    }

    /// The address that the whole text spells, without a length: IPv4 as four octets with dots,
    /// IPv6 in any form of RFC 4291 section 2.2. Blanks, zone names and leading zeros of an octet
    /// are not accepted.
    pub fn read(text: &[u8]) -> Option<Addr>
        ensures spelled { IfSome result (λ a. SpellsAddr text.now a) }
        ensures none { IfNone result ((a : AddrValue) → ¬ (SpellsAddr text.now a)) }
    {
        match IpAddr::parse_ascii(text) {
            Ok(IpAddr::V4(ip)) => Some(Addr {
                family: Family::V4,
                number: u128::from(ip.to_bits()),
            }),
            Ok(IpAddr::V6(ip)) => Some(Addr {
                family: Family::V6,
                number: ip.to_bits(),
            }),
            Err(_) => None,
        }
    }

    /// The family.
    pub fn family(&self) -> Family
        ensures value { result ≡ self.now.family }
        ensures fits { IsAddr self.now }
    {
        self.family
    }

    /// The number.
    pub fn number(&self) -> u128
        ensures value { result ≡ self.now.number }
        ensures fits { IsAddr self.now }
    {
        self.number
    }

    /// Does nothing. The number of every address fits its family.
    pub fn rules_hold(&self)
        ensures { IsAddr self.now }
    {
        let _number = self.number;
    }

    /// Whether this address comes no later than the other: IPv4 first, then by number.
    pub fn is_at_most(&self, other: &Addr) -> bool
        ensures { IsTrue result ↔ (rank self.now ≤ rank other.now) }
    {
        match (self.family, other.family) {
            (Family::V4, Family::V6) => true,
            (Family::V6, Family::V4) => false,
            _ => self.number <= other.number,
        }
    }
}

#[cfg(test)]
mod tests;
