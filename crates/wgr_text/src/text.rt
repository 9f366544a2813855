//! The texts of addresses and prefixes.
ghost use Rattle.std.specs.Prelude.{◌≡◌, ◌≢◌, ◌++◌, ◌<◌, ◌≤◌, ◌+◌, ℕ, List, codes, decimal, IfSome, IfNone, IfOk, OnOk, OnErr};
ghost use Rattle.std.specs.Net.Text.{ipv4_text};
ghost use Rattle.wgr_text.specs.Prefix.{AddrValue};
ghost use Rattle.wgr_text.specs.PrefixText.{HasNoSlash, Spells, canonical_addr, canonical_text, octets_of_number};

use crate::addr::{Addr, Family};
use crate::prefix::Prefix;
use itoa::Buffer;
use std::alloc::{AllocError, Global};
use std::net::Ipv6Addr;
use std::str;

/// The address and the length that the whole text spells: an address, which has full length
/// (32 or 128), or an address, `/` and a decimal length without leading zeros, at most full
/// (RFC 4632 section 3.1, RFC 4291 section 2.3). Host bits may be set.
pub fn read_loose(text: &[u8]) -> Option<(Addr, u8)>
    ensures spelled { IfSome result (λ p. Spells text.now p.0 p.1) }
    ensures none { IfNone result ((a : AddrValue) (k : ℕ) → ¬ (Spells text.now a k)) }
{
    if let Some(address) = Addr::read(text) {
        return Some((address, address.family().width()));
    }
    let (front, digits) = split_at_slash(text)?;
    let address = Addr::read(front)?;
    let length = read_length(digits)?;
    if length > address.family().width() {
        return None;
    }
    Some((address, length))
}

// The parts before and after the last `/`.
fn split_at_slash(text: &[u8]) -> Option<(&[u8], &[u8])>
    ensures found { IfSome result (λ p. (text.now ≡ p.0.now ++ codes "/" ++ p.1.now) × HasNoSlash p.1.now) }
    ensures none { IfNone result (HasNoSlash text.now) }
{
    let slash = text.iter().rposition(|&byte| byte == b'/')?;
    Some((&text[..slash], &text[slash + 1..]))
}

// The number that the digits write without leading zeros.
fn read_length(digits: &[u8]) -> Option<u8>
    ensures written { IfSome result (λ k. digits.now ≡ decimal k) }
    ensures none { IfNone result ((k : ℕ) → k < 256 → digits.now ≢ decimal k) }
{
    // `parse` accepts a sign and leading zeros too.
    if digits.len() > 1 && digits[0] <= b'0' {
        return None;
    }
    match str::from_utf8(digits) {
        Ok(text) => text.parse().ok(),
        Err(_) => None,
    }
}

// The most bytes of an IPv4 prefix's text: four octets of three digits, three dots, `/` and two digits.
const MAX_DOTTED: usize = 18;

// The text of an IPv4 address, with room for a length after it.
fn dotted_text(alloc: Global, number: u32) -> Result<Vec<u8>, AllocError>
    ensures { IfOk result (λ text. text.items ≡ ipv4_text (octets_of_number number)) }
{
    let octets = number.to_be_bytes();
    let mut digits = Buffer::new();
    let mut text = Vec::with_capacity(alloc, MAX_DOTTED)?;
    text.extend_from_slice(digits.format(octets[0]).as_bytes())?;
    text.push(b'.')?;
    text.extend_from_slice(digits.format(octets[1]).as_bytes())?;
    text.push(b'.')?;
    text.extend_from_slice(digits.format(octets[2]).as_bytes())?;
    text.push(b'.')?;
    text.extend_from_slice(digits.format(octets[3]).as_bytes())?;
    Ok(text)
}

// The text of an address, without a length.
fn addr_text(alloc: Global, address: &Addr) -> Result<Vec<u8>, AllocError>
    ensures { IfOk result (λ text. text.items ≡ canonical_addr address.now) }
{
    match address.family() {
        Family::V4 => dotted_text(alloc, address.number() as u32),
        Family::V6 => Ok(
            Ipv6Addr::from_bits(address.number())
                .hex_groups()
                .to_string(alloc)?
                .into_bytes(),
        ),
    }
}

/// The text of a prefix: its first address as [`write_addr`] writes it, `/`, and the length.
pub fn prefix_text(alloc: Global, prefix: &Prefix) -> Result<Vec<u8>, AllocError>
    ensures { IfOk result (λ text. text.items ≡ canonical_text prefix.now) }
{
    let mut digits = Buffer::new();
    let mut text = addr_text(alloc, &prefix.address())?;
    text.push(b'/')?;
    text.extend_from_slice(digits.format(prefix.length()).as_bytes())?;
    Ok(text)
}

/// Appends the text of an address, without a length. IPv6 is written as RFC 5952 section 4 says,
/// and never with a dotted tail. If memory runs out, `out` keeps its items.
pub fn write_addr(address: &Addr, out: &mut Vec<u8>) -> Result<(), AllocError>
    ensures ok { OnOk result (out.new.items ≡ out.old.items ++ canonical_addr address.now) }
    ensures err { OnErr result (out.new.items ≡ out.old.items) }
{
    let text = addr_text(*out.allocator(), address)?;
    out.extend_from_slice(&text)
}

/// Appends the text of a prefix, as [`prefix_text`] gives it. If memory runs out, `out` keeps its items.
pub fn write_prefix(prefix: &Prefix, out: &mut Vec<u8>) -> Result<(), AllocError>
    ensures ok { OnOk result (out.new.items ≡ out.old.items ++ canonical_text prefix.now) }
    ensures err { OnErr result (out.new.items ≡ out.old.items) }
{
    let text = prefix_text(*out.allocator(), prefix)?;
    out.extend_from_slice(&text)
}

#[cfg(test)]
mod tests;
