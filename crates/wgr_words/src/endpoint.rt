//! The address and the port at which to listen.
ghost use Rattle.std.specs.Prelude.{◌≡◌, ◌≢◌, ◌++◌, ℕ, All, List, IfNone, IfSome, codes};
ghost use Rattle.std.specs.declared.net.ip_addr.IpAddr.{IpAddr};
ghost use Rattle.wgr_words.specs.Words.{SpellsEndpoint, SpellsListener, SpellsPortNumber};

use crate::numbers::read_port;
use std::net::{IpAddr, Ipv4Addr, Ipv6Addr};
use std::str;
use wgr_core::Port;

/// An IPv4 address or an IPv6 address in brackets, `:` and a port.
pub(crate) fn read_endpoint(text: &[u8]) -> Option<(IpAddr, Port)>
    ensures spelled { IfSome result (SpellsEndpoint text.now) }
    ensures none { IfNone result ((endpoint : IpAddr × ℕ) → ¬ (SpellsEndpoint text.now endpoint)) }
{
    let (host, digits) = split_at_colon(text)?;
    let address = read_address(host)?;
    let port = read_port_bytes(digits)?;
    Some((address, port))
}

// The parts before and after the last `:`.
fn split_at_colon(text: &[u8]) -> Option<(&[u8], &[u8])>
    ensures found { IfSome result (λ p. (text.now ≡ p.0.now ++ codes ":" ++ p.1.now) × All (λ c. c ≢ 58) p.1.now) }
    ensures none { IfNone result (All (λ c. c ≢ 58) text.now) }
{
    let colon = text.iter().rposition(|&byte| byte == b':')?;
    Some((&text[..colon], &text[colon + 1..]))
}

fn read_address(text: &[u8]) -> Option<IpAddr>
    ensures spelled { IfSome result (SpellsListener text.now) }
    ensures none { IfNone result ((address : IpAddr) → ¬ (SpellsListener text.now address)) }
{
    if let Ok(address) = Ipv4Addr::parse_ascii(text) {
        return Some(IpAddr::V4(address));
    }
    match Ipv6Addr::parse_ascii(unbracketed(text)?) {
        Ok(address) => Some(IpAddr::V6(address)),
        Err(_) => None,
    }
}

// The text between `[` and `]`.
fn unbracketed(text: &[u8]) -> Option<&[u8]>
    ensures some { IfSome result (λ inner. text.now ≡ codes "[" ++ inner.now ++ codes "]") }
    ensures none { IfNone result ((inner : List ℕ) → text.now ≢ codes "[" ++ inner ++ codes "]") }
{
    let (first, rest) = text.split_first()?;
    let (last, inner) = rest.split_last()?;
    if *first != b'[' || *last != b']' {
        return None;
    }
    Some(inner)
}

fn read_port_bytes(digits: &[u8]) -> Option<Port>
    ensures spelled { IfSome result (SpellsPortNumber digits.now) }
    ensures none { IfNone result ((n : ℕ) → ¬ (SpellsPortNumber digits.now n)) }
{
    match str::from_utf8(digits) {
        Ok(text) => read_port(text),
        Err(_) => None,
    }
}
