//! Hosts of endpoints.
ghost use Rattle.std.specs.Prelude.{◌≡◌, ℕ, List, true, false, IfOk, IfSome, IfNone, string_bytes};
ghost use Rattle.std.specs.List.{list_all};
ghost use Rattle.wgr_peers.specs.Host.{is_host_byte, is_host_name, IsHost, IsHostText};
ghost use Rattle.wgr_text.specs.PrefixText.{SpellsNumber};
ghost use Rattle.wgr_text.specs.declared.addr.Family.TheVariants.{V6};

use std::alloc::{AllocError, Global};
use std::marker::Model;
use std::net::Ipv6Addr;
use std::str;
use wgr_text::{Addr, Family};

/// The host of an endpoint, as it is kept: a name in lower case, or an IPv6 address.
#[derive(Debug, Drop)]
pub struct Host {
    text: String,
}

impl Model for Host {
    ghost Value = { List ℕ };

    ghost view = { λ h. string_bytes h.text };

    ghost invariant = { λ h. IsHost (string_bytes h.text) };
}

impl Host {
    /// The host that the whole text spells: a name, 1 to 253 of ASCII letters, digits, `.` and `-`,
    /// kept in lower case; or an IPv6 address (RFC 4291 section 2.2), without a length, brackets
    /// or a zone, kept as RFC 5952 section 4 writes it. An IPv4 address is such a name.
    pub fn read(alloc: Global, text: &[u8]) -> Result<Option<Host>, AllocError>
        ensures kept { IfOk result (λ found. IfSome found (λ h. IsHostText text.now h)) }
        ensures none { IfOk result (λ found. IfNone found ((kept : List ℕ) → ¬ (IsHostText text.now kept))) }
    {
        if let Some(name) = host_name(text) {
            return Ok(Some(Host {
                text: name.to_ascii_lowercase(alloc)?,
            }));
        }
        let Some(number) = ip6_number(text) else {
            return Ok(None);
        };
        Ok(Some(Host {
            text: Ipv6Addr::from_bits(number).hex_groups().to_string(alloc)?,
        }))
    }

    /// A copy of the host.
    pub fn copy(&self) -> Result<Host, AllocError>
        ensures { IfOk result (λ h. h ≡ self.now) }
    {
        Ok(Host {
            text: self.text.clone()?,
        })
    }

    /// The text.
    pub fn as_str(&self) -> &str
        ensures value { result.now ≡ self.now }
        ensures valid { IsHost self.now }
    {
        self.text.as_str()
    }
}

// The text, where it is a name.
fn host_name(text: &[u8]) -> Option<&str>
    ensures some { IfSome result (λ name. name.now ≡ text.now) }
    ensures named { IfSome result (λ _. is_host_name text.now ≡ true) }
    ensures none { IfNone result (is_host_name text.now ≡ false) }
{
    match str::from_utf8(text) {
        Ok(name) if is_host_name(text) => Some(name),
        _ => None,
    }
}

// Whether the text is 1 to 253 letters, digits, dots and dashes.
fn is_host_name(text: &[u8]) -> bool
    ensures { result ≡ is_host_name text.now }
{
    !text.is_empty() && text.len() <= 253 && has_host_bytes(text)
}

fn has_host_bytes(text: &[u8]) -> bool
    ensures { result ≡ list_all is_host_byte text.now }
{
    text.iter().all(|byte| byte.is_ascii_alphanumeric() || matches!(byte, b'.' | b'-'))
}

// The number of the IPv6 address that the text spells.
fn ip6_number(text: &[u8]) -> Option<u128>
    ensures spelled { IfSome result (λ n. SpellsNumber text.now V6 n) }
    ensures none { IfNone result ((n : ℕ) → ¬ (SpellsNumber text.now V6 n)) }
{
    let address = Addr::read(text)?;
    match address.family() {
        Family::V4 => None,
        Family::V6 => Some(address.number()),
    }
}
