//! Names of tenants and networks.
ghost use Rattle.std.specs.Prelude.{◌≡◌, ℕ, List, true, false, IfOk, IfSome, IfNone, string_bytes};
ghost use Rattle.std.specs.List.{list_all};
ghost use Rattle.wgr_peers.specs.Name.{is_name, is_name_byte};

use std::alloc::{AllocError, Global};
use std::marker::Model;
use std::str;

/// The name of a network or a tenant: 1 to 32 of `a` to `z`, `0` to `9` and `-`.
#[derive(Debug, Drop)]
pub struct Name {
    text: String,
}

impl Model for Name {
    ghost Value = { List ℕ };

    ghost view = { λ n. string_bytes n.text };

    ghost invariant = { λ n. is_name (string_bytes n.text) ≡ true };
}

impl Name {
    /// The name that the whole text is: 1 to 32 bytes, each `a` to `z`, `0` to `9` or `-`. It is
    /// kept as it is.
    pub fn read(alloc: Global, text: &[u8]) -> Result<Option<Name>, AllocError>
        ensures kept { IfOk result (λ found. IfSome found (λ n. n ≡ text.now)) }
        ensures valid { IfOk result (λ found. IfSome found (λ _. is_name text.now ≡ true)) }
        ensures none { IfOk result (λ found. IfNone found (is_name text.now ≡ false)) }
    {
        match name_text(text) {
            Some(name) => Ok(Some(Name {
                text: name.to_string(alloc)?,
            })),
            None => Ok(None),
        }
    }

    /// A copy of the name.
    pub fn copy(&self) -> Result<Name, AllocError>
        ensures { IfOk result (λ n. n ≡ self.now) }
    {
        Ok(Name {
            text: self.text.clone()?,
        })
    }

    /// The text.
    pub fn as_str(&self) -> &str
        ensures value { result.now ≡ self.now }
        ensures valid { is_name self.now ≡ true }
    {
        self.text.as_str()
    }

    /// The bytes of the text.
    pub fn as_bytes(&self) -> &[u8]
        ensures { result.now ≡ self.now }
    {
        self.text.as_bytes()
    }
}

// The text, where it is a name.
fn name_text(text: &[u8]) -> Option<&str>
    ensures some { IfSome result (λ name. name.now ≡ text.now) }
    ensures named { IfSome result (λ _. is_name text.now ≡ true) }
    ensures none { IfNone result (is_name text.now ≡ false) }
{
    match str::from_utf8(text) {
        Ok(name) if is_name(text) => Some(name),
        _ => None,
    }
}

// Whether the text is 1 to 32 lower-case letters, digits and dashes.
fn is_name(text: &[u8]) -> bool
    ensures { result ≡ is_name text.now }
{
    !text.is_empty() && text.len() <= 32 && has_name_bytes(text)
}

fn has_name_bytes(text: &[u8]) -> bool
    ensures { result ≡ list_all is_name_byte text.now }
{
    text.iter().all(|byte| byte.is_ascii_lowercase() || byte.is_ascii_digit() || *byte == b'-')
}
