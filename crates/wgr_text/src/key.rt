//! Keys, and their texts in base64.
ghost use Rattle.std.specs.Prelude.{◌≡◌, ◌++◌, IfSome, IfNone, OnOk, OnErr};
ghost use Rattle.wgr_text.specs.KeyText.{SpellsKey, key_text};
ghost use Rattle.wgr_text.specs.declared.key.Key.{Key};

use crate::byte::are_bytes;
use base64::engine::general_purpose::STANDARD;
use std::alloc::AllocError;

/// A Curve25519 public key: 32 bytes.
#[derive(Clone, Copy, Debug, PartialEq, Eq, Hash, PartialOrd, Ord)]
pub struct Key(pub [u8; 32]);

impl Key {
    /// The key whose base64 text this is (RFC 4648 section 4, with padding). For any other text it
    /// is `None`: a key has one text, of 44 bytes, whose unused bits are zero.
    pub fn read(text: &[u8]) -> Option<Key>
        ensures spelled { IfSome result (SpellsKey text.now) }
        ensures none { IfNone result ((key : Key) → ¬ (SpellsKey text.now key)) }
    {
        if text.len() != 44 {
            return None;
        }
        let mut decoded = [0; 33];
        let Ok(count) = STANDARD.decode_slice_unchecked(text, &mut decoded) else {
            return None;
        };
        if count != 32 {
            return None;
        }
        let mut key = [0; 32];
        key.copy_from_slice(&decoded[..32]);
        are_bytes(&key);
        Some(Key(key))
    }
}

/// Appends the base64 text of a key (RFC 4648 section 4, with padding). If memory runs out,
/// `out` keeps its items.
pub fn write_key(key: &Key, out: &mut Vec<u8>) -> Result<(), AllocError>
    ensures ok { OnOk result (out.new.items ≡ out.old.items ++ key_text key.now.0) }
    ensures err { OnErr result (out.new.items ≡ out.old.items) }
{
    let mut text = [0; 44];
    let Ok(_) = STANDARD.encode_slice(&key.0, &mut text) else {
        unreachable!();
    };
    out.extend_from_slice(&text)
}

#[cfg(test)]
mod tests;
