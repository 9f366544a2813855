//! The texts of keys and prefixes, as strings.
ghost use Rattle.std.specs.Prelude.{◌≡◌, IfOk, IsUtf8, string_bytes};
ghost use Rattle.wgr_text.specs.KeyText.{key_text};
ghost use Rattle.wgr_text.specs.PrefixText.{canonical_text};

use base64::engine::general_purpose::STANDARD;
use std::alloc::{AllocError, Global};
use wgr_text::{Key, Prefix, prefix_text};

// The text of a key.
pub(crate) fn text_of_key(alloc: Global, key: &Key) -> Result<String, AllocError>
    ensures { IfOk result (λ s. string_bytes s ≡ key_text key.now.0) }
{
    STANDARD.encode(alloc, &key.0)
}

/// The text of a prefix.
pub fn text_of_prefix(alloc: Global, prefix: &Prefix) -> Result<String, AllocError>
    ensures { IfOk result (λ s. string_bytes s ≡ canonical_text prefix.now) }
{
    prefix.rules_hold();
    let text = prefix_text(alloc, prefix)?;
    Ok(as_string(text))
}

// Bytes that are text, as a string.
fn as_string(bytes: Vec<u8>) -> String
    requires { IsUtf8 bytes.items }
    ensures { string_bytes result ≡ bytes.items }
{
    let Ok(text) = String::from_utf8(bytes) else {
        unreachable!();
    };
    text
}
