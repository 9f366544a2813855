//! Digests and keys, read from the places of a row, if they are there.
ghost use Rattle.std.specs.Prelude.{◌≡◌, IfSome, IfNone};
ghost use Rattle.wgr_model.specs.Consistent.{IsDigest};
ghost use Rattle.wgr_columns.specs.Decode.{bytes_at, key_at};
ghost use Rattle.wgr_columns.specs.Fields.{IsDigestAt, IsKeyAt};

use sqlite::Row;
use sqlite::types::ValueRef;
use wgr_text::{Key, are_bytes};

// The digest with these bytes.
fn digest_of(bytes: &[u8]) -> Option<[u8; 32]>
    ensures some { IfSome result (λ digest. IsDigest bytes.now × (digest ≡ bytes.now)) }
    ensures none { IfNone result (IsDigest bytes.now → ⊥) }
{
    are_bytes(bytes);
    if bytes.len() != 32 {
        return None;
    }
    let mut digest = [0; 32];
    digest.copy_from_slice(bytes);
    Some(digest)
}

/// The digest at this place.
pub fn digest_at(row: &Row, at: usize) -> Option<[u8; 32]>
    ensures some { IfSome result (λ digest. IsDigestAt row.now at × (digest ≡ bytes_at row.now at)) }
    ensures none { IfNone result (IsDigestAt row.now at → ⊥) }
{
    let Ok(ValueRef::Blob(bytes)) = row.get_ref(at) else {
        return None;
    };
    digest_of(bytes)
}

/// The key at this place.
pub fn key_at(row: &Row, at: usize) -> Option<Key>
    ensures some { IfSome result (λ key. IsKeyAt row.now at × (key ≡ key_at row.now at)) }
    ensures none { IfNone result (IsKeyAt row.now at → ⊥) }
{
    let Ok(ValueRef::Blob(key)) = row.get_ref(at) else {
        return None;
    };
    if key.len() != 32 {
        return None;
    }
    let mut bytes = [0; 32];
    bytes.copy_from_slice(key);
    Some(Key(bytes))
}
