//! Tokens by their digests.
ghost use Rattle.std.specs.Prelude.{◌≡◌};
ghost use Rattle.wgr_request.specs.Digest.{digest_of};

use sha2::{Digest, Sha256};
use wgr_http::is_token;

/// The SHA-256 (FIPS 180-4) of a token, where the bytes are one: 1 to 128 of them, each from 0x21
/// to 0x7E. It takes no memory.
pub fn token_digest(token: &[u8]) -> Option<[u8; 32]>
    ensures { result ≡ digest_of token.now }
{
    if is_token(token) {
        Some(Sha256::digest(token))
    } else {
        None
    }
}
