//! The token of a request.
ghost use Rattle.std.specs.Prelude.{◌≡◌, ◌&&◌, nat_le, option_map};
ghost use Rattle.std.specs.List.{list_all};
ghost use Rattle.wgr_http.specs.Token.{skip_spaces, token_test, bearer_token};

use crate::field_lines::same_name;

/// Whether bytes are a token: 1 to 128 of them, each visible ASCII (0x21 to 0x7E).
pub fn is_token(text: &[u8]) -> bool
    ensures { result ≡ token_test text.now }
{
    !text.is_empty() && text.len() <= 128 && is_visible(text)
}

/// The token of credentials in the scheme `Bearer` (RFC 6750 section 2.1), whose name is
/// case-insensitive. One or more spaces come before the token.
pub(crate) fn token_of(credentials: &[u8]) -> Option<&[u8]>
    ensures { option_map (λ t. t.now) result ≡ bearer_token credentials.now }
{
    if credentials.len() >= 8 && same_name(&credentials[..6], b"bearer") && credentials[6] == b' ' {
        let token = after_spaces(&credentials[7..]);
        if is_token(token) { Some(token) } else { None }
    } else {
        None
    }
}

fn is_visible(text: &[u8]) -> bool
    ensures { result ≡ list_all (λ b. nat_le 33 b && nat_le b 126) text.now }
{
    text.iter().all(|b| *b >= 0x21 && *b <= 0x7E)
}

// The bytes from the first that isn't a space.
fn after_spaces(bytes: &[u8]) -> &[u8]
    ensures { result.now ≡ skip_spaces bytes.now }
{
    let mut rest = bytes;
    while let Some((first, more)) = rest.split_first() {
        if *first != b' ' {
            return rest;
        }
        rest = more;
    }
    rest
}
