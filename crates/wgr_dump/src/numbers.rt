//! The numbers of a dump.
ghost use Rattle.std.specs.Prelude.{◌≡◌, ℕ, ◌≤◌, IfSome, IfNone};
ghost use Rattle.std.specs.Char.{is_ascii_digit};
ghost use Rattle.std.specs.List.{list_all};
ghost use Rattle.wgr_dump.specs.Fields.{SpellsDecimal, SpellsPort, SpellsKeepalive};

use std::str;

/// The number of 1 to `most` decimal digits.
pub(crate) fn read_number(field: &[u8], most: usize) -> Option<u128>
    requires { most ≤ 20 }
    ensures spelled { IfSome result (SpellsDecimal most field.now) }
    ensures none { IfNone result ((n : ℕ) → ¬ (SpellsDecimal most field.now n)) }
{
    // `parse` reads a sign too.
    if field.is_empty() || field.len() > most || !are_digits(field) {
        return None;
    }
    match str::from_utf8(field) {
        Ok(text) => text.parse().ok(),
        Err(_) => None,
    }
}

// Whether each byte is a decimal digit.
fn are_digits(field: &[u8]) -> bool
    ensures { result ≡ list_all is_ascii_digit field.now }
{
    field.iter().all(|byte| byte.is_ascii_digit())
}

/// A UDP port or 0.
pub(crate) fn read_port(field: &[u8]) -> Option<u16>
    ensures spelled { IfSome result (SpellsPort field.now) }
    ensures none { IfNone result ((n : ℕ) → ¬ (SpellsPort field.now n)) }
{
    let number = read_number(field, 5)?;
    if number > 65_535 {
        return None;
    }
    Some(number as u16)
}

/// Seconds between keepalives, or `off` for 0.
pub(crate) fn read_keepalive(field: &[u8]) -> Option<u16>
    ensures spelled { IfSome result (SpellsKeepalive field.now) }
    ensures none { IfNone result ((n : ℕ) → ¬ (SpellsKeepalive field.now n)) }
{
    if field == b"off".as_slice() {
        return Some(0);
    }
    read_port(field)
}
