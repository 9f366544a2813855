//! Numbers among the words.
ghost use Rattle.std.specs.Prelude.{◌≡◌, ◌<◌, ℕ, IfNone, IfSome};
ghost use Rattle.std.specs.Char.{is_ascii_digit};
ghost use Rattle.std.specs.List.{list_all};
ghost use Rattle.wgr_words.specs.Words.{SpellsCapacity, SpellsPortNumber, SpellsWhole};

use wgr_core::{Capacity, Port};

// The number of 1 to 19 decimal digits, if it is at most 9,223,372,036,854,775,807. Leading zeros
// are accepted.
fn read_number(text: &str) -> Option<u128>
    ensures spelled { IfSome result (SpellsWhole text.now) }
    ensures none { IfNone result ((n : ℕ) → ¬ (SpellsWhole text.now n)) }
{
    // `parse` also accepts a sign.
    if text.is_empty() || text.len() > 19 || !are_digits(text.as_bytes()) {
        return None;
    }
    match text.parse::<u128>() {
        Ok(number) if number <= 9_223_372_036_854_775_807 => Some(number),
        _ => None,
    }
}

// Whether each byte is a decimal digit.
fn are_digits(text: &[u8]) -> bool
    ensures { result ≡ list_all is_ascii_digit text.now }
{
    text.iter().all(|byte| byte.is_ascii_digit())
}

// The number, if it fits 16 bits.
fn read_short(text: &str) -> Option<u16>
    ensures spelled { IfSome result (λ n. SpellsWhole text.now n) }
    ensures none { IfNone result ((n : ℕ) → SpellsWhole text.now n → 65535 < n) }
{
    let number = read_number(text)?;
    if number > 65_535 {
        return None;
    }
    Some(number as u16)
}

/// A number of seconds or of connections.
pub(crate) fn read_whole(text: &str) -> Option<u64>
    ensures spelled { IfSome result (λ n. SpellsWhole text.now n) }
    ensures none { IfNone result ((n : ℕ) → ¬ (SpellsWhole text.now n)) }
{
    Some(read_number(text)? as u64)
}

pub(crate) fn read_port(text: &str) -> Option<Port>
    ensures spelled { IfSome result (SpellsPortNumber text.now) }
    ensures none { IfNone result ((n : ℕ) → ¬ (SpellsPortNumber text.now n)) }
{
    Port::new(read_short(text)?)
}

pub(crate) fn read_capacity(text: &str) -> Option<Capacity>
    ensures spelled { IfSome result (SpellsCapacity text.now) }
    ensures none { IfNone result ((n : ℕ) → ¬ (SpellsCapacity text.now n)) }
{
    Capacity::new(read_short(text)?)
}
