//! Counts and moments.
ghost use Rattle.std.specs.Prelude.{◌≡◌, IfSome, IfNone};
ghost use Rattle.wgr_dump.specs.Fields.{CountValue, SpellsCount};
ghost use Rattle.wgr_peers.specs.Limits.{IsCount, kept_count};

use crate::numbers::read_number;
use std::marker::Model;
use wgr_peers::Count;

/// A count of bytes, or a moment in seconds, with its digits. One above the greatest [`Count`] is kept
/// as that.
#[derive(Drop)]
pub struct WrittenCount<'a> {
    digits: &'a [u8],
    value: Count,
}

impl<'a> Model for WrittenCount<'a> {
    ghost use Rattle.wgr_dump.specs.Fields.{CountValue, SpellsCount};

    ghost Value = { CountValue };

    ghost view = { λ c. record { digits = c.digits.now; value = c.value } };

    ghost invariant = { λ c. SpellsCount c.digits.now (record { digits = c.digits.now; value = c.value }) };
}

impl<'a> WrittenCount<'a> {
    /// The count of 1 to 20 digits.
    pub(crate) fn read(field: &'a [u8]) -> Option<WrittenCount<'a>>
        ensures spelled { IfSome result (SpellsCount field.entry.now) }
        ensures none { IfNone result ((count : CountValue) → ¬ (SpellsCount field.entry.now count)) }
    {
        let written = read_number(field, 20)?;
        Some(WrittenCount {
            digits: field,
            value: kept(written),
        })
    }

    /// The digits as they are in the dump.
    pub fn digits(&self) -> &'a [u8]
        ensures bytes { result.now ≡ self.now.digits }
        ensures spelled { SpellsCount result.now self.now }
    {
        self.digits
    }

    /// The number, or the greatest that is kept.
    pub fn value(&self) -> Count
        ensures value { result ≡ self.now.value }
        ensures kept { IsCount result }
    {
        self.value
    }
}

// The number, or the greatest that is kept.
fn kept(number: u128) -> Count
    ensures { result ≡ kept_count number }
{
    Count::new(u64::try_from(number).unwrap_or(u64::MAX))
}
