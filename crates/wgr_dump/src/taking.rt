//! Fields that are taken one by one.
ghost use Rattle.std.specs.Prelude.{◌≡◌, ◌∷◌, ℕ, List, MatchOption, IfSome, IfNone};
ghost use Rattle.wgr_text.specs.Prefix.{PrefixValue};
ghost use Rattle.wgr_text.specs.KeyText.{SpellsKey};
ghost use Rattle.wgr_dump.specs.Fields.{OneByOne, SpellsOptionalKey, SpellsPort, SpellsCount, SpellsKeepalive, SpellsMasked, SpellsAllowed, IsWord, parts_between, a_key, a_key_or_none, a_port, a_word, prefixes, a_count, a_keepalive};
ghost use Rattle.wgr_dump.specs.Taking.{IsBadHead, TakesField};
ghost use Rattle.wgr_dump.specs.PartsLeft.{left};

use crate::allowed::read_allowed;
use crate::fields::{is_word, read_optional_key};
use crate::numbers::{read_keepalive, read_port};
use crate::remaining_parts::RemainingParts;
use crate::written_count::WrittenCount;
use wgr_text::Key;

/// A key, and how it is written.
pub(crate) fn take_key<'a>(fields: &mut RemainingParts<'a>) -> Option<(&'a [u8], Key)>
    ensures { MatchOption result (IsBadHead a_key (left fields.old)) (λ taken. (left fields.old ≡ taken.0.now ∷ left fields.new) × SpellsKey taken.0.now taken.1) }
{
    let field = fields.next()?;
    Some((field, Key::read(field)?))
}

/// A key or `(none)`, and how it is written.
pub(crate) fn take_optional_key<'a>(
    fields: &mut RemainingParts<'a>,
) -> Option<(&'a [u8], Option<Key>)>
    ensures { MatchOption result (IsBadHead a_key_or_none (left fields.old)) (λ taken. (left fields.old ≡ taken.0.now ∷ left fields.new) × SpellsOptionalKey taken.0.now taken.1) }
{
    let field = fields.next()?;
    Some((field, read_optional_key(field)?))
}

/// A field that is skipped.
pub(crate) fn take_word(fields: &mut RemainingParts<'_>) -> Option<()>
    ensures { MatchOption result (IsBadHead a_word (left fields.old)) (λ taken. TakesField IsWord (left fields.old) (left fields.new)) }
{
    let field = fields.next()?;
    if !is_word(field) {
        return None;
    }
    Some(())
}

/// A UDP port or 0.
pub(crate) fn take_port(fields: &mut RemainingParts<'_>) -> Option<u16>
    ensures { MatchOption result (IsBadHead a_port (left fields.old)) (λ port. TakesField (λ field. SpellsPort field port) (left fields.old) (left fields.new)) }
{
    let field = fields.next()?;
    read_port(field)
}

/// The items of prefixes.
pub(crate) fn take_allowed<'a>(fields: &mut RemainingParts<'a>) -> Option<RemainingParts<'a>>
    ensures { MatchOption result (IsBadHead prefixes (left fields.old)) (λ items. (ps : List PrefixValue) × OneByOne SpellsMasked (left items) ps × TakesField (λ field. SpellsAllowed field ps) (left fields.old) (left fields.new)) }
{
    let field = fields.next()?;
    read_allowed(field)
}

/// A count.
pub(crate) fn take_count<'a>(fields: &mut RemainingParts<'a>) -> Option<WrittenCount<'a>>
    ensures { MatchOption result (IsBadHead a_count (left fields.old)) (λ count. TakesField (λ field. SpellsCount field count) (left fields.old) (left fields.new)) }
{
    let field = fields.next()?;
    WrittenCount::read(field)
}

/// Seconds between keepalives, or 0.
pub(crate) fn take_keepalive(fields: &mut RemainingParts<'_>) -> Option<u16>
    ensures { MatchOption result (IsBadHead a_keepalive (left fields.old)) (λ seconds. TakesField (λ field. SpellsKeepalive field seconds) (left fields.old) (left fields.new)) }
{
    let field = fields.next()?;
    read_keepalive(field)
}
