//! Keys and words.
ghost use Rattle.std.specs.Prelude.{◌≡◌, ◌↔◌, IsTrue, IfSome, IfNone, Option};
ghost use Rattle.wgr_text.specs.declared.key.Key.{Key};
ghost use Rattle.wgr_dump.specs.Fields.{SpellsOptionalKey, IsWord};

use wgr_text::Key;

/// The key that the field spells, or that it is `(none)`.
pub(crate) fn read_optional_key(field: &[u8]) -> Option<Option<Key>>
    ensures spelled { IfSome result (SpellsOptionalKey field.now) }
    ensures none { IfNone result ((key : Option Key) → ¬ (SpellsOptionalKey field.now key)) }
{
    if field == b"(none)".as_slice() {
        return Some(None);
    }
    Some(Some(Key::read(field)?))
}

/// Whether the field is a word, which is skipped: 1 to 256 bytes, none of them a blank or a control character.
pub(crate) fn is_word(field: &[u8]) -> bool
    ensures { IsTrue result ↔ IsWord field.now }
{
    !field.is_empty() && field.len() <= 256 && field.iter().all(|byte| *byte >= 0x21)
}
