//! What follows from the definitions that the readers and writers meet. Each function does nothing:
//! its contract is the law.
ghost use Rattle.wgr_text.specs.Laws.{SpellsOneAddr, SpellsOnePair, WrittenAddrSpells, WrittenPrefixSpells, WrittenIsRecommended, WrittenIsLowerHex, KeyTextLength, KeyTextsDiffer};

/// A text spells at most one address, and at most one pair of address and length.
pub fn spelled_is_unique()
    ensures address { SpellsOneAddr }
    ensures pair { SpellsOnePair }
{}

/// The written text of an address or a prefix spells it, so it can be read back.
pub fn written_is_read_back()
    ensures address { WrittenAddrSpells }
    ensures prefix { WrittenPrefixSpells }
{}

/// The written text of an IPv6 address is the one that RFC 5952 section 4 recommends.
pub fn written_is_recommended()
    ensures text { WrittenIsRecommended }
    ensures bytes { WrittenIsLowerHex }
{}

/// A key has one text, of 44 characters, and no other key has it.
pub fn key_texts_are_unique()
    ensures length { KeyTextLength }
    ensures differ { KeyTextsDiffer }
{}
