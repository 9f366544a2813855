//! The allowed addresses of a peer.
ghost use Rattle.std.specs.Prelude.{◌≡◌, ℕ, [], ◌∷◌, List, IfSome, IfNone};
ghost use Rattle.std.specs.Bool.{MatchBool};
ghost use Rattle.std.specs.Iterator.{YieldsFirst, item_count};
ghost use Rattle.wgr_text.specs.Prefix.{PrefixValue};
ghost use Rattle.wgr_dump.specs.Fields.{OneByOne, SpellsMasked, SpellsAllowed};
ghost use Rattle.wgr_dump.specs.PartsLeft.{left};
ghost use Rattle.wgr_dump.specs.MeantPrefixes.{MeantPrefixes, MeantPrefixes-prop};

use crate::remaining_parts::RemainingParts;
use std::marker::Model;
use wgr_text::{Prefix, read_loose};

/// The remaining prefixes of a peer, each with its host bits zero.
#[derive(Drop)]
pub struct Allowed<'a> {
    pub(crate) items: RemainingParts<'a>,
    ghost known: { MeantPrefixes (left items) } by { MeantPrefixes-prop (left items) },
}

impl<'a> Model for Allowed<'a> {
    ghost use Rattle.std.specs.Prelude.{List};
    ghost use Rattle.wgr_text.specs.Prefix.{PrefixValue};
    ghost use Rattle.wgr_dump.specs.Fields.{SpellsMasked};
    ghost use Rattle.wgr_dump.specs.PartsLeft.{left};
    ghost use Rattle.wgr_dump.specs.Meant.{meant};

    ghost Value = { List PrefixValue };

    ghost view = { λ a. meant SpellsMasked (left a.items) a.known };
}

impl<'a> Iterator for Allowed<'a> {
    type Item = Prefix;

    ghost next_gives = { YieldsFirst (λ ps. ps) };

    ghost remaining = { item_count (λ ps. ps) };

    fn next(&mut self) -> Option<Prefix> {
        let item = self.items.next()?;
        read_masked(item)
    }
}

// The prefix that the item spells, with its host bits zero.
fn read_masked(item: &[u8]) -> Option<Prefix>
    ensures spelled { IfSome result (SpellsMasked item.now) }
    ensures none { IfNone result ((p : PrefixValue) → ¬ (SpellsMasked item.now p)) }
{
    let (address, length) = read_loose(item)?;
    Prefix::masked(address, length)
}

/// The items of the field, where it is `(none)` or prefixes.
pub(crate) fn read_allowed<'a>(field: &'a [u8]) -> Option<RemainingParts<'a>>
    ensures spelled { IfSome result (λ items. (ps : List PrefixValue) × SpellsAllowed field.entry.now ps × OneByOne SpellsMasked (left items) ps) }
    ensures none { IfNone result ((ps : List PrefixValue) → ¬ (SpellsAllowed field.entry.now ps)) }
{
    if field == b"(none)".as_slice() {
        return Some(RemainingParts::none());
    }
    let items = RemainingParts::new(field, b',');
    if !are_prefixes(items) {
        return None;
    }
    Some(items)
}

// Whether each item spells a prefix.
fn are_prefixes(items: RemainingParts<'_>) -> bool
    ensures { MatchBool result ((ps : List PrefixValue) × OneByOne SpellsMasked (left items.entry) ps) ((ps : List PrefixValue) → ¬ (OneByOne SpellsMasked (left items.entry) ps)) }
{
    let mut rest = items;
    while let Some(item) = rest.next() {
        if read_masked(item).is_none() {
            return false;
        }
    }
    true
}
