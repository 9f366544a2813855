//! A peer's line.
ghost use Rattle.std.specs.Prelude.{◌≡◌, ◌+◌, ℕ, List, IfOk, IfErr, IfSome, IfNone};
ghost use Rattle.wgr_text.specs.Prefix.{PrefixValue};
ghost use Rattle.wgr_dump.specs.Fields.{fields_of, peer_forms};
ghost use Rattle.wgr_text.specs.KeyText.{SpellsKey};
ghost use Rattle.wgr_dump.specs.Dump.{LineValue, IsPeerLine};
ghost use Rattle.wgr_dump.specs.Fault.{IsBadField};
ghost use Rattle.wgr_dump.specs.PartsLeft.{left};
ghost use Rattle.wgr_dump.specs.MeantPrefixes.{MeantPrefixes, MeantPrefixes-prop};

use crate::allowed::Allowed;
use crate::remaining_parts::RemainingParts;
use crate::taking::{
    take_allowed, take_count, take_keepalive, take_key, take_optional_key, take_word,
};
use crate::written_count::WrittenCount;
use std::marker::Model;
use wgr_text::Key;

/// The line of a peer. Its preshared key and its endpoint are skipped.
#[derive(Drop)]
pub struct PeerLine<'a> {
    key_text: &'a [u8],
    key: Key,
    items: RemainingParts<'a>,
    handshake: WrittenCount<'a>,
    received: WrittenCount<'a>,
    sent: WrittenCount<'a>,
    keepalive: u16,
    ghost known: { MeantPrefixes (left items) } by { MeantPrefixes-prop (left items) },
}

impl<'a> Model for PeerLine<'a> {
    ghost use Rattle.wgr_dump.specs.Fields.{SpellsMasked};
    ghost use Rattle.wgr_text.specs.KeyText.{SpellsKey};
    ghost use Rattle.wgr_dump.specs.Dump.{LineValue};
    ghost use Rattle.wgr_dump.specs.PartsLeft.{left};
    ghost use Rattle.wgr_dump.specs.Meant.{meant};

    ghost Value = { LineValue };

    ghost view = { λ p. record { key = p.key; allowed = meant SpellsMasked (left p.items) p.known; handshake = p.handshake; received = p.received; sent = p.sent; keepalive = p.keepalive } };

    ghost invariant = { λ p. SpellsKey p.key_text.now p.key };
}

impl<'a> PeerLine<'a> {
    /// The line, or the number of its least bad field, counted from 1.
    // A table: the fields in their order, each with its number.
    pub(crate) fn read(line: &'a [u8]) -> Result<PeerLine<'a>, u8>
        ensures ok { IfOk result (IsPeerLine line.entry.now) }
        ensures err { IfErr result (λ field. (n : ℕ) × (field ≡ n + 1) × IsBadField peer_forms (fields_of line.entry.now) n) }
    {
        let mut fields = RemainingParts::new(line, b'\t');
        let Some((key_text, key)) = take_key(&mut fields) else {
            return Err(1);
        };
        let Some(_preshared_key) = take_optional_key(&mut fields) else {
            return Err(2);
        };
        let Some(()) = take_word(&mut fields) else {
            return Err(3);
        };
        let Some(items) = take_allowed(&mut fields) else {
            return Err(4);
        };
        let Some(handshake) = take_count(&mut fields) else {
            return Err(5);
        };
        let Some(received) = take_count(&mut fields) else {
            return Err(6);
        };
        let Some(sent) = take_count(&mut fields) else {
            return Err(7);
        };
        let Some(keepalive) = take_keepalive(&mut fields) else {
            return Err(8);
        };
        if fields.next().is_some() {
            return Err(9);
        }
        Ok(PeerLine {
            key_text,
            key,
            items,
            handshake,
            received,
            sent,
            keepalive,
        })
    }

    /// The peer's public key.
    pub fn key(&self) -> Key
        ensures { result ≡ self.now.key }
    {
        self.key
    }

    /// How the public key is written.
    pub fn key_text(&self) -> &'a [u8]
        ensures { SpellsKey result.now self.now.key }
    {
        self.key_text
    }

    /// The prefixes of the peer, in the order of the line.
    pub fn allowed(&self) -> Allowed<'a>
        ensures { result ≡ self.now.allowed }
    {
        Allowed { items: self.items }
    }

    /// When the last handshake was, in seconds since 1970, or 0 if there was none.
    pub fn handshake(&self) -> &WrittenCount<'a>
        ensures { result.now ≡ self.now.handshake }
    {
        &self.handshake
    }

    /// How many bytes came from the peer.
    pub fn received(&self) -> &WrittenCount<'a>
        ensures { result.now ≡ self.now.received }
    {
        &self.received
    }

    /// How many bytes were sent to the peer.
    pub fn sent(&self) -> &WrittenCount<'a>
        ensures { result.now ≡ self.now.sent }
    {
        &self.sent
    }

    /// The seconds between keepalives, or 0 if none are sent.
    pub fn keepalive(&self) -> u16
        ensures { result ≡ self.now.keepalive }
    {
        self.keepalive
    }
}
