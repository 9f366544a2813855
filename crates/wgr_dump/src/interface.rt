//! The interface's line.
ghost use Rattle.std.specs.Prelude.{◌≡◌, ◌+◌, ℕ, IfOk, IfErr, MatchOption, Some, None};
ghost use Rattle.wgr_text.specs.declared.key.Key.{Key};
ghost use Rattle.wgr_dump.specs.Fields.{fields_of, interface_forms};
ghost use Rattle.wgr_text.specs.KeyText.{SpellsKey};
ghost use Rattle.wgr_dump.specs.Dump.{IsInterfaceLine};
ghost use Rattle.wgr_dump.specs.Fault.{IsBadField};

use crate::remaining_parts::RemainingParts;
use crate::taking::{take_optional_key, take_port, take_word};
use std::marker::Model;
use wgr_text::Key;

/// The line of the interface itself.
#[derive(Drop)]
pub struct InterfaceLine<'a> {
    key_text: &'a [u8],
    key: Option<Key>,
    port: u16,
}

impl<'a> Model for InterfaceLine<'a> {
    ghost use Rattle.wgr_dump.specs.Fields.{SpellsOptionalKey};
    ghost use Rattle.wgr_dump.specs.Dump.{InterfaceValue};

    ghost Value = { InterfaceValue };

    ghost view = { λ i. record { public_key = i.key; port = i.port } };

    ghost invariant = { λ i. SpellsOptionalKey i.key_text.now i.key };
}

impl<'a> InterfaceLine<'a> {
    /// The line, or the number of its least bad field, counted from 1.
    pub(crate) fn read(line: &'a [u8]) -> Result<InterfaceLine<'a>, u8>
        ensures ok { IfOk result (IsInterfaceLine line.entry.now) }
        ensures err { IfErr result (λ field. (n : ℕ) × (field ≡ n + 1) × IsBadField interface_forms (fields_of line.entry.now) n) }
    {
        let mut fields = RemainingParts::new(line, b'\t');
        let Some(_private_key) = take_optional_key(&mut fields) else {
            return Err(1);
        };
        let Some((key_text, key)) = take_optional_key(&mut fields) else {
            return Err(2);
        };
        let Some(port) = take_port(&mut fields) else {
            return Err(3);
        };
        let Some(()) = take_word(&mut fields) else {
            return Err(4);
        };
        if fields.next().is_some() {
            return Err(5);
        }
        Ok(InterfaceLine {
            key_text,
            key,
            port,
        })
    }

    /// A copy of the line.
    pub(crate) fn again(&self) -> InterfaceLine<'a>
        ensures { result ≡ self.now }
    {
        InterfaceLine {
            key_text: self.key_text,
            key: self.key,
            port: self.port,
        }
    }

    /// The interface's public key, if it has one.
    pub fn public_key(&self) -> Option<Key>
        ensures { result ≡ self.now.public_key }
    {
        self.key
    }

    /// How the public key is written, if there is one.
    pub fn public_key_text(&self) -> Option<&'a [u8]>
        ensures { MatchOption result (self.now.public_key ≡ None) (λ text. (key : Key) × (self.now.public_key ≡ Some key) × SpellsKey text.now key) }
    {
        match self.key {
            Some(_) => Some(self.key_text),
            None => None,
        }
    }

    /// The UDP port on which the interface listens, or 0.
    pub fn port(&self) -> u16
        ensures { result ≡ self.now.port }
    {
        self.port
    }
}
