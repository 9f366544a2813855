//! The fields of the words, each parsed by its form.
ghost use Rattle.std.specs.Prelude.{◌≡◌, option_map};
ghost use Rattle.wgr_text.specs.KeyText.{SpellsKey};
ghost use Rattle.wgr_peers.specs.Host.{IsHostText};
ghost use Rattle.wgr_words.specs.Words.{IsRead, SpellsCapacity, SpellsDigest, SpellsEndpoint, SpellsName, SpellsPlace, SpellsPortNumber, SpellsRight, SpellsToken, SpellsWhole, word_field_name};
ghost use Rattle.wgr_words.specs.declared.field.WordField.TheVariants as of;

use crate::endpoint::read_endpoint;
use crate::numbers::{read_capacity, read_port, read_whole};
use hex::FromHex;
use std::alloc::{AllocError, Global};
use std::fmt;
use std::net::IpAddr;
use wgr_core::{Capacity, Host, Name, Port};
use wgr_orders::Right;
use wgr_request::token_digest;
use wgr_text::{Addr, Key, read_loose};

/// A field of the words.
#[derive(Clone, Copy, Debug, PartialEq, Eq)]
pub enum WordField {
    Tenant,
    Name,
    Pool,
    Host,
    Port,
    Key,
    Capacity,
    HostPort,
    Count,
    Now,
    Digest,
    Right,
    Token,
}

impl WordField {
    /// The field's name in lower case.
    pub fn name(self) -> &'static str
        ensures { result.now ≡ word_field_name self }
    {
        match self {
            WordField::Tenant => "tenant",
            WordField::Name => "name",
            WordField::Pool => "pool",
            WordField::Host => "host",
            WordField::Port => "port",
            WordField::Key => "key",
            WordField::Capacity => "capacity",
            WordField::HostPort => "host:port",
            WordField::Count => "count",
            WordField::Now => "now",
            WordField::Digest => "digest",
            WordField::Right => "right",
            WordField::Token => "token",
        }
    }
}

impl fmt::Display for WordField {
    fn fmt<W: fmt::Write>(&self, f: &mut fmt::Formatter<W>) -> fmt::Result {
        f.write_str(self.name())
    }
}

/// Why the words and standard input make no order.
#[derive(Clone, Copy, Debug, PartialEq, Eq)]
pub enum WordFault {
    /// The first malformed field.
    Field(WordField),
    /// Memory was refused.
    NoMemory,
    /// Standard input failed.
    Device,
}

impl From<AllocError> for WordFault {
    ghost use Rattle.std.specs.Prelude.{◌≡◌};
    ghost use Rattle.wgr_words.specs.declared.field.WordFault.TheVariants.{NoMemory};

    ghost from_gives = { λ _ r. r ≡ NoMemory };

    fn from(_: AllocError) -> WordFault {
        WordFault::NoMemory
    }
}

/// The name of a tenant or of a network in this field.
pub(crate) fn read_name(alloc: Global, field: WordField, text: &str) -> Result<Name, WordFault>
    ensures { IsRead (SpellsName text.now) field result }
{
    match Name::read(alloc, text.as_bytes())? {
        Some(name) => Ok(name),
        None => Err(WordFault::Field(field)),
    }
}

/// The address and the length of a prefix; an order takes them even if they aren't a valid pool.
pub(crate) fn read_pool(text: &str) -> Result<(Addr, u8), WordFault>
    ensures { IsRead (SpellsPlace text.now) of.Pool result }
{
    match read_loose(text.as_bytes()) {
        Some(pool) => Ok(pool),
        None => Err(WordFault::Field(WordField::Pool)),
    }
}

pub(crate) fn read_host(alloc: Global, text: &str) -> Result<Host, WordFault>
    ensures { IsRead (IsHostText text.now) of.Host result }
{
    match Host::read(alloc, text.as_bytes())? {
        Some(host) => Ok(host),
        None => Err(WordFault::Field(WordField::Host)),
    }
}

pub(crate) fn read_port_field(text: &str) -> Result<Port, WordFault>
    ensures { IsRead (SpellsPortNumber text.now) of.Port result }
{
    match read_port(text) {
        Some(port) => Ok(port),
        None => Err(WordFault::Field(WordField::Port)),
    }
}

pub(crate) fn read_key(text: &str) -> Result<Key, WordFault>
    ensures { IsRead (SpellsKey text.now) of.Key result }
{
    match Key::read(text.as_bytes()) {
        Some(key) => Ok(key),
        None => Err(WordFault::Field(WordField::Key)),
    }
}

pub(crate) fn read_capacity_field(text: &str) -> Result<Capacity, WordFault>
    ensures { IsRead (SpellsCapacity text.now) of.Capacity result }
{
    match read_capacity(text) {
        Some(capacity) => Ok(capacity),
        None => Err(WordFault::Field(WordField::Capacity)),
    }
}

/// The address and the port at which to listen: an IPv4 address or an IPv6 address in brackets, `:` and
/// a port from 1 to 65,535.
pub fn read_endpoint_field(text: &str) -> Result<(IpAddr, Port), WordFault>
    ensures { IsRead (SpellsEndpoint text.now) of.HostPort result }
{
    match read_endpoint(text.as_bytes()) {
        Some(endpoint) => Ok(endpoint),
        None => Err(WordFault::Field(WordField::HostPort)),
    }
}

/// The number of connections, or the moment in seconds, in this field: 1 to 19 decimal digits, up
/// to 9,223,372,036,854,775,807.
pub fn read_whole_field(field: WordField, text: &str) -> Result<u64, WordFault>
    ensures { IsRead (SpellsWhole text.now) field result }
{
    match read_whole(text) {
        Some(number) => Ok(number),
        None => Err(WordFault::Field(field)),
    }
}

/// The 32 bytes that 64 hexadecimal digits spell, in either case.
pub(crate) fn read_digest(text: &str) -> Result<[u8; 32], WordFault>
    ensures { IsRead (SpellsDigest text.now) of.Digest result }
{
    match <[u8; 32] as FromHex>::from_hex(text) {
        Ok(digest) => Ok(digest),
        Err(_) => Err(WordFault::Field(WordField::Digest)),
    }
}

/// What a token allows; without a text, every command.
pub(crate) fn read_right(text: Option<&str>) -> Result<Right, WordFault>
    ensures { IsRead (SpellsRight (option_map (λ word. word.now) text.entry)) of.Right result }
{
    match text {
        None | Some("full") => Ok(Right::Full),
        Some("read") => Ok(Right::Read),
        Some(_) => Err(WordFault::Field(WordField::Right)),
    }
}

/// The digest of a token on one line, whose newline may be missing.
pub(crate) fn read_token(text: &[u8]) -> Result<[u8; 32], WordFault>
    ensures { IsRead (SpellsToken text.now) of.Token result }
{
    let line = match text.strip_suffix(b"\n".as_slice()) {
        Some(line) => line,
        None => text,
    };
    match token_digest(line) {
        Some(digest) => Ok(digest),
        None => Err(WordFault::Field(WordField::Token)),
    }
}
