//! The fields of JSON bodies, each by its form.
ghost use Rattle.std.specs.Prelude.{◌≡◌, codes, Some, option_map, IfOk};
ghost use Rattle.serde_json.specs.Find.{as_str, get};
ghost use Rattle.serde_json.specs.View.{view};
ghost use Rattle.wgr_dump.specs.Fields.{SpellsMasked};
ghost use Rattle.wgr_text.specs.KeyText.{SpellsKey};
ghost use Rattle.wgr_request.specs.Fields.{IsText, KeyField, LabelField, NamedField, PrefixField, SpellsFull, SpellsLabel, end_value, field_value, keepalive_value};

use serde_json::Value;
use std::alloc::{AllocError, Global};
use wgr_core::{Label, LeaseEnd};
use wgr_text::{Addr, Key, Prefix, read_loose};

// The key that a peer has to have.
pub(crate) fn key_field(body: &Value) -> Option<Key>
    ensures { KeyField (view body.now) result }
{
    match body.get("key") {
        Some(value) => key_of(value),
        None => None,
    }
}

// The label, or the empty one.
pub(crate) fn label_field(alloc: Global, body: &Value) -> Result<Option<Label>, AllocError>
    ensures { IfOk result (λ label. LabelField (view body.now) label) }
{
    match body.get("label") {
        Some(value) => label_of(alloc, value),
        None => Ok(Some(Label::empty(alloc))),
    }
}

// The named address, or none.
pub(crate) fn address_field(body: &Value) -> Option<Option<Addr>>
    ensures { NamedField (view body.now) result }
{
    match body.get("address") {
        Some(value) => Some(Some(address_of(value)?)),
        None => Some(None),
    }
}

// The prefix that a route has to have.
pub(crate) fn prefix_field(body: &Value) -> Option<Prefix>
    ensures { PrefixField (view body.now) result }
{
    match body.get("prefix") {
        Some(value) => prefix_of(value),
        None => None,
    }
}

fn key_of(value: &Value) -> Option<Key>
    ensures { IsText SpellsKey (as_str (view value.now)) result }
{
    match value.as_str() {
        Some(text) => Key::read(text.as_bytes()),
        None => None,
    }
}

fn label_of(alloc: Global, value: &Value) -> Result<Option<Label>, AllocError>
    ensures { IfOk result (λ label. IsText SpellsLabel (as_str (view value.now)) label) }
{
    match value.as_str() {
        Some(text) => Label::read(alloc, text.as_bytes()),
        None => Ok(None),
    }
}

fn address_of(value: &Value) -> Option<Addr>
    ensures { IsText SpellsFull (as_str (view value.now)) result }
{
    match value.as_str() {
        Some(text) => read_full(text.as_bytes()),
        None => None,
    }
}

fn prefix_of(value: &Value) -> Option<Prefix>
    ensures { IsText SpellsMasked (as_str (view value.now)) result }
{
    match value.as_str() {
        Some(text) => read_masked(text.as_bytes()),
        None => None,
    }
}

// An address, with full length where it has one.
fn read_full(text: &[u8]) -> Option<Addr>
    ensures { IsText SpellsFull (Some text.now) result }
{
    let Some((address, length)) = read_loose(text) else {
        return None;
    };
    if length == address.family().width() {
        Some(address)
    } else {
        None
    }
}

// A prefix, with its host bits zero.
fn read_masked(text: &[u8]) -> Option<Prefix>
    ensures { IsText SpellsMasked (Some text.now) result }
{
    match read_loose(text) {
        Some((address, length)) => Prefix::masked(address, length),
        None => None,
    }
}

// The end of a lease; where it is absent, the caller's default.
pub(crate) fn end_field(body: &Value, absent: Option<LeaseEnd>) -> Option<LeaseEnd>
    ensures { result ≡ field_value end_value absent (get (codes "end") (view body.now)) }
{
    match body.get("end") {
        Some(value) => LeaseEnd::new(value.as_u64()?),
        None => absent,
    }
}

// Seconds between keepalives, or 0.
pub(crate) fn keepalive_field(body: &Value) -> Option<u16>
    ensures { result ≡ field_value keepalive_value (Some 0) (get (codes "keepalive") (view body.now)) }
{
    match body.get("keepalive") {
        Some(value) => u16::try_from(value.as_u64()?).ok(),
        None => Some(0),
    }
}
