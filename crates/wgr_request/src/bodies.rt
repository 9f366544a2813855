//! JSON bodies as commands. A body has no members but those of its path; of repeated members the last
//! counts.
ghost use Rattle.std.specs.Prelude.{◌≡◌, map, string_bytes, bytes_eq, option_map, Err, IfOk};
ghost use Rattle.std.specs.List.{list_all, list_any};
ghost use Rattle.serde_json.specs.View.{view};
ghost use Rattle.wgr_request.specs.declared.bodies.BodyFault.TheVariants as body_fault;
ghost use Rattle.wgr_request.specs.declared.fault.RequestFault.TheVariants as fault;
ghost use Rattle.wgr_request.specs.Bodies.{AddFields, IsAdd, IsMove, IsObject, IsRenew, IsRouteBody, IsUnroute, MoveFields, ReadsAs, has_only};

use crate::fault::{RequestFault, RequestField};
use crate::fields::{
    address_field, end_field, keepalive_field, key_field, label_field, prefix_field,
};
use serde_json::{Map, Value};
use std::alloc::{AllocError, Global};
use wgr_core::{Command, LeaseEnd};

/// Why a body gives no command.
#[derive(Clone, Copy, Debug, Drop)]
pub enum BodyFault {
    /// The request is refused.
    Refused(RequestFault),
    /// Memory was refused.
    NoMemory,
}

impl From<AllocError> for BodyFault {
    ghost use Rattle.std.specs.Prelude.{◌≡◌};
    ghost use Rattle.wgr_request.specs.declared.bodies.BodyFault.TheVariants.{NoMemory};

    ghost from_gives = { λ _ r. r ≡ NoMemory };

    fn from(_: AllocError) -> BodyFault {
        BodyFault::NoMemory
    }
}

/// The command of a new peer: `key`, `label`, `address`, `end` and `keepalive`, of which only the key
/// has to be there.
pub fn read_add(alloc: Global, body: &[u8]) -> Result<Command, BodyFault>
    ensures { ReadsAs (IsAdd body.now) result }
{
    let listed = ["key", "label", "address", "end", "keepalive"];
    let Some(fields) = object_of(alloc, body, &listed)? else {
        return bad(RequestField::Body);
    };
    add_of(alloc, &fields)
}

fn add_of(alloc: Global, fields: &Value) -> Result<Command, BodyFault>
    ensures { ReadsAs (AddFields (view fields.now)) result }
{
    let Some(key) = key_field(fields) else {
        return bad(RequestField::Key);
    };
    let Some(label) = label_field(alloc, fields)? else {
        return bad(RequestField::Label);
    };
    let Some(address) = address_field(fields) else {
        return bad(RequestField::Address);
    };
    let Some(until) = end_field(fields, Some(LeaseEnd::never())) else {
        return bad(RequestField::End);
    };
    let Some(keepalive) = keepalive_field(fields) else {
        return bad(RequestField::Keepalive);
    };
    Ok(Command::Add {
        key,
        label,
        address,
        until,
        keepalive,
    })
}

/// The command that moves the peer of this number: `address`, or the lowest free one.
pub fn read_move(alloc: Global, number: u32, body: &[u8]) -> Result<Command, BodyFault>
    ensures { ReadsAs (IsMove number body.now) result }
{
    let Some(fields) = object_of(alloc, body, &["address"])? else {
        return bad(RequestField::Body);
    };
    match address_field(&fields) {
        Some(address) => Ok(Command::Move { number, address }),
        None => bad(RequestField::Address),
    }
}

/// The command that routes a prefix to the peer of this number: `prefix`.
pub fn read_route(alloc: Global, number: u32, body: &[u8]) -> Result<Command, BodyFault>
    ensures { ReadsAs (IsRouteBody number body.now) result }
{
    let Some(fields) = object_of(alloc, body, &["prefix"])? else {
        return bad(RequestField::Body);
    };
    match prefix_field(&fields) {
        Some(prefix) => Ok(Command::Route { number, prefix }),
        None => bad(RequestField::Prefix),
    }
}

/// The command that gives the peer of this number another lease: `end`.
pub fn read_renew(alloc: Global, number: u32, body: &[u8]) -> Result<Command, BodyFault>
    ensures { ReadsAs (IsRenew number body.now) result }
{
    let Some(fields) = object_of(alloc, body, &["end"])? else {
        return bad(RequestField::Body);
    };
    match end_field(&fields, None) {
        Some(until) => Ok(Command::Renew { number, until }),
        None => bad(RequestField::End),
    }
}

/// The command that removes a route: `prefix`.
pub fn read_unroute(alloc: Global, body: &[u8]) -> Result<Command, BodyFault>
    ensures { ReadsAs (IsUnroute body.now) result }
{
    let Some(fields) = object_of(alloc, body, &["prefix"])? else {
        return bad(RequestField::Body);
    };
    match prefix_field(&fields) {
        Some(prefix) => Ok(Command::Unroute { prefix }),
        None => bad(RequestField::Prefix),
    }
}

fn bad(field: RequestField) -> Result<Command, BodyFault>
    ensures { result ≡ Err (body_fault.Refused (fault.BadField field)) }
{
    Err(BodyFault::Refused(RequestFault::BadField(field)))
}

// The object that a body is, where it has no members but the listed ones.
fn object_of(alloc: Global, body: &[u8], listed: &[&str]) -> Result<Option<Value>, AllocError>
    ensures { IfOk result (λ found. IsObject (map (λ n. n.now) listed.now) body.now (option_map view found)) }
{
    match Value::from_slice(alloc, body) {
        Ok(value) => {
            if has_only(&value, listed) {
                Ok(Some(value))
            } else {
                Ok(None)
            }
        }
        Err(why) => {
            if why.is_memory() {
                Err(AllocError)
            } else {
                Ok(None)
            }
        }
    }
}

// Whether a value is an object that has no members but the listed ones.
fn has_only(value: &Value, listed: &[&str]) -> bool
    ensures { result ≡ has_only (map (λ n. n.now) listed.now) (view value.now) }
{
    match value.as_object() {
        Some(members) => are_listed(members, listed),
        None => false,
    }
}

fn are_listed(members: &Map<String, Value>, listed: &[&str]) -> bool
    ensures { result ≡ list_all (λ k. list_any (λ n. bytes_eq (string_bytes k) n.now) listed.now) (map (λ m. m.0) members.now.entries) }
{
    members.keys().all(|name| is_listed(name, listed))
}

fn is_listed(name: &String, listed: &[&str]) -> bool
    ensures { result ≡ list_any (λ n. bytes_eq (string_bytes name.now) n.now) listed.now }
{
    listed.iter().any(|other| name.as_str() == *other)
}
