//! Texts, read from the places of a row, if they are there.
ghost use Rattle.std.specs.Prelude.{◌≡◌, IfErr, IfOk, IfSome, IfNone, bytes_eq};
ghost use Rattle.wgr_peers.specs.Host.{IsHostText};
ghost use Rattle.wgr_sql.specs.declared.fault.Fault.TheVariants.{NoMemory};
ghost use Rattle.wgr_columns.specs.Decode.{IsKindAt, bytes_at, route_kind};
ghost use Rattle.wgr_columns.specs.Fields.{IsHostAt, IsLabelAt, IsNameAt};

use sqlite::Row;
use sqlite::types::ValueRef;
use std::alloc::Global;
use wgr_peers::{Host, Label, Name};
use wgr_sql::Fault;

/// The name at this place, of a tenant or a network.
pub fn name_at(alloc: Global, row: &Row, at: usize) -> Result<Option<Name>, Fault>
    ensures some { IfOk result (λ found. IfSome found (λ name. IsNameAt row.now at × (name ≡ bytes_at row.now at))) }
    ensures none { IfOk result (λ found. IfNone found (IsNameAt row.now at → ⊥)) }
    ensures memory { IfErr result (λ why. why ≡ NoMemory) }
{
    let Ok(ValueRef::Text(name)) = row.get_ref(at) else {
        return Ok(None);
    };
    match Name::read(alloc, name) {
        Ok(found) => Ok(found),
        Err(_) => Err(Fault::NoMemory),
    }
}

/// The label at this place.
pub fn label_at(alloc: Global, row: &Row, at: usize) -> Result<Option<Label>, Fault>
    ensures some { IfOk result (λ found. IfSome found (λ label. IsLabelAt row.now at × (label ≡ bytes_at row.now at))) }
    ensures none { IfOk result (λ found. IfNone found (IsLabelAt row.now at → ⊥)) }
    ensures memory { IfErr result (λ why. why ≡ NoMemory) }
{
    let Ok(ValueRef::Text(label)) = row.get_ref(at) else {
        return Ok(None);
    };
    match Label::read(alloc, label) {
        Ok(found) => Ok(found),
        Err(_) => Err(Fault::NoMemory),
    }
}

// The host that is stored as this text.
fn host_of(alloc: Global, text: &[u8]) -> Result<Option<Host>, Fault>
    ensures some { IfOk result (λ found. IfSome found (λ host. IsHostText text.now text.now × (host ≡ text.now))) }
    ensures none { IfOk result (λ found. IfNone found (IsHostText text.now text.now → ⊥)) }
    ensures memory { IfErr result (λ why. why ≡ NoMemory) }
{
    let Ok(found) = Host::read(alloc, text) else {
        return Err(Fault::NoMemory);
    };
    let Some(host) = found else {
        return Ok(None);
    };
    if host.as_str().as_bytes() != text {
        return Ok(None);
    }
    Ok(Some(host))
}

/// The host at this place, if its text is the one that the register stores for it.
pub fn host_at(alloc: Global, row: &Row, at: usize) -> Result<Option<Host>, Fault>
    ensures some { IfOk result (λ found. IfSome found (λ host. IsHostAt row.now at × (host ≡ bytes_at row.now at))) }
    ensures none { IfOk result (λ found. IfNone found (IsHostAt row.now at → ⊥)) }
    ensures memory { IfErr result (λ why. why ≡ NoMemory) }
{
    let Ok(ValueRef::Text(text)) = row.get_ref(at) else {
        return Ok(None);
    };
    host_of(alloc, text)
}

/// The kind of an allowed prefix at this place: whether it is a route, not a peer's address.
pub fn is_route_at(row: &Row, at: usize) -> Option<bool>
    ensures some { IfSome result (λ is. IsKindAt row.now at × (is ≡ bytes_eq (bytes_at row.now at) route_kind)) }
    ensures none { IfNone result (IsKindAt row.now at → ⊥) }
{
    let Ok(ValueRef::Text(kind)) = row.get_ref(at) else {
        return None;
    };
    if kind == b"route".as_slice() {
        return Some(true);
    }
    if kind == b"address".as_slice() {
        return Some(false);
    }
    None
}
