//! Numbers, read from the places of a row, if they are there.
ghost use Rattle.std.specs.Prelude.{◌≡◌, ◌↔◌, pos, IfSome, IfNone, IsTrue};
ghost use Rattle.sqlite_value.specs.Order.{column};
ghost use Rattle.sqlite_rules.specs.Edit.{id_in};
ghost use Rattle.sqlite.specs.declared.types.Value.TheVariants.{Null, Int};
ghost use Rattle.wgr_model.specs.Rows.{peer_id};
ghost use Rattle.wgr_columns.specs.Decode.{IsNumberAt, number_at};
ghost use Rattle.wgr_columns.specs.Fields.{IsCapacityAt, IsCountAt, IsIdAt, IsIntegerAt, IsLeaseEndAt, IsPeerIdAt, IsPortAt, IsShortAt, IsWordAt};

use crate::value::first_id;
use sqlite::Row;
use sqlite::types::ValueRef;
use wgr_model::MAX_ENTRIES;
use wgr_peers::{Capacity, Count, LeaseEnd, Port};

/// Whether this place is NULL.
pub fn is_null_at(row: &Row, at: usize) -> bool
    ensures { IsTrue result ↔ (column row.now at ≡ Null) }
{
    match row.get_ref(at) {
        Ok(ValueRef::Null) | Err(_) => true,
        _ => false,
    }
}

/// The integer at this place.
pub fn integer_at(row: &Row, at: usize) -> Option<i64>
    ensures some { IfSome result (λ number. IsIntegerAt row.now at × (number ≡ id_in (column row.now at))) }
    ensures none { IfNone result (IsIntegerAt row.now at → ⊥) }
{
    let Ok(ValueRef::Int(number)) = row.get_ref(at) else {
        return None;
    };
    Some(number)
}

/// The number at this place, if it is not negative.
pub fn number_at(row: &Row, at: usize) -> Option<u64>
    ensures some { IfSome result (λ number. IsNumberAt row.now at × (number ≡ number_at row.now at)) }
    ensures none { IfNone result (IsNumberAt row.now at → ⊥) }
{
    let number = integer_at(row, at)?;
    match u64::try_from(number) {
        Ok(number) => Some(number),
        Err(_) => None,
    }
}

/// The number at this place without its sign; 0 if there is none.
pub fn magnitude_at(row: &Row, at: usize) -> u64
    ensures { result ≡ number_at row.now at }
{
    match row.get_ref(at) {
        Ok(ValueRef::Int(number)) => number.unsigned_abs(),
        _ => 0,
    }
}

/// Whether this number is at this place.
pub fn has_number(row: &Row, at: usize, number: u64) -> bool
    ensures { IsTrue result ↔ (column row.now at ≡ Int (pos number)) }
{
    match number_at(row, at) {
        Some(found) => found == number,
        None => false,
    }
}

/// The number at this place, below 2^16.
pub fn short_at(row: &Row, at: usize) -> Option<u16>
    ensures some { IfSome result (λ number. IsShortAt row.now at × (number ≡ number_at row.now at)) }
    ensures none { IfNone result (IsShortAt row.now at → ⊥) }
{
    match u16::try_from(number_at(row, at)?) {
        Ok(number) => Some(number),
        Err(_) => None,
    }
}

/// The number at this place, below 2^32.
pub fn word_at(row: &Row, at: usize) -> Option<u32>
    ensures some { IfSome result (λ number. IsWordAt row.now at × (number ≡ number_at row.now at)) }
    ensures none { IfNone result (IsWordAt row.now at → ⊥) }
{
    match u32::try_from(number_at(row, at)?) {
        Ok(number) => Some(number),
        Err(_) => None,
    }
}

/// The id at this place, of a tenant or a network.
pub fn id_at(row: &Row, at: usize) -> Option<u32>
    ensures some { IfSome result (λ id. IsIdAt row.now at × (id ≡ number_at row.now at)) }
    ensures none { IfNone result (IsIdAt row.now at → ⊥) }
{
    match word_at(row, at) {
        Some(id) if 1 <= id && id as usize <= MAX_ENTRIES => Some(id),
        _ => None,
    }
}

/// The port at this place.
pub fn port_at(row: &Row, at: usize) -> Option<Port>
    ensures some { IfSome result (λ port. IsPortAt row.now at × (port ≡ number_at row.now at)) }
    ensures none { IfNone result (IsPortAt row.now at → ⊥) }
{
    Port::new(short_at(row, at)?)
}

/// The capacity at this place.
pub fn capacity_at(row: &Row, at: usize) -> Option<Capacity>
    ensures some { IfSome result (λ capacity. IsCapacityAt row.now at × (capacity ≡ number_at row.now at)) }
    ensures none { IfNone result (IsCapacityAt row.now at → ⊥) }
{
    Capacity::new(short_at(row, at)?)
}

/// The count at this place.
pub fn count_at(row: &Row, at: usize) -> Option<Count>
    ensures some { IfSome result (λ count. IsCountAt row.now at × (count ≡ number_at row.now at)) }
    ensures none { IfNone result (IsCountAt row.now at → ⊥) }
{
    let number = number_at(row, at)?;
    let count = Count::new(number);
    if count.value() != number {
        return None;
    }
    Some(count)
}

/// The end of a lease at this place.
pub fn end_at(row: &Row, at: usize) -> Option<LeaseEnd>
    ensures some { IfSome result (λ end. IsLeaseEndAt row.now at × (end ≡ number_at row.now at)) }
    ensures none { IfNone result (IsLeaseEndAt row.now at → ⊥) }
{
    LeaseEnd::new(number_at(row, at)?)
}

/// The number of the network's peer whose row has the id at this place.
pub fn peer_number_at(row: &Row, at: usize, network: u32) -> Option<u32>
    ensures some { IfSome result (λ number. IsPeerIdAt row.now at network × (peer_id network number ≡ number_at row.now at)) }
    ensures none { IfNone result (IsPeerIdAt row.now at network → ⊥) }
{
    let id = number_at(row, at)?;
    let first = first_id(network);
    if id < first {
        return None;
    }
    match u32::try_from(id - first) {
        Ok(number) => Some(number),
        Err(_) => None,
    }
}
