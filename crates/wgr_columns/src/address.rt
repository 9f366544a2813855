//! Addresses, prefixes and pools, read from the places of a row, if they are there.
ghost use Rattle.std.specs.Prelude.{◌≡◌, IfSome, IfNone};
ghost use Rattle.sqlite.specs.declared.types.Value.TheVariants.{Blob};
ghost use Rattle.wgr_text.specs.Prefix.{IsAddr, IsPrefix};
ghost use Rattle.wgr_pool.specs.Pool.{IsPool};
ghost use Rattle.wgr_columns.specs.Decode.{address_at, bytes_at, bytes_of, family_of, number_at, number_of, prefix_at};
ghost use Rattle.wgr_columns.specs.declared.columns.allowed.TheConstants as allowed;
ghost use Rattle.wgr_columns.specs.declared.columns.network.TheConstants as network;
ghost use Rattle.wgr_columns.specs.Fields.{IsAddressAt, IsFamilyAt, IsPoolAt, IsPrefixAt, IsSpelledAt};

use crate::columns::{allowed, network};
use crate::number::number_at;
use sqlite::Row;
use sqlite::types::ValueRef;
use wgr_pool::Pool;
use wgr_text::{Addr, Family, Prefix, are_bytes};

/// The family at this place.
pub fn family_at(row: &Row, at: usize) -> Option<Family>
    ensures some { IfSome result (λ family. IsFamilyAt row.now at × (family ≡ family_of (number_at row.now at))) }
    ensures none { IfNone result (IsFamilyAt row.now at → ⊥) }
{
    match number_at(row, at)? {
        4 => Some(Family::V4),
        6 => Some(Family::V6),
        _ => None,
    }
}

// The number of 16 bytes, in big-endian order.
fn joined(bytes: [u8; 16]) -> u128
    ensures { result ≡ number_of bytes }
{
    u128::from_be_bytes(bytes)
}

// The number that has these bytes, in big-endian order.
fn number_of(bytes: &[u8]) -> Option<u128>
    ensures some { IfSome result (λ number. (Blob bytes.now ≡ Blob (bytes_of (number_of bytes.now))) × (number ≡ number_of bytes.now)) }
    ensures none { IfNone result (Blob bytes.now ≡ Blob (bytes_of (number_of bytes.now)) → ⊥) }
{
    are_bytes(bytes);
    if bytes.len() != 16 {
        return None;
    }
    let mut all = [0; 16];
    all.copy_from_slice(bytes);
    Some(joined(all))
}

/// The number of an address, whose 16 bytes are at this place.
pub fn address_number_at(row: &Row, at: usize) -> Option<u128>
    ensures some { IfSome result (λ number. IsSpelledAt row.now at × (number ≡ number_of (bytes_at row.now at))) }
    ensures none { IfNone result (IsSpelledAt row.now at → ⊥) }
{
    let Ok(ValueRef::Blob(bytes)) = row.get_ref(at) else {
        return None;
    };
    number_of(bytes)
}

/// The address whose family is at the one place, and its number at the other.
pub fn address_at(row: &Row, family: usize, at: usize) -> Option<Addr>
    ensures some { IfSome result (λ address. IsAddressAt row.now family at × (address ≡ address_at row.now family at)) }
    ensures none { IfNone result (IsAddressAt row.now family at → ⊥) }
{
    let family = family_at(row, family)?;
    Addr::new(family, address_number_at(row, at)?)
}

// The prefix with this first address and length.
fn prefix_of(address: Addr, length: u64) -> Option<Prefix>
    ensures some { IfSome result (λ prefix. IsPrefix (record { address = address; length = length }) × (prefix ≡ record { address = address; length = length })) }
    ensures none { IfNone result (IsPrefix (record { address = address; length = length }) → ⊥) }
{
    let Ok(length) = u8::try_from(length) else {
        return None;
    };
    let prefix = Prefix::masked(address, length)?;
    if prefix.address() != address {
        return None;
    }
    Some(prefix)
}

/// The prefix of a row of `allowed`.
pub fn prefix_in(row: &Row) -> Option<Prefix>
    ensures some { IfSome result (λ prefix. IsPrefixAt row.now allowed.FAMILY × (prefix ≡ prefix_at row.now allowed.FAMILY)) }
    ensures none { IfNone result (IsPrefixAt row.now allowed.FAMILY → ⊥) }
{
    let address = address_at(row, allowed::FAMILY, allowed::LO)?;
    prefix_of(address, number_at(row, allowed::LENGTH)?)
}

// The pool with this family, first address and length.
fn pool_of(family: Family, number: u128, length: u64) -> Option<Pool>
    ensures some { IfSome result (λ pool. IsPool (record { address = record { family = family; number = number }; length = length }) × (pool ≡ record { address = record { family = family; number = number }; length = length })) }
    ensures none { IfNone result (IsPool (record { address = record { family = family; number = number }; length = length }) → ⊥) }
{
    let address = Addr::new(family, number)?;
    let Ok(length) = u8::try_from(length) else {
        return None;
    };
    match Pool::new(address, length) {
        Ok(pool) => Some(pool),
        Err(_) => None,
    }
}

/// The pool of a row of `network`.
pub fn pool_in(row: &Row) -> Option<Pool>
    ensures some { IfSome result (λ pool. IsPoolAt row.now network.FAMILY × (pool ≡ prefix_at row.now network.FAMILY)) }
    ensures none { IfNone result (IsPoolAt row.now network.FAMILY → ⊥) }
{
    let family = family_at(row, network::FAMILY)?;
    let number = address_number_at(row, network::LO)?;
    let length = number_at(row, network::LENGTH)?;
    pool_of(family, number, length)
}
