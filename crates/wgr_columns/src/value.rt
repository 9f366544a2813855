//! Values as parameters of a statement.
ghost use Rattle.std.specs.Prelude.{◌≡◌, pos};
ghost use Rattle.sqlite.specs.declared.types.ValueRef.TheVariants.{Int};
ghost use Rattle.wgr_model.specs.Rows.{peer_id, family_number};
ghost use Rattle.wgr_columns.specs.Decode.{bytes_of};
ghost use Rattle.wgr_columns.specs.Parameters.{status_value};

use sqlite::types::ValueRef;
use wgr_peers::{Count, LeaseEnd, Status};
use wgr_text::Family;

// How many ids of peers belong to a network.
const IDS_PER_NETWORK: u64 = 1_048_576;

/// A number.
pub fn number_value(number: u32) -> ValueRef<'static>
    ensures { result ≡ Int (pos number) }
{
    ValueRef::Int(i64::from(number))
}

/// The id before those of a network's peers: the id of each peer is this one plus its number.
pub(crate) fn first_id(network: u32) -> u64
    ensures { result ≡ peer_id network 0 }
{
    u64::from(network) * IDS_PER_NETWORK
}

/// The id of a peer's row.
pub fn peer_id_value(network: u32, number: u32) -> ValueRef<'static>
    ensures { result ≡ Int (pos (peer_id network number)) }
{
    ValueRef::Int((first_id(network) + u64::from(number)) as i64)
}

/// A family: 4 or 6.
pub fn family_value(family: Family) -> ValueRef<'static>
    ensures { result ≡ Int (pos (family_number family)) }
{
    match family {
        Family::V4 => ValueRef::Int(4),
        Family::V6 => ValueRef::Int(6),
    }
}

/// The 16 bytes of an address's number, in big-endian order.
pub fn bytes_of(number: u128) -> [u8; 16]
    ensures { result ≡ bytes_of number }
{
    number.to_be_bytes()
}

/// When a lease ends.
pub fn end_value(end: LeaseEnd) -> ValueRef<'static>
    ensures { result ≡ Int (pos end) }
{
    ValueRef::Int(end.seconds() as i64)
}

/// A count.
pub fn count_value(count: Count) -> ValueRef<'static>
    ensures { result ≡ Int (pos count) }
{
    ValueRef::Int(count.value() as i64)
}

/// The latest handshake, and the bytes received and sent; all three NULL where there is no status.
pub fn status_values(
    status: Option<Status>,
) -> (ValueRef<'static>, ValueRef<'static>, ValueRef<'static>)
    ensures handshake { result.0 ≡ status_value (λ s. s.handshake) status }
    ensures received { result.1 ≡ status_value (λ s. s.received) status }
    ensures sent { result.2 ≡ status_value (λ s. s.sent) status }
{
    match status {
        None => (ValueRef::Null, ValueRef::Null, ValueRef::Null),
        Some(status) => (
            count_value(status.handshake),
            count_value(status.received),
            count_value(status.sent),
        ),
    }
}
