//! The live peer to which a prefix leads, by the prefix's row and then the peer's.
ghost use Rattle.std.specs.Prelude.{◌≡◌, [], ◌∷◌, false, IfErr, IfOk, List, OnErr};
ghost use Rattle.sqlite.specs.Effect.{Database};
ghost use Rattle.sqlite.specs.State.{HasCleanDisk};
ghost use Rattle.sqlite.specs.Held.{state};
ghost use Rattle.wgr_core.specs.Network.{live_at};
ghost use Rattle.wgr_model.specs.Rows.{peer_id};
ghost use Rattle.wgr_sql.specs.Causes.{HasCause};
ghost use Rattle.wgr_columns.specs.Decode.{AreNatural, tables_of};
ghost use Rattle.wgr_tables.specs.Writes.{Written};
ghost use Rattle.wgr_tables.specs.Standing.{OnlyReads, Stands};
ghost use Rattle.wgr_rows.specs.Directed.{OnNetwork};
ghost use Rattle.wgr_rows.specs.Holder.{HasEnd, HasLead, IsLasting, IsLed, ShowPeer, ShowPrefix, prefix_holder};

use sqlite::types::ValueRef;
use sqlite::{Alter, Connection, Row};
use wgr_columns::{
    allowed, bytes_of, end_at, family_value, number_value, peer, peer_id_value, peer_number_at,
};
use wgr_sql::{Fault, only, query};
use wgr_text::Prefix;

// The row of the prefix, if the network allows it.
fn prefix_rows<S: Alter>(
    conn: &mut Connection<S>,
    network: u32,
    prefix: &Prefix,
) -> Result<Vec<Row>, Fault>
    requires idle { conn.old.in_transaction ≡ false }
    ensures reads { OnlyReads S.Store conn.old conn.new }
    ensures listed { (db : Database) (pending : List Written) → Stands S.Store conn.old db pending → HasCleanDisk (state S.Store conn.new)
        → IfOk result (λ rows. ShowPrefix network prefix.now (tables_of db) rows.items) }
    ensures numbers { (db : Database) (pending : List Written) → Stands S.Store conn.old db pending → HasCleanDisk (state S.Store conn.new)
        → IfOk result (λ rows. AreNatural (6 ∷ []) rows.items) }
    ensures cause { (db : Database) (pending : List Written) → Stands S.Store conn.old db pending → IfErr result (HasCause (state S.Store conn.old) (state S.Store conn.new)) }
{
    let address = prefix.address();
    let lo = bytes_of(address.number());
    query(
        conn,
        "SELECT NULL, network, family, lo, length, hi, peer, kind FROM allowed WHERE network = ?1 AND family = ?2 AND lo = ?3 AND length = ?4",
        &[
            number_value(network),
            family_value(address.family()),
            ValueRef::Blob(&lo),
            number_value(u32::from(prefix.length())),
        ],
    )
}

// The row of the network's peer of this number.
fn peer_rows<S: Alter>(
    conn: &mut Connection<S>,
    network: u32,
    number: u32,
) -> Result<Vec<Row>, Fault>
    requires idle { conn.old.in_transaction ≡ false }
    ensures reads { OnlyReads S.Store conn.old conn.new }
    ensures listed { (db : Database) (pending : List Written) → Stands S.Store conn.old db pending → HasCleanDisk (state S.Store conn.new)
        → IfOk result (λ rows. ShowPeer (peer_id network number) (tables_of db) rows.items) }
    ensures numbers { (db : Database) (pending : List Written) → Stands S.Store conn.old db pending → HasCleanDisk (state S.Store conn.new)
        → IfOk result (λ rows. AreNatural (5 ∷ []) rows.items) }
    ensures cause { (db : Database) (pending : List Written) → Stands S.Store conn.old db pending → IfErr result (HasCause (state S.Store conn.old) (state S.Store conn.new)) }
{
    query(
        conn,
        "SELECT id, NULL, network, key, label, until, keepalive, handshake, received, sent FROM peer WHERE id = ?1",
        &[peer_id_value(network, number)],
    )
}

// The number of the network's peer to which the one row leads, if there is a row.
fn led_number(rows: Vec<Row>, network: u32) -> Result<Option<u32>, Fault>
    ensures found { IfOk result (IsLed rows.items network) }
    ensures only { OnErr result (HasLead rows.items network → ⊥) }
{
    let Some(row) = only(rows)? else {
        return Ok(None);
    };
    let number = peer_number_at(&row, allowed::PEER, network).ok_or(Fault::DAMAGED)?;
    Ok(Some(number))
}

// Whether the lease of the peer of the one row goes on at this moment.
fn lasts(rows: Vec<Row>, now: u64) -> Result<bool, Fault>
    ensures found { IfOk result (IsLasting rows.items now) }
    ensures only { OnErr result (HasEnd rows.items → ⊥) }
{
    let Some(row) = only(rows)? else {
        return Err(Fault::DAMAGED);
    };
    let end = end_at(&row, peer::UNTIL).ok_or(Fault::DAMAGED)?;
    Ok(!end.is_expired(now))
}

/// The number of the network's live peer to which the prefix leads: as its address at full length,
/// or as a route.
pub fn allowed_row<S: Alter>(
    conn: &mut Connection<S>,
    network: u32,
    now: u64,
    prefix: &Prefix,
) -> Result<Option<u32>, Fault>
    requires idle { conn.old.in_transaction ≡ false }
    ensures reads { OnlyReads S.Store conn.old conn.new }
    ensures found { OnNetwork S.Store conn.old network (λ n. HasCleanDisk (state S.Store conn.new) → IfOk result (λ found. found ≡ prefix_holder (live_at n now) prefix.now)) }
    ensures cause { OnNetwork S.Store conn.old network (λ n. IfErr result (HasCause (state S.Store conn.old) (state S.Store conn.new))) }
{
    let rows = prefix_rows(conn, network, prefix)?;
    let Some(number) = led_number(rows, network)? else {
        return Ok(None);
    };
    let peers = peer_rows(conn, network, number)?;
    if lasts(peers, now)? {
        Ok(Some(number))
    } else {
        Ok(None)
    }
}
