//! The live peer that has a key, by its row.
ghost use Rattle.std.specs.Prelude.{◌≡◌, List, IfErr, IfOk, OnErr, false};
ghost use Rattle.sqlite.specs.Effect.{Database};
ghost use Rattle.sqlite.specs.State.{HasCleanDisk};
ghost use Rattle.sqlite.specs.Held.{state};
ghost use Rattle.wgr_core.specs.Network.{live_at};
ghost use Rattle.wgr_peers.specs.Peers.{key_holder};
ghost use Rattle.wgr_sql.specs.Causes.{HasCause};
ghost use Rattle.wgr_columns.specs.Decode.{tables_of};
ghost use Rattle.wgr_tables.specs.Writes.{Written};
ghost use Rattle.wgr_tables.specs.Standing.{OnlyReads, Stands};
ghost use Rattle.wgr_rows.specs.Directed.{OnNetwork};
ghost use Rattle.wgr_rows.specs.Keyed.{HaveNumbers, IsLiveIn, IsPeerIn, ShowKey};

use sqlite::types::ValueRef;
use sqlite::{Alter, Connection, Row};
use wgr_columns::{end_at, number_value, peer, peer_number_at};
use wgr_sql::{Fault, only, query};
use wgr_text::Key;

// The row of the network's peer that has the key.
fn key_rows<S: Alter>(conn: &mut Connection<S>, network: u32, key: &Key) -> Result<Vec<Row>, Fault>
    requires idle { conn.old.in_transaction ≡ false }
    ensures reads { OnlyReads S.Store conn.old conn.new }
    ensures listed { (db : Database) (pending : List Written) → Stands S.Store conn.old db pending → HasCleanDisk (state S.Store conn.new)
        → IfOk result (λ rows. ShowKey network key.now.0 (tables_of db) rows.items) }
    ensures numbers { (db : Database) (pending : List Written) → Stands S.Store conn.old db pending → HasCleanDisk (state S.Store conn.new)
        → IfOk result (λ rows. HaveNumbers rows.items) }
    ensures cause { (db : Database) (pending : List Written) → Stands S.Store conn.old db pending → IfErr result (HasCause (state S.Store conn.old) (state S.Store conn.new)) }
{
    query(
        conn,
        "SELECT id, NULL, network, key, label, until, keepalive, handshake, received, sent FROM peer WHERE network = ?1 AND key = ?2",
        &[number_value(network), ValueRef::Blob(&key.0)],
    )
}

// The number of the peer of the one row, if there is one and its lease isn't over.
fn live_number(rows: Vec<Row>, network: u32, now: u64) -> Result<Option<u32>, Fault>
    ensures lives { IfOk result (IsLiveIn rows.items network now) }
    ensures only { OnErr result (IsPeerIn rows.items network → ⊥) }
{
    let Some(row) = only(rows)? else {
        return Ok(None);
    };
    let until = end_at(&row, peer::UNTIL).ok_or(Fault::DAMAGED)?;
    let number = peer_number_at(&row, peer::ID, network).ok_or(Fault::DAMAGED)?;
    if until.is_expired(now) {
        return Ok(None);
    }
    Ok(Some(number))
}

/// The number of the network's live peer that has this key.
pub fn key_row<S: Alter>(
    conn: &mut Connection<S>,
    network: u32,
    now: u64,
    key: &Key,
) -> Result<Option<u32>, Fault>
    requires idle { conn.old.in_transaction ≡ false }
    ensures reads { OnlyReads S.Store conn.old conn.new }
    ensures found { OnNetwork S.Store conn.old network (λ n. HasCleanDisk (state S.Store conn.new) → IfOk result (λ found. found ≡ key_holder (live_at n now).peers key.now)) }
    ensures cause { OnNetwork S.Store conn.old network (λ n. IfErr result (HasCause (state S.Store conn.old) (state S.Store conn.new))) }
{
    let rows = key_rows(conn, network, key)?;
    live_number(rows, network, now)
}
