//! The peers whose leases are over, by their rows.
ghost use Rattle.std.specs.Prelude.{◌≡◌, List, map, IfErr, IfOk, false};
ghost use Rattle.std.specs.List.{All};
ghost use Rattle.sqlite.specs.Effect.{Database};
ghost use Rattle.sqlite.specs.State.{HasCleanDisk};
ghost use Rattle.sqlite.specs.Held.{state};
ghost use Rattle.wgr_peers.specs.PeerIndex.{EndsFrom};
ghost use Rattle.wgr_peers.specs.Peers.{expired};
ghost use Rattle.wgr_model.specs.Rows.{peer_id};
ghost use Rattle.wgr_sql.specs.Causes.{HasCause};
ghost use Rattle.wgr_sql.specs.Faults.{IsStore};
ghost use Rattle.wgr_columns.specs.Decode.{number_at, peer_in, tables_of};
ghost use Rattle.wgr_columns.specs.Fields.{IsPeerIdAt};
ghost use Rattle.wgr_columns.specs.Stored.{AreRising};
ghost use Rattle.wgr_columns.specs.declared.columns.peer.TheConstants as peer;
ghost use Rattle.wgr_tables.specs.Writes.{Written};
ghost use Rattle.wgr_tables.specs.Standing.{OnlyReads, Stands};
ghost use Rattle.wgr_rows.specs.Directed.{OnNetwork};
ghost use Rattle.wgr_rows.specs.Keyed.{HaveNumbers};
ghost use Rattle.wgr_rows.specs.Owned.{ShowOwned, is_over};

use sqlite::{Alter, Connection, Row};
use std::alloc::Global;
use wgr_columns::{count_value, number_value, peer, peer_id_value, peer_number_at};
use wgr_peers::{Count, MAX_NUMBER};
use wgr_sql::{Fault, query};

// The rows of the network's peers whose leases are over, in the order of their ids.
fn over_rows<S: Alter>(conn: &mut Connection<S>, network: u32, now: u64) -> Result<Vec<Row>, Fault>
    requires idle { conn.old.in_transaction ≡ false }
    ensures reads { OnlyReads S.Store conn.old conn.new }
    ensures listed { (db : Database) (pending : List Written) → Stands S.Store conn.old db pending → HasCleanDisk (state S.Store conn.new)
        → IfOk result (λ rows. ShowOwned network (is_over now) (tables_of db) rows.items) }
    ensures rising { (db : Database) (pending : List Written) → Stands S.Store conn.old db pending → HasCleanDisk (state S.Store conn.new)
        → IfOk result (λ rows. AreRising (λ p. p.id) peer_in rows.items) }
    ensures numbers { (db : Database) (pending : List Written) → Stands S.Store conn.old db pending → HasCleanDisk (state S.Store conn.new)
        → IfOk result (λ rows. HaveNumbers rows.items) }
    ensures cause { (db : Database) (pending : List Written) → Stands S.Store conn.old db pending → IfErr result (HasCause (state S.Store conn.old) (state S.Store conn.new)) }
{
    query(
        conn,
        "SELECT id, NULL, network, key, label, until, keepalive, handshake, received, sent FROM peer WHERE network = ?1 AND id >= ?2 AND id <= ?3 AND until >= 1 AND until <= ?4 ORDER BY id",
        &[
            number_value(network),
            peer_id_value(network, 1),
            peer_id_value(network, MAX_NUMBER),
            count_value(Count::new(now)),
        ],
    )
}

// The numbers of the network's peers whose rows these are.
fn numbers_of(alloc: Global, rows: &[Row], network: u32) -> Result<Vec<u32>, Fault>
    ensures value { IfOk result (λ numbers. map (peer_id network) numbers.items ≡ map (λ r. number_at r peer.ID) rows.now) }
    ensures only { IfErr result (λ e. IsStore e → All (λ r. IsPeerIdAt r peer.ID network) rows.now → ⊥) }
{
    let mut numbers = Vec::new(alloc);
    for row in rows {
        let Some(number) = peer_number_at(row, peer::ID, network) else {
            return Err(Fault::DAMAGED);
        };
        if numbers.push(number).is_err() {
            return Err(Fault::NoMemory);
        }
    }
    Ok(numbers)
}

/// The numbers of the network's expired peers, rising. Before the moment `soonest`, before which none of its
/// leases ends, it reads no row; 0 is such a moment of every network.
pub fn expired_rows<S: Alter>(
    alloc: Global,
    conn: &mut Connection<S>,
    network: u32,
    now: u64,
    soonest: u64,
) -> Result<Vec<u32>, Fault>
    requires idle { conn.old.in_transaction ≡ false }
    ensures reads { OnlyReads S.Store conn.old conn.new }
    ensures found { OnNetwork S.Store conn.old network (λ n. HasCleanDisk (state S.Store conn.new) → All (EndsFrom soonest) n.peers → IfOk result (λ numbers. numbers.items ≡ expired now n.peers)) }
    ensures cause { OnNetwork S.Store conn.old network (λ n. IfErr result (HasCause (state S.Store conn.old) (state S.Store conn.new))) }
{
    if now < soonest {
        return Ok(Vec::new(alloc));
    }
    let rows = over_rows(conn, network, now)?;
    numbers_of(alloc, rows.as_slice(), network)
}
