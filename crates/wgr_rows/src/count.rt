//! How many peers a network has, by their rows.
ghost use Rattle.std.specs.Prelude.{◌≡◌, List, length, IfErr, IfOk, false};
ghost use Rattle.sqlite.specs.Effect.{Database};
ghost use Rattle.sqlite.specs.State.{HasCleanDisk};
ghost use Rattle.sqlite.specs.Held.{state};
ghost use Rattle.wgr_sql.specs.Causes.{HasCause};
ghost use Rattle.wgr_columns.specs.Decode.{tables_of};
ghost use Rattle.wgr_tables.specs.Writes.{Written};
ghost use Rattle.wgr_tables.specs.Standing.{OnlyReads, Stands};
ghost use Rattle.wgr_rows.specs.Directed.{OnNetwork};
ghost use Rattle.wgr_rows.specs.Owned.{any_end, owned_count};

use sqlite::{Alter, Connection, Row};
use wgr_columns::{number_value, peer_id_value};
use wgr_peers::MAX_NUMBER;
use wgr_sql::{Fault, query};

// A row for each peer of the network.
fn id_rows<S: Alter>(conn: &mut Connection<S>, network: u32) -> Result<Vec<Row>, Fault>
    requires idle { conn.old.in_transaction ≡ false }
    ensures reads { OnlyReads S.Store conn.old conn.new }
    ensures counted { (db : Database) (pending : List Written) → Stands S.Store conn.old db pending → HasCleanDisk (state S.Store conn.new)
        → IfOk result (λ rows. length rows.items ≡ owned_count network any_end (tables_of db)) }
    ensures cause { (db : Database) (pending : List Written) → Stands S.Store conn.old db pending → IfErr result (HasCause (state S.Store conn.old) (state S.Store conn.new)) }
{
    query(
        conn,
        "SELECT id FROM peer WHERE network = ?1 AND id >= ?2 AND id <= ?3",
        &[
            number_value(network),
            peer_id_value(network, 1),
            peer_id_value(network, MAX_NUMBER),
        ],
    )
}

/// How many peers the network has. One whose lease is over counts.
pub fn count_rows<S: Alter>(conn: &mut Connection<S>, network: u32) -> Result<usize, Fault>
    requires idle { conn.old.in_transaction ≡ false }
    ensures reads { OnlyReads S.Store conn.old conn.new }
    ensures found { OnNetwork S.Store conn.old network (λ n. HasCleanDisk (state S.Store conn.new) → IfOk result (λ count. count ≡ length n.peers)) }
    ensures cause { OnNetwork S.Store conn.old network (λ n. IfErr result (HasCause (state S.Store conn.old) (state S.Store conn.new))) }
{
    let rows = id_rows(conn, network)?;
    Ok(rows.as_slice().len())
}
