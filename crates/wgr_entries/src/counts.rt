//! How many peers and routes the rows of a network have. As for tokens, rows are read in place of an aggregate.
ghost use Rattle.std.specs.Prelude.{◌≡◌, List, length, false, IfErr, IfOk};
ghost use Rattle.sqlite.specs.Effect.{Database};
ghost use Rattle.sqlite.specs.State.{HasCleanDisk};
ghost use Rattle.sqlite.specs.Held.{state};
ghost use Rattle.wgr_sql.specs.Causes.{HasCause};
ghost use Rattle.wgr_columns.specs.Decode.{tables_of};
ghost use Rattle.wgr_entries.specs.Lookups.{peer_count, route_count};
ghost use Rattle.wgr_tables.specs.Standing.{OnlyReads, Stands};
ghost use Rattle.wgr_tables.specs.Writes.{Written};

use sqlite::{Alter, Connection, Row};
use wgr_columns::number_value;
use wgr_sql::{Fault, query};

// A row for each peer of the network.
fn peer_rows<S: Alter>(conn: &mut Connection<S>, network: u32) -> Result<Vec<Row>, Fault>
    requires idle { conn.old.in_transaction ≡ false }
    ensures reads { OnlyReads S.Store conn.old conn.new }
    ensures counted { (db : Database) (pending : List Written) → Stands S.Store conn.old db pending → HasCleanDisk (state S.Store conn.new)
        → IfOk result (λ rows. length rows.items ≡ peer_count (tables_of db) network) }
    ensures cause { (db : Database) (pending : List Written) → Stands S.Store conn.old db pending → IfErr result (HasCause (state S.Store conn.old) (state S.Store conn.new)) }
{
    query(
        conn,
        "SELECT id FROM peer WHERE network = ?1",
        &[number_value(network)],
    )
}

// A row for each route of the network.
fn route_rows<S: Alter>(conn: &mut Connection<S>, network: u32) -> Result<Vec<Row>, Fault>
    requires idle { conn.old.in_transaction ≡ false }
    ensures reads { OnlyReads S.Store conn.old conn.new }
    ensures counted { (db : Database) (pending : List Written) → Stands S.Store conn.old db pending → HasCleanDisk (state S.Store conn.new)
        → IfOk result (λ rows. length rows.items ≡ route_count (tables_of db) network) }
    ensures cause { (db : Database) (pending : List Written) → Stands S.Store conn.old db pending → IfErr result (HasCause (state S.Store conn.old) (state S.Store conn.new)) }
{
    query(
        conn,
        "SELECT peer FROM allowed WHERE network = ?1 AND kind = 'route'",
        &[number_value(network)],
    )
}

/// How many peers the rows of the network of this id have. One whose lease is over counts.
pub fn count_peers<S: Alter>(conn: &mut Connection<S>, network: u32) -> Result<usize, Fault>
    requires idle { conn.old.in_transaction ≡ false }
    ensures reads { OnlyReads S.Store conn.old conn.new }
    ensures counted { (db : Database) (pending : List Written) → Stands S.Store conn.old db pending → HasCleanDisk (state S.Store conn.new)
        → IfOk result (λ count. count ≡ peer_count (tables_of db) network) }
    ensures cause { (db : Database) (pending : List Written) → Stands S.Store conn.old db pending → IfErr result (HasCause (state S.Store conn.old) (state S.Store conn.new)) }
{
    let rows = peer_rows(conn, network)?;
    Ok(rows.as_slice().len())
}

/// How many routes the rows of the network of this id have. One whose peer's lease is over counts.
pub fn count_routes<S: Alter>(conn: &mut Connection<S>, network: u32) -> Result<usize, Fault>
    requires idle { conn.old.in_transaction ≡ false }
    ensures reads { OnlyReads S.Store conn.old conn.new }
    ensures counted { (db : Database) (pending : List Written) → Stands S.Store conn.old db pending → HasCleanDisk (state S.Store conn.new)
        → IfOk result (λ count. count ≡ route_count (tables_of db) network) }
    ensures cause { (db : Database) (pending : List Written) → Stands S.Store conn.old db pending → IfErr result (HasCause (state S.Store conn.old) (state S.Store conn.new)) }
{
    let rows = route_rows(conn, network)?;
    Ok(rows.as_slice().len())
}
