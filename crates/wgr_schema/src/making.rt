//! Creates the register's tables.
ghost use Rattle.std.specs.Prelude.{◌≡◌, ◌↔◌, [], ◌||◌, true, false, codes, IsTrue, Ok, Err, IfErr, OnOk, OnErr, is_some};
ghost use Rattle.std.specs.List.{list_any};
ghost use Rattle.sqlite.specs.Effect.{Database};
ghost use Rattle.sqlite.specs.State.{HasCleanDisk, Survives};
ghost use Rattle.sqlite.specs.Held.{state};
ghost use Rattle.wgr_sql.specs.Calls.{IsKept};
ghost use Rattle.wgr_sql.specs.Causes.{HasCause};
ghost use Rattle.wgr_sql.specs.declared.fault.Fault.TheVariants.{NoMemory};
ghost use Rattle.sqlite.specs.declared.error.Error.TheVariants.{SqliteFailure};
ghost use Rattle.sqlite.specs.declared.error.ErrorCode.TheVariants.{OutOfMemory};
ghost use Rattle.wgr_tables.specs.Standing.{Stands};
ghost use Rattle.wgr_schema.specs.Fresh.{no_schema, entries_schema, tables_schema, reader_schema, FailsFrom, HasBlank, IsFresh, Lays, LeavesFresh, is_taken, is_any_taken};
ghost use Rattle.wgr_schema.specs.Faults.{IfStatementFails};
ghost use Rattle.wgr_schema.specs.declared.fault.RegisterFault.TheVariants.{EarlierVersion, NotARegister, NotGood, NotEmpty};

use crate::fault::{RegisterFault, register_fault};
use sqlite::{Alter, Connection, Transaction};
use sqlite_schema::schema::Schema;
use wgr_sql::{Fault, execute, fault_of};

// Creates the tables of the version, of tenants and of tokens.
fn make_entries<S: Alter>(tx: &mut Transaction<'_, S>) -> Result<usize, Fault>
    ensures same_reference { tx.new.conn.ghost_name ≡ tx.old.conn.ghost_name }
    ensures step { HasCleanDisk (state S.Store tx.new.conn.now) → Lays (HasBlank no_schema) (HasBlank entries_schema) (state S.Store tx.old.conn.now) (state S.Store tx.new.conn.now) result }
    ensures survives { Survives (state S.Store tx.old.conn.now) (state S.Store tx.new.conn.now) (λ _. ⊥) }
    ensures cause { FailsFrom (HasBlank no_schema) (state S.Store tx.old.conn.now) (state S.Store tx.new.conn.now) result }
{
    execute(
        tx,
        "CREATE TABLE meta (version INTEGER PRIMARY KEY) STRICT",
        &[],
    )?;
    execute(
        tx,
        "CREATE TABLE tenant (id INTEGER PRIMARY KEY, name TEXT NOT NULL UNIQUE) STRICT",
        &[],
    )?;
    execute(
        tx,
        "CREATE TABLE token (digest BLOB NOT NULL PRIMARY KEY, tenant INTEGER NOT NULL) STRICT",
        &[],
    )
}

// Creates the tables of networks, of peers and of their allowed prefixes.
fn make_networks<S: Alter>(tx: &mut Transaction<'_, S>) -> Result<usize, Fault>
    ensures same_reference { tx.new.conn.ghost_name ≡ tx.old.conn.ghost_name }
    ensures step { HasCleanDisk (state S.Store tx.new.conn.now) → Lays (HasBlank entries_schema) (HasBlank tables_schema) (state S.Store tx.old.conn.now) (state S.Store tx.new.conn.now) result }
    ensures survives { Survives (state S.Store tx.old.conn.now) (state S.Store tx.new.conn.now) (λ _. ⊥) }
    ensures cause { FailsFrom (HasBlank entries_schema) (state S.Store tx.old.conn.now) (state S.Store tx.new.conn.now) result }
{
    execute(
        tx,
        "CREATE TABLE network (id INTEGER PRIMARY KEY, tenant INTEGER NOT NULL, name TEXT NOT NULL, family INTEGER NOT NULL, lo BLOB NOT NULL, length INTEGER NOT NULL, host TEXT NOT NULL, port INTEGER NOT NULL, server BLOB NOT NULL, capacity INTEGER NOT NULL, next INTEGER NOT NULL, UNIQUE (tenant, name), UNIQUE (host, port)) STRICT",
        &[],
    )?;
    execute(
        tx,
        "CREATE TABLE peer (id INTEGER PRIMARY KEY, network INTEGER NOT NULL, key BLOB NOT NULL, label TEXT NOT NULL, until INTEGER NOT NULL, keepalive INTEGER NOT NULL, handshake INTEGER, received INTEGER, sent INTEGER, UNIQUE (network, key)) STRICT",
        &[],
    )?;
    execute(
        tx,
        "CREATE TABLE allowed (network INTEGER NOT NULL, family INTEGER NOT NULL, lo BLOB NOT NULL, length INTEGER NOT NULL, hi BLOB NOT NULL, peer INTEGER NOT NULL, kind TEXT NOT NULL, PRIMARY KEY (network, family, lo, length)) STRICT",
        &[],
    )
}

// Creates the index, and the tables of second pools and of tokens that only read.
fn make_rest<S: Alter>(tx: &mut Transaction<'_, S>) -> Result<usize, Fault>
    ensures same_reference { tx.new.conn.ghost_name ≡ tx.old.conn.ghost_name }
    ensures step { HasCleanDisk (state S.Store tx.new.conn.now) → Lays (HasBlank tables_schema) (HasBlank reader_schema) (state S.Store tx.old.conn.now) (state S.Store tx.new.conn.now) result }
    ensures survives { Survives (state S.Store tx.old.conn.now) (state S.Store tx.new.conn.now) (λ _. ⊥) }
    ensures cause { FailsFrom (HasBlank tables_schema) (state S.Store tx.old.conn.now) (state S.Store tx.new.conn.now) result }
{
    execute(
        tx,
        "CREATE INDEX allowed_peer ON allowed (network, peer)",
        &[],
    )?;
    execute(
        tx,
        "CREATE TABLE second (network INTEGER PRIMARY KEY, family INTEGER NOT NULL, lo BLOB NOT NULL, length INTEGER NOT NULL) STRICT",
        &[],
    )?;
    execute(
        tx,
        "CREATE TABLE reader (digest BLOB NOT NULL PRIMARY KEY) STRICT",
        &[],
    )
}

// Creates all tables and the index.
fn make_tables<S: Alter>(tx: &mut Transaction<'_, S>) -> Result<usize, Fault>
    ensures same_reference { tx.new.conn.ghost_name ≡ tx.old.conn.ghost_name }
    ensures step { HasCleanDisk (state S.Store tx.new.conn.now) → Lays (HasBlank no_schema) (HasBlank reader_schema) (state S.Store tx.old.conn.now) (state S.Store tx.new.conn.now) result }
    ensures survives { Survives (state S.Store tx.old.conn.now) (state S.Store tx.new.conn.now) (λ _. ⊥) }
    ensures cause { FailsFrom (HasBlank no_schema) (state S.Store tx.old.conn.now) (state S.Store tx.new.conn.now) result }
{
    make_entries(tx)?;
    make_networks(tx)?;
    make_rest(tx)
}

// Creates all tables and the index, and writes the version.
fn make_all<S: Alter>(tx: &mut Transaction<'_, S>) -> Result<usize, Fault>
    ensures same_reference { tx.new.conn.ghost_name ≡ tx.old.conn.ghost_name }
    ensures step { HasCleanDisk (state S.Store tx.new.conn.now) → Lays (HasBlank no_schema) IsFresh (state S.Store tx.old.conn.now) (state S.Store tx.new.conn.now) result }
    ensures survives { Survives (state S.Store tx.old.conn.now) (state S.Store tx.new.conn.now) (λ _. ⊥) }
    ensures cause { FailsFrom (HasBlank no_schema) (state S.Store tx.old.conn.now) (state S.Store tx.new.conn.now) result }
{
    make_tables(tx)?;
    execute(tx, "INSERT INTO meta (version) VALUES (3)", &[])
}

// Creates all of it in an empty database, in one commit.
fn fill<S: Alter>(conn: &mut Connection<S>) -> Result<(), Fault>
    requires idle { conn.old.in_transaction ≡ false }
    requires empty { (state S.Store conn.old).now.schema ≡ no_schema }
    ensures idle { conn.new.in_transaction ≡ false }
    ensures done { HasCleanDisk (state S.Store conn.new) → OnOk result ((db : Database) × IsFresh db × Stands S.Store conn.new db []) }
    ensures kept { OnErr result (IsKept (state S.Store conn.old) (state S.Store conn.new)) }
    ensures crash { Survives (state S.Store conn.old) (state S.Store conn.new) LeavesFresh }
    ensures cause { IfErr result (HasCause (state S.Store conn.old) (state S.Store conn.new)) }
{
    let _settled = conn.is_autocommit();
    let mut tx = conn.transaction();
    make_all(&mut tx)?;
    tx.commit().map_err(
        |error|
            ensures { (result ≡ NoMemory) ↔ (error ≡ SqliteFailure OutOfMemory) }
        { fault_of(error) },
    )
}

// Whether a table or a view has the name.
fn is_taken(schema: &Schema, name: &[u8]) -> bool
    ensures { result ≡ is_taken schema.now name.now }
{
    schema.table_named(name).is_some() || schema.view_named(name).is_some()
}

// Whether a table or a view has the name of one of the register's tables.
fn is_any_taken(schema: &Schema) -> bool
    ensures { result ≡ is_any_taken schema.now }
{
    is_taken(schema, b"meta")
        || is_taken(schema, b"tenant")
        || is_taken(schema, b"token")
        || is_taken(schema, b"network")
        || is_taken(schema, b"peer")
        || is_taken(schema, b"allowed")
        || is_taken(schema, b"second")
        || is_taken(schema, b"reader")
}

fn is_empty(schema: &Schema) -> bool
    ensures is { IsTrue result → schema.now ≡ no_schema }
    ensures only { schema.now ≡ no_schema → IsTrue result }
{
    schema.tables.is_empty() && schema.indexes.is_empty() && schema.views.is_empty()
}

/// Creates the tables of a register without entries, in a database that has no table, index or view.
/// If one of the register's names is taken, the error is `NotEmpty`; if anything else is there, it is
/// `NotARegister`; and the database is unchanged. A fault of the store has a cause, which is never a
/// refused statement: an empty database refuses none of them.
pub fn make<S: Alter>(conn: &mut Connection<S>) -> Result<(), RegisterFault>
    requires idle { conn.old.in_transaction ≡ false }
    ensures idle { conn.new.in_transaction ≡ false }
    ensures taken { result ≡ Err NotEmpty ↔ is_any_taken (state S.Store conn.old).now.schema ≡ true }
    ensures foreign { result ≡ Err NotARegister ↔ ((is_any_taken (state S.Store conn.old).now.schema ≡ false) × ((state S.Store conn.old).now.schema ≡ no_schema → ⊥)) }
    ensures good { result ≡ Err NotGood → ⊥ }
    ensures earlier { result ≡ Err EarlierVersion → ⊥ }
    ensures free { OnOk result ((state S.Store conn.old).now.schema ≡ no_schema) }
    ensures done { HasCleanDisk (state S.Store conn.new) → OnOk result ((db : Database) × IsFresh db × Stands S.Store conn.new db []) }
    ensures kept { OnErr result (IsKept (state S.Store conn.old) (state S.Store conn.new)) }
    ensures crash { Survives (state S.Store conn.old) (state S.Store conn.new) LeavesFresh }
    ensures cause { IfErr result (IfStatementFails (HasCause (state S.Store conn.old) (state S.Store conn.new))) }
{
    if is_any_taken(conn.schema()) {
        return Err(RegisterFault::NotEmpty);
    }
    if !is_empty(conn.schema()) {
        return Err(RegisterFault::NotARegister);
    }
    match fill(conn) {
        Ok(()) => Ok(()),
        Err(fault) => Err(register_fault(fault)),
    }
}
