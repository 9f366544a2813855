//! Tokens that only read: found by digest, listed, added and deleted. Their table, `reader`, is that of
//! registers of the third version.
ghost use Rattle.std.specs.Prelude.{◌≡◌, List, IfErr, IfOk, IsTrue, OnOk, false, map};
ghost use Rattle.std.specs.List.{list_any};
ghost use Rattle.sqlite.specs.Effect.{Database};
ghost use Rattle.sqlite.specs.State.{HasCleanDisk, Survives};
ghost use Rattle.sqlite.specs.Held.{state};
ghost use Rattle.wgr_model.specs.Consistent.{IsDigest};
ghost use Rattle.wgr_model.specs.Laws.{Has};
ghost use Rattle.wgr_model.specs.Register.{Bytes, is_same};
ghost use Rattle.wgr_sql.specs.Causes.{HasCause};
ghost use Rattle.wgr_sql.specs.Faults.{IsStore};
ghost use Rattle.wgr_columns.specs.Decode.{reader_in, tables_of};
ghost use Rattle.wgr_columns.specs.Stored.{AreStored};
ghost use Rattle.wgr_tables.specs.Standing.{Stands};
ghost use Rattle.wgr_tables.specs.Writes.{Written};
ghost use Rattle.wgr_entries.specs.Kept.{AreOf};
ghost use Rattle.wgr_entries.specs.Readers.{AreReadersOf, ReaderComes, ReaderGoes, ReaderStays, ReaderStaysOut, ShowReader, stored_reader};
ghost use Rattle.wgr_entries.specs.ThirdVersion.{FailsOnThird, IsThird, OnlyReadsThird, StepsAnyhow, StepsOnThird};

use sqlite::types::ValueRef;
use sqlite::{Alter, Connection, Row, Transaction};
use std::alloc::Global;
use wgr_columns::{digest_at, reader};
use wgr_sql::{Fault, execute, query};

// The row of the token of this digest, if it is one that only reads.
fn reader_row<S: Alter>(conn: &mut Connection<S>, digest: &[u8; 32]) -> Result<Vec<Row>, Fault>
    requires idle { conn.old.in_transaction ≡ false }
    ensures reads { OnlyReadsThird S.Store conn.old conn.new }
    ensures listed { (db : Database) (pending : List Written) → Stands S.Store conn.old db pending → IsThird (tables_of db) → HasCleanDisk (state S.Store conn.new)
        → IfOk result (λ rows. ShowReader digest.now (tables_of db) rows.items) }
    ensures open { HasCleanDisk (state S.Store conn.new) → OnOk result (IsTrue (state S.Store conn.old).is_open) }
    ensures cause { (db : Database) (pending : List Written) → Stands S.Store conn.old db pending → IsThird (tables_of db) → IfErr result (HasCause (state S.Store conn.old) (state S.Store conn.new)) }
{
    query(
        conn,
        "SELECT NULL, digest FROM reader WHERE digest = ?1",
        &[ValueRef::Blob(digest)],
    )
}

/// Whether the token of this digest is one that only reads.
pub fn is_reader<S: Alter>(conn: &mut Connection<S>, digest: &[u8; 32]) -> Result<bool, Fault>
    requires idle { conn.old.in_transaction ≡ false }
    ensures reads { OnlyReadsThird S.Store conn.old conn.new }
    ensures found { (db : Database) (pending : List Written) → Stands S.Store conn.old db pending → IsThird (tables_of db) → HasCleanDisk (state S.Store conn.new)
        → IfOk result (λ is. is ≡ list_any (is_same digest.now) (tables_of db).readers) }
    ensures open { HasCleanDisk (state S.Store conn.new) → OnOk result (IsTrue (state S.Store conn.old).is_open) }
    ensures cause { (db : Database) (pending : List Written) → Stands S.Store conn.old db pending → IsThird (tables_of db) → IfErr result (HasCause (state S.Store conn.old) (state S.Store conn.new)) }
{
    let rows = reader_row(conn, digest)?;
    Ok(!rows.is_empty())
}

// The rows of all tokens that only read, in the order of their digests.
fn reader_rows<S: Alter>(conn: &mut Connection<S>) -> Result<Vec<Row>, Fault>
    requires idle { conn.old.in_transaction ≡ false }
    ensures reads { OnlyReadsThird S.Store conn.old conn.new }
    ensures listed { (db : Database) (pending : List Written) → Stands S.Store conn.old db pending → IsThird (tables_of db) → HasCleanDisk (state S.Store conn.new)
        → IfOk result (λ rows. AreReadersOf (tables_of db) (map reader_in rows.items)) }
    ensures cause { (db : Database) (pending : List Written) → Stands S.Store conn.old db pending → IsThird (tables_of db) → IfErr result (HasCause (state S.Store conn.old) (state S.Store conn.new)) }
    ensures stored { (db : Database) (pending : List Written) → Stands S.Store conn.old db pending → IsThird (tables_of db) → HasCleanDisk (state S.Store conn.new)
        → IfOk result (λ rows. AreStored stored_reader reader_in rows.items) }
{
    query(conn, "SELECT NULL, digest FROM reader ORDER BY digest", &[])
}

// The digests of these rows.
fn digests_in(alloc: Global, rows: &[Row]) -> Result<Vec<[u8; 32]>, Fault>
    ensures read { IfOk result (λ digests. digests.items ≡ map reader_in rows.now) }
    ensures only { IfErr result (λ why. IsStore why → AreOf IsDigest stored_reader rows.now → ⊥) }
{
    let mut digests = Vec::new(alloc);
    for row in rows {
        let Some(digest) = digest_at(row, reader::DIGEST) else {
            return Err(Fault::DAMAGED);
        };
        if digests.push(digest).is_err() {
            return Err(Fault::NoMemory);
        }
    }
    Ok(digests)
}

/// The digests of all tokens that only read, in their order.
pub fn readers<S: Alter>(alloc: Global, conn: &mut Connection<S>) -> Result<Vec<[u8; 32]>, Fault>
    requires idle { conn.old.in_transaction ≡ false }
    ensures reads { OnlyReadsThird S.Store conn.old conn.new }
    ensures listed { (db : Database) (pending : List Written) → Stands S.Store conn.old db pending → IsThird (tables_of db) → HasCleanDisk (state S.Store conn.new)
        → IfOk result (λ digests. AreReadersOf (tables_of db) digests.items) }
    ensures cause { (db : Database) (pending : List Written) → Stands S.Store conn.old db pending → IsThird (tables_of db) → ((d : Bytes) → Has (tables_of db).readers d → IsDigest d)
        → IfErr result (HasCause (state S.Store conn.old) (state S.Store conn.new)) }
{
    let rows = reader_rows(conn)?;
    digests_in(alloc, rows.as_slice())
}

/// Adds a token that only reads. A digest that one has already is a fault of the store.
pub fn insert_reader<S: Alter>(
    tx: &mut Transaction<'_, S>,
    digest: &[u8; 32],
) -> Result<usize, Fault>
    ensures same_reference { tx.new.conn.ghost_name ≡ tx.old.conn.ghost_name }
    ensures step { HasCleanDisk (state S.Store tx.new.conn.now) → StepsOnThird (ReaderComes digest.now) (state S.Store tx.old.conn.now) (state S.Store tx.new.conn.now) result }
    ensures keeps { HasCleanDisk (state S.Store tx.new.conn.now) → StepsAnyhow (state S.Store tx.old.conn.now) (state S.Store tx.new.conn.now) result }
    ensures survives { Survives (state S.Store tx.old.conn.now) (state S.Store tx.new.conn.now) (λ _. ⊥) }
    ensures cause { FailsOnThird (ReaderStaysOut digest.now) (state S.Store tx.old.conn.now) (state S.Store tx.new.conn.now) result }
{
    execute(
        tx,
        "INSERT INTO reader (digest) VALUES (?1)",
        &[ValueRef::Blob(digest)],
    )
}

/// Deletes a token that only reads. If none has the digest, no row changes.
pub fn drop_reader<S: Alter>(tx: &mut Transaction<'_, S>, digest: &[u8; 32]) -> Result<usize, Fault>
    ensures same_reference { tx.new.conn.ghost_name ≡ tx.old.conn.ghost_name }
    ensures step { HasCleanDisk (state S.Store tx.new.conn.now) → StepsOnThird (ReaderGoes digest.now) (state S.Store tx.old.conn.now) (state S.Store tx.new.conn.now) result }
    ensures keeps { HasCleanDisk (state S.Store tx.new.conn.now) → StepsAnyhow (state S.Store tx.old.conn.now) (state S.Store tx.new.conn.now) result }
    ensures survives { Survives (state S.Store tx.old.conn.now) (state S.Store tx.new.conn.now) (λ _. ⊥) }
    ensures cause { FailsOnThird (ReaderStays digest.now) (state S.Store tx.old.conn.now) (state S.Store tx.new.conn.now) result }
{
    execute(
        tx,
        "DELETE FROM reader WHERE digest = ?1",
        &[ValueRef::Blob(digest)],
    )
}
