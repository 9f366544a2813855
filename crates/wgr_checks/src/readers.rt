//! The rows of tokens that only read. Their table, `reader`, is found by its name.
ghost use Rattle.std.specs.Prelude.{◌≡◌, ◌↔◌, false, true, IsTrue, IfErr, IfOk, codes, map};
ghost use Rattle.std.specs.List.{AllByRecursion, list_any};
ghost use Rattle.std.specs.List.Sorted.{IsSorted};
ghost use Rattle.std.specs.Ordering.{nat_cmp};
ghost use Rattle.std.specs.Cmp.Lexicographic.{slice_cmp};
ghost use Rattle.sqlite.specs.State.{HasCleanDisk, Survives};
ghost use Rattle.sqlite.specs.Held.{state};
ghost use Rattle.wgr_model.specs.Register.{is_same};
ghost use Rattle.wgr_sql.specs.Calls.{IsKept};
ghost use Rattle.wgr_sql.specs.Causes.{HasCause};
ghost use Rattle.wgr_sql.specs.Named.{rows_named};
ghost use Rattle.wgr_sql.specs.declared.fault.Fault.TheVariants.{NoMemory};
ghost use Rattle.wgr_columns.specs.Layout.{token_tree};
ghost use Rattle.wgr_columns.specs.Decode.{bytes_at};
ghost use Rattle.wgr_columns.specs.Fields.{IsDigestAt};
ghost use Rattle.wgr_columns.specs.declared.columns.TheConstants.{ROWID};
ghost use Rattle.wgr_columns.specs.declared.columns.reader.TheConstants as reader;
ghost use Rattle.wgr_columns.specs.declared.columns.token.TheConstants as token;
ghost use Rattle.wgr_checks.specs.Later.{MayShowReaders};
ghost use Rattle.wgr_checks.specs.ReaderRows.{AreGoodReaders, AreOfThese, HaveTokenDigests, reader_digest_values, reader_rowid_values};
ghost use Rattle.wgr_checks.specs.TenantRows.{ListsSorted};
ghost use Rattle.wgr_checks.specs.TokenRows.{HaveOwnDigests, HaveOwnRowids};

use crate::keys::digests_differ;
use crate::tokens::{are_own_rowids, digests_of, rows_by_digest};
use sqlite::{Alter, Connection, Row};
use std::alloc::Global;
use wgr_sql::{Fault, query};

// The rowids, ascending.
fn readers_by_rowid<S: Alter>(conn: &mut Connection<S>) -> Result<Vec<Row>, Fault>
    requires idle { conn.old.in_transaction ≡ false }
    ensures idle { conn.new.in_transaction ≡ false }
    ensures listed { HasCleanDisk (state S.Store conn.new) → MayShowReaders (state S.Store conn.old) → IfOk result (λ rows. IsTrue (state S.Store conn.old).is_open × ListsSorted reader_rowid_values ROWID (rows_named (state S.Store conn.old).now (codes "reader")) rows.items) }
    ensures kept { (HasCleanDisk (state S.Store conn.new) → MayShowReaders (state S.Store conn.old)) → IsKept (state S.Store conn.old) (state S.Store conn.new) }
    ensures survives { Survives (state S.Store conn.old) (state S.Store conn.new) (λ _. ⊥) }
    ensures cause { (HasCleanDisk (state S.Store conn.new) → MayShowReaders (state S.Store conn.old)) → IfErr result (HasCause (state S.Store conn.old) (state S.Store conn.new)) }
{
    query(conn, "SELECT rowid, NULL FROM reader ORDER BY rowid", &[])
}

// The digests, in their order.
fn readers_by_digest<S: Alter>(conn: &mut Connection<S>) -> Result<Vec<Row>, Fault>
    requires idle { conn.old.in_transaction ≡ false }
    ensures idle { conn.new.in_transaction ≡ false }
    ensures listed { HasCleanDisk (state S.Store conn.new) → MayShowReaders (state S.Store conn.old) → IfOk result (λ rows. IsTrue (state S.Store conn.old).is_open × ListsSorted reader_digest_values reader.DIGEST (rows_named (state S.Store conn.old).now (codes "reader")) rows.items) }
    ensures kept { (HasCleanDisk (state S.Store conn.new) → MayShowReaders (state S.Store conn.old)) → IsKept (state S.Store conn.old) (state S.Store conn.new) }
    ensures survives { Survives (state S.Store conn.old) (state S.Store conn.new) (λ _. ⊥) }
    ensures cause { (HasCleanDisk (state S.Store conn.new) → MayShowReaders (state S.Store conn.old)) → IfErr result (HasCause (state S.Store conn.old) (state S.Store conn.new)) }
{
    query(conn, "SELECT NULL, digest FROM reader ORDER BY digest", &[])
}

// Whether the digest is one of these, which are in order.
fn is_of_these(digest: &[u8; 32], all: &[[u8; 32]]) -> bool
    ensures { IsSorted (slice_cmp nat_cmp) all.now → IsTrue result ↔ (list_any (is_same digest.now) all.now ≡ true) }
{
    all.binary_search(digest).is_ok()
}

// Whether each digest is one of these, which are in order.
fn are_of_these(digests: &[[u8; 32]], all: &[[u8; 32]]) -> bool
    ensures { IsSorted (slice_cmp nat_cmp) all.now → IsTrue result ↔ AreOfThese all.now digests.now }
{
    for digest in digests {
        if !is_of_these(digest, all) {
            return false;
        }
    }
    true
}

// Whether the digests in these rows, which are in order, are valid, none occurs twice, and each is that of one of the
// tokens, whose digests are valid and in order too.
fn are_of_tokens(alloc: Global, rows: &[Row], tokens: &[Row]) -> Result<bool, Fault>
    ensures is { IfOk result (λ is. IsSorted (slice_cmp nat_cmp) (map (λ r. bytes_at r token.DIGEST) tokens.now) → IsTrue is → HaveTokenDigests tokens.now rows.now) }
    ensures only { IfOk result (λ is. IsSorted (slice_cmp nat_cmp) (map (λ r. bytes_at r token.DIGEST) tokens.now) → AllByRecursion (λ r. IsDigestAt r token.DIGEST) tokens.now → IsSorted (slice_cmp nat_cmp) (map (λ r. bytes_at r reader.DIGEST) rows.now) → HaveTokenDigests tokens.now rows.now → IsTrue is) }
    ensures memory { IfErr result (λ why. why ≡ NoMemory) }
{
    let Some(digests) = digests_of(alloc, rows)? else {
        return Ok(false);
    };
    if !digests_differ(digests.as_slice()) {
        return Ok(false);
    }
    let Some(all) = digests_of(alloc, tokens)? else {
        return Ok(false);
    };
    Ok(are_of_these(digests.as_slice(), all.as_slice()))
}

// Whether each has a rowid of its own.
fn readers_have_own_rowids<S: Alter>(alloc: Global, conn: &mut Connection<S>) -> Result<bool, Fault>
    requires idle { conn.old.in_transaction ≡ false }
    ensures idle { conn.new.in_transaction ≡ false }
    ensures answer { HasCleanDisk (state S.Store conn.new) → MayShowReaders (state S.Store conn.old) → IfOk result (λ is. IsTrue (state S.Store conn.old).is_open × (IsTrue is ↔ HaveOwnRowids (rows_named (state S.Store conn.old).now (codes "reader")))) }
    ensures kept { (HasCleanDisk (state S.Store conn.new) → MayShowReaders (state S.Store conn.old)) → IsKept (state S.Store conn.old) (state S.Store conn.new) }
    ensures survives { Survives (state S.Store conn.old) (state S.Store conn.new) (λ _. ⊥) }
    ensures cause { (HasCleanDisk (state S.Store conn.new) → MayShowReaders (state S.Store conn.old)) → IfErr result (HasCause (state S.Store conn.old) (state S.Store conn.new)) }
{
    let rows = readers_by_rowid(conn)?;
    are_own_rowids(alloc, rows.as_slice())
}

// Whether each has a digest of its own, which is that of a token. The tokens are read only if there is one.
fn have_token_digests<S: Alter>(alloc: Global, conn: &mut Connection<S>) -> Result<bool, Fault>
    requires idle { conn.old.in_transaction ≡ false }
    ensures idle { conn.new.in_transaction ≡ false }
    ensures answer { HasCleanDisk (state S.Store conn.new) → MayShowReaders (state S.Store conn.old)
        → IfOk result (λ is. IsTrue (state S.Store conn.old).is_open × (HaveOwnDigests ((state S.Store conn.old).now.trees token_tree) → IsTrue is ↔ HaveTokenDigests ((state S.Store conn.old).now.trees token_tree) (rows_named (state S.Store conn.old).now (codes "reader")))) }
    ensures kept { (HasCleanDisk (state S.Store conn.new) → MayShowReaders (state S.Store conn.old)) → IsKept (state S.Store conn.old) (state S.Store conn.new) }
    ensures survives { Survives (state S.Store conn.old) (state S.Store conn.new) (λ _. ⊥) }
    ensures cause { (HasCleanDisk (state S.Store conn.new) → MayShowReaders (state S.Store conn.old)) → IfErr result (HasCause (state S.Store conn.old) (state S.Store conn.new)) }
{
    let rows = readers_by_digest(conn)?;
    if rows.is_empty() {
        return Ok(true);
    }
    let tokens = rows_by_digest(conn)?;
    are_of_tokens(alloc, rows.as_slice(), tokens.as_slice())
}

/// Whether the rows of `reader` are those of tokens that only read: each has a rowid and a digest of its own, which is
/// that of a token. Of tokens whose digests aren't good it promises nothing. Nothing is changed.
pub fn readers_are_good<S: Alter>(alloc: Global, conn: &mut Connection<S>) -> Result<bool, Fault>
    requires idle { conn.old.in_transaction ≡ false }
    ensures idle { conn.new.in_transaction ≡ false }
    ensures answer { HasCleanDisk (state S.Store conn.new) → MayShowReaders (state S.Store conn.old)
        → IfOk result (λ is. IsTrue (state S.Store conn.old).is_open × (HaveOwnDigests ((state S.Store conn.old).now.trees token_tree) → IsTrue is ↔ AreGoodReaders ((state S.Store conn.old).now.trees token_tree) (rows_named (state S.Store conn.old).now (codes "reader")))) }
    ensures kept { (HasCleanDisk (state S.Store conn.new) → MayShowReaders (state S.Store conn.old)) → IsKept (state S.Store conn.old) (state S.Store conn.new) }
    ensures survives { Survives (state S.Store conn.old) (state S.Store conn.new) (λ _. ⊥) }
    ensures cause { (HasCleanDisk (state S.Store conn.new) → MayShowReaders (state S.Store conn.old)) → IfErr result (HasCause (state S.Store conn.old) (state S.Store conn.new)) }
{
    if !readers_have_own_rowids(alloc, conn)? {
        return Ok(false);
    }
    have_token_digests(alloc, conn)
}
