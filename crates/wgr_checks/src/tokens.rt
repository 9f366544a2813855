//! The rows of tokens.
ghost use Rattle.std.specs.Prelude.{◌≡◌, ◌↔◌, false, IsTrue, IfErr, IfOk, IfSome, IfNone, map};
ghost use Rattle.std.specs.List.{AllByRecursion, IsDistinct};
ghost use Rattle.std.specs.List.Sorted.{IsSorted};
ghost use Rattle.std.specs.Ordering.{int_cmp, int_eq, nat_cmp};
ghost use Rattle.std.specs.declared.cmp.Ordering.TheVariants.{Less};
ghost use Rattle.std.specs.Cmp.Lexicographic.{slice_cmp};
ghost use Rattle.sqlite.specs.State.{HasCleanDisk, Survives};
ghost use Rattle.sqlite.specs.Held.{state};
ghost use Rattle.sqlite_value.specs.Order.{column};
ghost use Rattle.sqlite_rules.specs.Edit.{id_in};
ghost use Rattle.wgr_sql.specs.Calls.{IsKept};
ghost use Rattle.wgr_sql.specs.Causes.{HasCause};
ghost use Rattle.wgr_sql.specs.declared.fault.Fault.TheVariants.{NoMemory};
ghost use Rattle.wgr_columns.specs.Layout.{token_tree};
ghost use Rattle.wgr_columns.specs.Decode.{number_at, bytes_at};
ghost use Rattle.wgr_columns.specs.Fields.{IsDigestAt, IsIdAt, IsIntegerAt};
ghost use Rattle.wgr_columns.specs.LaidOut.{Laid};
ghost use Rattle.wgr_columns.specs.declared.columns.token.TheConstants as token;
ghost use Rattle.wgr_checks.specs.TenantRows.{ListsSorted};
ghost use Rattle.wgr_checks.specs.TokenRows.{AreGoodTokens, HaveOwnRowids, HaveOwnDigests, HaveOwnKeys, HaveOwners, rowid_values, digest_values, owner_values};

use crate::keys::digests_differ;
use crate::owners::are_among;
use sqlite::{Alter, Connection, Row};
use std::alloc::Global;
use wgr_columns::{ROWID, digest_at, id_at, integer_at, token};
use wgr_model::MAX_ENTRIES;
use wgr_sql::{Fault, query};

// The rowids in these rows.
fn rowids_of(alloc: Global, rows: &[Row]) -> Result<Option<Vec<i64>>, Fault>
    ensures some { IfOk result (λ found. IfSome found (λ all. AllByRecursion (λ r. IsIntegerAt r ROWID) rows.now × (all.items ≡ map (λ r. id_in (column r ROWID)) rows.now))) }
    ensures none { IfOk result (λ found. IfNone found (AllByRecursion (λ r. IsIntegerAt r ROWID) rows.now → ⊥)) }
    ensures memory { IfErr result (λ why. why ≡ NoMemory) }
{
    let mut all = Vec::new(alloc);
    for row in rows {
        let Some(rowid) = integer_at(row, ROWID) else {
            return Ok(None);
        };
        if all.push(rowid).is_err() {
            return Err(Fault::NoMemory);
        }
    }
    Ok(Some(all))
}

/// The digests in these rows.
pub(crate) fn digests_of(alloc: Global, rows: &[Row]) -> Result<Option<Vec<[u8; 32]>>, Fault>
    ensures some { IfOk result (λ found. IfSome found (λ all. AllByRecursion (λ r. IsDigestAt r token.DIGEST) rows.now × (all.items ≡ map (λ r. bytes_at r token.DIGEST) rows.now))) }
    ensures none { IfOk result (λ found. IfNone found (AllByRecursion (λ r. IsDigestAt r token.DIGEST) rows.now → ⊥)) }
    ensures memory { IfErr result (λ why. why ≡ NoMemory) }
{
    let mut all = Vec::new(alloc);
    for row in rows {
        let Some(digest) = digest_at(row, token::DIGEST) else {
            return Ok(None);
        };
        if all.push(digest).is_err() {
            return Err(Fault::NoMemory);
        }
    }
    Ok(Some(all))
}

// The ids of the owners in these rows.
fn owners_of(alloc: Global, rows: &[Row]) -> Result<Option<Vec<u32>>, Fault>
    ensures some { IfOk result (λ found. IfSome found (λ all. AllByRecursion (λ r. IsIdAt r token.TENANT) rows.now × (all.items ≡ map (λ r. number_at r token.TENANT) rows.now))) }
    ensures none { IfOk result (λ found. IfNone found (AllByRecursion (λ r. IsIdAt r token.TENANT) rows.now → ⊥)) }
    ensures memory { IfErr result (λ why. why ≡ NoMemory) }
{
    let mut all = Vec::new(alloc);
    for row in rows {
        let Some(owner) = id_at(row, token::TENANT) else {
            return Ok(None);
        };
        if all.push(owner).is_err() {
            return Err(Fault::NoMemory);
        }
    }
    Ok(Some(all))
}

// Whether a rowid comes before another.
fn is_below(one: i64, next: i64) -> bool
    ensures { IsTrue result ↔ (int_cmp one next ≡ Less) }
{
    one < next
}

// Whether no rowid occurs twice.
fn rowids_differ(rowids: &[i64]) -> bool
    ensures is { IsTrue result → IsDistinct int_eq rowids.now }
    ensures only { IsSorted int_cmp rowids.now → IsDistinct int_eq rowids.now → IsTrue result }
{
    for at in 1..rowids.len() {
        if !is_below(rowids[at - 1], rowids[at]) {
            return false;
        }
    }
    true
}

// The rowids of the tokens, ascending.
fn rows_by_rowid<S: Alter>(conn: &mut Connection<S>) -> Result<Vec<Row>, Fault>
    requires idle { conn.old.in_transaction ≡ false }
    ensures idle { conn.new.in_transaction ≡ false }
    ensures listed { HasCleanDisk (state S.Store conn.new) → Laid (state S.Store conn.old) → IfOk result (λ rows. IsTrue (state S.Store conn.old).is_open × ListsSorted rowid_values ROWID ((state S.Store conn.old).now.trees token_tree) rows.items) }
    ensures kept { (HasCleanDisk (state S.Store conn.new) → Laid (state S.Store conn.old)) → IsKept (state S.Store conn.old) (state S.Store conn.new) }
    ensures survives { Survives (state S.Store conn.old) (state S.Store conn.new) (λ _. ⊥) }
    ensures cause { (HasCleanDisk (state S.Store conn.new) → Laid (state S.Store conn.old)) → IfErr result (HasCause (state S.Store conn.old) (state S.Store conn.new)) }
{
    query(
        conn,
        "SELECT rowid, NULL, NULL FROM token ORDER BY rowid",
        &[],
    )
}

/// The digests of the tokens, in their order.
pub(crate) fn rows_by_digest<S: Alter>(conn: &mut Connection<S>) -> Result<Vec<Row>, Fault>
    requires idle { conn.old.in_transaction ≡ false }
    ensures idle { conn.new.in_transaction ≡ false }
    ensures listed { HasCleanDisk (state S.Store conn.new) → Laid (state S.Store conn.old) → IfOk result (λ rows. IsTrue (state S.Store conn.old).is_open × ListsSorted digest_values token.DIGEST ((state S.Store conn.old).now.trees token_tree) rows.items) }
    ensures kept { (HasCleanDisk (state S.Store conn.new) → Laid (state S.Store conn.old)) → IsKept (state S.Store conn.old) (state S.Store conn.new) }
    ensures survives { Survives (state S.Store conn.old) (state S.Store conn.new) (λ _. ⊥) }
    ensures cause { (HasCleanDisk (state S.Store conn.new) → Laid (state S.Store conn.old)) → IfErr result (HasCause (state S.Store conn.old) (state S.Store conn.new)) }
{
    query(
        conn,
        "SELECT NULL, digest, NULL FROM token ORDER BY digest",
        &[],
    )
}

// The owners of the tokens, in the order of their ids.
fn rows_by_owner<S: Alter>(conn: &mut Connection<S>) -> Result<Vec<Row>, Fault>
    requires idle { conn.old.in_transaction ≡ false }
    ensures idle { conn.new.in_transaction ≡ false }
    ensures listed { HasCleanDisk (state S.Store conn.new) → Laid (state S.Store conn.old) → IfOk result (λ rows. IsTrue (state S.Store conn.old).is_open × ListsSorted owner_values token.TENANT ((state S.Store conn.old).now.trees token_tree) rows.items) }
    ensures kept { (HasCleanDisk (state S.Store conn.new) → Laid (state S.Store conn.old)) → IsKept (state S.Store conn.old) (state S.Store conn.new) }
    ensures survives { Survives (state S.Store conn.old) (state S.Store conn.new) (λ _. ⊥) }
    ensures cause { (HasCleanDisk (state S.Store conn.new) → Laid (state S.Store conn.old)) → IfErr result (HasCause (state S.Store conn.old) (state S.Store conn.new)) }
{
    query(
        conn,
        "SELECT NULL, NULL, tenant FROM token ORDER BY tenant",
        &[],
    )
}

/// Whether all rowids in these rows are integers, and none occurs twice.
pub fn are_own_rowids(alloc: Global, rows: &[Row]) -> Result<bool, Fault>
    ensures is { IfOk result (λ is. IsTrue is → HaveOwnRowids rows.now) }
    ensures only { IfOk result (λ is. IsSorted int_cmp (map (λ r. id_in (column r ROWID)) rows.now) → HaveOwnRowids rows.now → IsTrue is) }
    ensures memory { IfErr result (λ why. why ≡ NoMemory) }
{
    match rowids_of(alloc, rows)? {
        Some(all) => Ok(rowids_differ(all.as_slice())),
        None => Ok(false),
    }
}

// Whether all digests in these rows are valid, none occurs twice, and there are not too many.
fn are_own_digests(alloc: Global, rows: &[Row]) -> Result<bool, Fault>
    ensures is { IfOk result (λ is. IsTrue is → HaveOwnDigests rows.now) }
    ensures only { IfOk result (λ is. IsSorted (slice_cmp nat_cmp) (map (λ r. bytes_at r token.DIGEST) rows.now) → HaveOwnDigests rows.now → IsTrue is) }
    ensures memory { IfErr result (λ why. why ≡ NoMemory) }
{
    if rows.len() > MAX_ENTRIES {
        return Ok(false);
    }
    match digests_of(alloc, rows)? {
        Some(all) => Ok(digests_differ(all.as_slice())),
        None => Ok(false),
    }
}

// Whether each owner in these rows is one of those with these ids.
fn are_owned(alloc: Global, rows: &[Row], ids: &[u32]) -> Result<bool, Fault>
    ensures is { IfOk result (λ is. IsTrue is → HaveOwners ids.now rows.now) }
    ensures only { IfOk result (λ is. IsSorted nat_cmp ids.now → IsSorted nat_cmp (map (λ r. number_at r token.TENANT) rows.now) → HaveOwners ids.now rows.now → IsTrue is) }
    ensures memory { IfErr result (λ why. why ≡ NoMemory) }
{
    match owners_of(alloc, rows)? {
        Some(all) => Ok(are_among(all.as_slice(), ids)),
        None => Ok(false),
    }
}

// Whether each token has a rowid of its own.
fn have_own_rowids<S: Alter>(alloc: Global, conn: &mut Connection<S>) -> Result<bool, Fault>
    requires idle { conn.old.in_transaction ≡ false }
    ensures idle { conn.new.in_transaction ≡ false }
    ensures answer { HasCleanDisk (state S.Store conn.new) → Laid (state S.Store conn.old) → IfOk result (λ is. IsTrue (state S.Store conn.old).is_open × (IsTrue is ↔ HaveOwnRowids ((state S.Store conn.old).now.trees token_tree))) }
    ensures kept { (HasCleanDisk (state S.Store conn.new) → Laid (state S.Store conn.old)) → IsKept (state S.Store conn.old) (state S.Store conn.new) }
    ensures survives { Survives (state S.Store conn.old) (state S.Store conn.new) (λ _. ⊥) }
    ensures cause { (HasCleanDisk (state S.Store conn.new) → Laid (state S.Store conn.old)) → IfErr result (HasCause (state S.Store conn.old) (state S.Store conn.new)) }
{
    let rows = rows_by_rowid(conn)?;
    are_own_rowids(alloc, rows.as_slice())
}

// Whether each token has a digest of its own, and there are not too many.
fn have_own_digests<S: Alter>(alloc: Global, conn: &mut Connection<S>) -> Result<bool, Fault>
    requires idle { conn.old.in_transaction ≡ false }
    ensures idle { conn.new.in_transaction ≡ false }
    ensures answer { HasCleanDisk (state S.Store conn.new) → Laid (state S.Store conn.old) → IfOk result (λ is. IsTrue (state S.Store conn.old).is_open × (IsTrue is ↔ HaveOwnDigests ((state S.Store conn.old).now.trees token_tree))) }
    ensures kept { (HasCleanDisk (state S.Store conn.new) → Laid (state S.Store conn.old)) → IsKept (state S.Store conn.old) (state S.Store conn.new) }
    ensures survives { Survives (state S.Store conn.old) (state S.Store conn.new) (λ _. ⊥) }
    ensures cause { (HasCleanDisk (state S.Store conn.new) → Laid (state S.Store conn.old)) → IfErr result (HasCause (state S.Store conn.old) (state S.Store conn.new)) }
{
    let rows = rows_by_digest(conn)?;
    are_own_digests(alloc, rows.as_slice())
}

// Whether each token is one of a tenant with one of these ids.
fn have_owners<S: Alter>(
    alloc: Global,
    conn: &mut Connection<S>,
    ids: &[u32],
) -> Result<bool, Fault>
    requires idle { conn.old.in_transaction ≡ false }
    ensures idle { conn.new.in_transaction ≡ false }
    ensures answer { HasCleanDisk (state S.Store conn.new) → Laid (state S.Store conn.old) → IsSorted nat_cmp ids.now → IfOk result (λ is. IsTrue (state S.Store conn.old).is_open × (IsTrue is ↔ HaveOwners ids.now ((state S.Store conn.old).now.trees token_tree))) }
    ensures kept { (HasCleanDisk (state S.Store conn.new) → Laid (state S.Store conn.old)) → IsKept (state S.Store conn.old) (state S.Store conn.new) }
    ensures survives { Survives (state S.Store conn.old) (state S.Store conn.new) (λ _. ⊥) }
    ensures cause { (HasCleanDisk (state S.Store conn.new) → Laid (state S.Store conn.old)) → IfErr result (HasCause (state S.Store conn.old) (state S.Store conn.new)) }
{
    let rows = rows_by_owner(conn)?;
    are_owned(alloc, rows.as_slice(), ids)
}

// Whether each token has a rowid and a digest of its own, and there are not too many.
fn have_own_keys<S: Alter>(alloc: Global, conn: &mut Connection<S>) -> Result<bool, Fault>
    requires idle { conn.old.in_transaction ≡ false }
    ensures idle { conn.new.in_transaction ≡ false }
    ensures answer { HasCleanDisk (state S.Store conn.new) → Laid (state S.Store conn.old) → IfOk result (λ is. IsTrue (state S.Store conn.old).is_open × (IsTrue is ↔ HaveOwnKeys ((state S.Store conn.old).now.trees token_tree))) }
    ensures kept { (HasCleanDisk (state S.Store conn.new) → Laid (state S.Store conn.old)) → IsKept (state S.Store conn.old) (state S.Store conn.new) }
    ensures survives { Survives (state S.Store conn.old) (state S.Store conn.new) (λ _. ⊥) }
    ensures cause { (HasCleanDisk (state S.Store conn.new) → Laid (state S.Store conn.old)) → IfErr result (HasCause (state S.Store conn.old) (state S.Store conn.new)) }
{
    if !have_own_rowids(alloc, conn)? {
        return Ok(false);
    }
    have_own_digests(alloc, conn)
}

/// Whether the rows of tokens are good: no two share a rowid or a digest, each is of a tenant that
/// has one of these ids, which ascend, and there are no more than a register may have. Nothing is
/// changed.
pub fn tokens_are_good<S: Alter>(
    alloc: Global,
    conn: &mut Connection<S>,
    ids: &[u32],
) -> Result<bool, Fault>
    requires idle { conn.old.in_transaction ≡ false }
    ensures idle { conn.new.in_transaction ≡ false }
    ensures answer { HasCleanDisk (state S.Store conn.new) → Laid (state S.Store conn.old) → IsSorted nat_cmp ids.now → IfOk result (λ is. IsTrue (state S.Store conn.old).is_open × (IsTrue is ↔ AreGoodTokens ids.now ((state S.Store conn.old).now.trees token_tree))) }
    ensures kept { (HasCleanDisk (state S.Store conn.new) → Laid (state S.Store conn.old)) → IsKept (state S.Store conn.old) (state S.Store conn.new) }
    ensures survives { Survives (state S.Store conn.old) (state S.Store conn.new) (λ _. ⊥) }
    ensures cause { (HasCleanDisk (state S.Store conn.new) → Laid (state S.Store conn.old)) → IfErr result (HasCause (state S.Store conn.old) (state S.Store conn.new)) }
{
    if !have_own_keys(alloc, conn)? {
        return Ok(false);
    }
    have_owners(alloc, conn, ids)
}
