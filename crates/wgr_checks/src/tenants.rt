//! The rows of tenants.
ghost use Rattle.std.specs.Prelude.{◌≡◌, ◌↔◌, ℕ, false, IsTrue, IfErr, IfOk, IfSome, IfNone, map};
ghost use Rattle.std.specs.List.{AllByRecursion};
ghost use Rattle.std.specs.List.Sorted.{IsSorted};
ghost use Rattle.std.specs.Ordering.{nat_cmp};
ghost use Rattle.std.specs.Cmp.Lexicographic.{slice_cmp};
ghost use Rattle.sqlite.specs.State.{HasCleanDisk, Survives};
ghost use Rattle.sqlite.specs.Held.{state};
ghost use Rattle.wgr_sql.specs.Calls.{IsKept};
ghost use Rattle.wgr_sql.specs.Causes.{HasCause};
ghost use Rattle.wgr_sql.specs.declared.fault.Fault.TheVariants.{NoMemory};
ghost use Rattle.wgr_columns.specs.Layout.{tenant_tree};
ghost use Rattle.wgr_columns.specs.Decode.{number_at, bytes_at};
ghost use Rattle.wgr_columns.specs.Fields.{IsNameAt};
ghost use Rattle.wgr_columns.specs.LaidOut.{Laid};
ghost use Rattle.wgr_columns.specs.declared.columns.tenant.TheConstants as tenant;
ghost use Rattle.wgr_checks.specs.TenantRows.{AreGoodTenants, HaveOwnIds, HaveOwnNames, IsTenantRow, AreIdsOf, ListsSorted, tenant_values, name_values};

use crate::keys::{ids_differ, names_differ};
use sqlite::{Alter, Connection, Row};
use std::alloc::Global;
use wgr_columns::{id_at, name_at, tenant};
use wgr_peers::Name;
use wgr_sql::{Fault, query};

// The id of the tenant whose row this is.
fn tenant_id(alloc: Global, row: &Row) -> Result<Option<u32>, Fault>
    ensures some { IfOk result (λ found. IfSome found (λ id. IsTenantRow row.now × (id ≡ number_at row.now tenant.ID))) }
    ensures none { IfOk result (λ found. IfNone found (IsTenantRow row.now → ⊥)) }
    ensures memory { IfErr result (λ why. why ≡ NoMemory) }
{
    let Some(id) = id_at(row, tenant::ID) else {
        return Ok(None);
    };
    let Some(_) = name_at(alloc, row, tenant::NAME)? else {
        return Ok(None);
    };
    Ok(Some(id))
}

// The ids of the tenants whose rows these are.
fn ids_of(alloc: Global, rows: &[Row]) -> Result<Option<Vec<u32>>, Fault>
    ensures some { IfOk result (λ found. IfSome found (λ ids. AllByRecursion IsTenantRow rows.now × (ids.items ≡ map (λ r. number_at r tenant.ID) rows.now))) }
    ensures none { IfOk result (λ found. IfNone found (AllByRecursion IsTenantRow rows.now → ⊥)) }
    ensures memory { IfErr result (λ why. why ≡ NoMemory) }
{
    let mut ids = Vec::new(alloc);
    for row in rows {
        let Some(id) = tenant_id(alloc, row)? else {
            return Ok(None);
        };
        if ids.push(id).is_err() {
            return Err(Fault::NoMemory);
        }
    }
    Ok(Some(ids))
}

// The names in these rows.
fn names_of(alloc: Global, rows: &[Row]) -> Result<Option<Vec<Name>>, Fault>
    ensures some { IfOk result (λ found. IfSome found (λ names. AllByRecursion (λ r. IsNameAt r tenant.NAME) rows.now × (names.items ≡ map (λ r. bytes_at r tenant.NAME) rows.now))) }
    ensures none { IfOk result (λ found. IfNone found (AllByRecursion (λ r. IsNameAt r tenant.NAME) rows.now → ⊥)) }
    ensures memory { IfErr result (λ why. why ≡ NoMemory) }
{
    let mut names = Vec::new(alloc);
    for row in rows {
        let Some(name) = name_at(alloc, row, tenant::NAME)? else {
            return Ok(None);
        };
        if names.push(name).is_err() {
            return Err(Fault::NoMemory);
        }
    }
    Ok(Some(names))
}

// The rows of the tenants, in the order of their ids.
fn rows_by_id<S: Alter>(conn: &mut Connection<S>) -> Result<Vec<Row>, Fault>
    requires idle { conn.old.in_transaction ≡ false }
    ensures idle { conn.new.in_transaction ≡ false }
    ensures listed { HasCleanDisk (state S.Store conn.new) → Laid (state S.Store conn.old) → IfOk result (λ rows. IsTrue (state S.Store conn.old).is_open × ListsSorted tenant_values tenant.ID ((state S.Store conn.old).now.trees tenant_tree) rows.items) }
    ensures kept { (HasCleanDisk (state S.Store conn.new) → Laid (state S.Store conn.old)) → IsKept (state S.Store conn.old) (state S.Store conn.new) }
    ensures survives { Survives (state S.Store conn.old) (state S.Store conn.new) (λ _. ⊥) }
    ensures cause { (HasCleanDisk (state S.Store conn.new) → Laid (state S.Store conn.old)) → IfErr result (HasCause (state S.Store conn.old) (state S.Store conn.new)) }
{
    query(conn, "SELECT id, NULL, name FROM tenant ORDER BY id", &[])
}

// Their names, in the order of the names.
fn rows_by_name<S: Alter>(conn: &mut Connection<S>) -> Result<Vec<Row>, Fault>
    requires idle { conn.old.in_transaction ≡ false }
    ensures idle { conn.new.in_transaction ≡ false }
    ensures listed { HasCleanDisk (state S.Store conn.new) → Laid (state S.Store conn.old) → IfOk result (λ rows. IsTrue (state S.Store conn.old).is_open × ListsSorted name_values tenant.NAME ((state S.Store conn.old).now.trees tenant_tree) rows.items) }
    ensures kept { (HasCleanDisk (state S.Store conn.new) → Laid (state S.Store conn.old)) → IsKept (state S.Store conn.old) (state S.Store conn.new) }
    ensures survives { Survives (state S.Store conn.old) (state S.Store conn.new) (λ _. ⊥) }
    ensures cause { (HasCleanDisk (state S.Store conn.new) → Laid (state S.Store conn.old)) → IfErr result (HasCause (state S.Store conn.old) (state S.Store conn.new)) }
{
    query(
        conn,
        "SELECT NULL, NULL, name FROM tenant ORDER BY name",
        &[],
    )
}

// The ids of the tenants, ascending, or `None` if a row is not a tenant's or two rows share an id.
fn read_ids<S: Alter>(alloc: Global, conn: &mut Connection<S>) -> Result<Option<Vec<u32>>, Fault>
    requires idle { conn.old.in_transaction ≡ false }
    ensures idle { conn.new.in_transaction ≡ false }
    ensures some { HasCleanDisk (state S.Store conn.new) → Laid (state S.Store conn.old) → IfOk result (λ found. IfSome found (λ ids. IsTrue (state S.Store conn.old).is_open × HaveOwnIds ((state S.Store conn.old).now.trees tenant_tree) × AreIdsOf ((state S.Store conn.old).now.trees tenant_tree) ids.items)) }
    ensures none { HasCleanDisk (state S.Store conn.new) → Laid (state S.Store conn.old) → IfOk result (λ found. IfNone found (IsTrue (state S.Store conn.old).is_open × (HaveOwnIds ((state S.Store conn.old).now.trees tenant_tree) → ⊥))) }
    ensures kept { (HasCleanDisk (state S.Store conn.new) → Laid (state S.Store conn.old)) → IsKept (state S.Store conn.old) (state S.Store conn.new) }
    ensures survives { Survives (state S.Store conn.old) (state S.Store conn.new) (λ _. ⊥) }
    ensures cause { (HasCleanDisk (state S.Store conn.new) → Laid (state S.Store conn.old)) → IfErr result (HasCause (state S.Store conn.old) (state S.Store conn.new)) }
{
    let rows = rows_by_id(conn)?;
    let Some(ids) = ids_of(alloc, rows.as_slice())? else {
        return Ok(None);
    };
    if !ids_differ(ids.as_slice()) {
        return Ok(None);
    }
    Ok(Some(ids))
}

// Whether all names in these rows are valid, and none occurs twice.
fn are_own_names(alloc: Global, rows: &[Row]) -> Result<bool, Fault>
    ensures is { IfOk result (λ is. IsTrue is → HaveOwnNames rows.now) }
    ensures only { IfOk result (λ is. IsSorted (slice_cmp nat_cmp) (map (λ r. bytes_at r tenant.NAME) rows.now) → HaveOwnNames rows.now → IsTrue is) }
    ensures memory { IfErr result (λ why. why ≡ NoMemory) }
{
    match names_of(alloc, rows)? {
        Some(names) => Ok(names_differ(names.as_slice())),
        None => Ok(false),
    }
}

// Whether each tenant has a name of its own.
fn have_own_names<S: Alter>(alloc: Global, conn: &mut Connection<S>) -> Result<bool, Fault>
    requires idle { conn.old.in_transaction ≡ false }
    ensures idle { conn.new.in_transaction ≡ false }
    ensures answer { HasCleanDisk (state S.Store conn.new) → Laid (state S.Store conn.old) → IfOk result (λ is. IsTrue (state S.Store conn.old).is_open × (IsTrue is ↔ HaveOwnNames ((state S.Store conn.old).now.trees tenant_tree))) }
    ensures kept { (HasCleanDisk (state S.Store conn.new) → Laid (state S.Store conn.old)) → IsKept (state S.Store conn.old) (state S.Store conn.new) }
    ensures survives { Survives (state S.Store conn.old) (state S.Store conn.new) (λ _. ⊥) }
    ensures cause { (HasCleanDisk (state S.Store conn.new) → Laid (state S.Store conn.old)) → IfErr result (HasCause (state S.Store conn.old) (state S.Store conn.new)) }
{
    let rows = rows_by_name(conn)?;
    are_own_names(alloc, rows.as_slice())
}

/// The ids of the tenants, ascending, or `None` if their rows aren't good: one is not a tenant's, or
/// two share an id or a name. Nothing is changed.
pub fn read_tenants<S: Alter>(
    alloc: Global,
    conn: &mut Connection<S>,
) -> Result<Option<Vec<u32>>, Fault>
    requires idle { conn.old.in_transaction ≡ false }
    ensures idle { conn.new.in_transaction ≡ false }
    ensures some { HasCleanDisk (state S.Store conn.new) → Laid (state S.Store conn.old) → IfOk result (λ found. IfSome found (λ ids. IsTrue (state S.Store conn.old).is_open × AreGoodTenants ((state S.Store conn.old).now.trees tenant_tree) × AreIdsOf ((state S.Store conn.old).now.trees tenant_tree) ids.items)) }
    ensures none { HasCleanDisk (state S.Store conn.new) → Laid (state S.Store conn.old) → IfOk result (λ found. IfNone found (IsTrue (state S.Store conn.old).is_open × (AreGoodTenants ((state S.Store conn.old).now.trees tenant_tree) → ⊥))) }
    ensures kept { (HasCleanDisk (state S.Store conn.new) → Laid (state S.Store conn.old)) → IsKept (state S.Store conn.old) (state S.Store conn.new) }
    ensures survives { Survives (state S.Store conn.old) (state S.Store conn.new) (λ _. ⊥) }
    ensures cause { (HasCleanDisk (state S.Store conn.new) → Laid (state S.Store conn.old)) → IfErr result (HasCause (state S.Store conn.old) (state S.Store conn.new)) }
{
    let Some(ids) = read_ids(alloc, conn)? else {
        return Ok(None);
    };
    if !have_own_names(alloc, conn)? {
        return Ok(None);
    }
    Ok(Some(ids))
}
