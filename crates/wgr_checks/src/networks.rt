//! The rows of networks.
ghost use Rattle.std.specs.Prelude.{◌≡◌, ◌↔◌, false, IsTrue, IfErr, IfOk, IfSome, IfNone, map, nat_eq};
ghost use Rattle.std.specs.List.{AllByRecursion};
ghost use Rattle.std.specs.List.Sorted.{IsSorted};
ghost use Rattle.std.specs.Ordering.{nat_cmp};
ghost use Rattle.sqlite.specs.State.{HasCleanDisk, Survives};
ghost use Rattle.sqlite.specs.Held.{state};
ghost use Rattle.wgr_sql.specs.Calls.{IsKept};
ghost use Rattle.wgr_sql.specs.Causes.{HasCause};
ghost use Rattle.wgr_sql.specs.declared.fault.Fault.TheVariants.{NoMemory};
ghost use Rattle.wgr_columns.specs.Layout.{network_tree};
ghost use Rattle.wgr_columns.specs.Decode.{number_at, bytes_at, prefix_at};
ghost use Rattle.wgr_columns.specs.Fields.{IsIdAt, IsPoolAt};
ghost use Rattle.wgr_columns.specs.LaidOut.{Laid};
ghost use Rattle.wgr_columns.specs.declared.columns.network.TheConstants as network;
ghost use Rattle.wgr_checks.specs.TenantRows.{AreIdsOf, ListsSorted};
ghost use Rattle.wgr_checks.specs.TokenRows.{HaveOwners};
ghost use Rattle.wgr_checks.specs.NetworkRows.{AreNetworkRowsApart, AreFit, AreGoodNetworks, HaveOwnEndpoints, HaveOwnPools, HaveOwnSlots, HasSettingColumns, IsEndpointRow, IsSlotRow, endpoint_at, network_values, slot_at};

use crate::keys::{endpoints_differ, ids_differ, slots_differ};
use crate::owners::are_among;
use crate::pools::pools_are_apart;
use crate::sorted::{sort_endpoints, sort_ids, sort_pools, sort_slots};
use sqlite::{Alter, Connection, Row};
use std::alloc::Global;
use wgr_columns::{
    capacity_at, host_at, id_at, key_at, name_at, network, pool_in, port_at, select_networks,
    word_at,
};
use wgr_model::MAX_ENTRIES;
use wgr_peers::{Host, Name, Port};
use wgr_pool::Pool;
use wgr_sql::{Fault, query};

// The ids at this place of the rows.
fn ids_at(alloc: Global, rows: &[Row], at: usize) -> Result<Option<Vec<u32>>, Fault>
    ensures some { IfOk result (λ found. IfSome found (λ all. AllByRecursion (λ r. IsIdAt r at) rows.now × (all.items ≡ map (λ r. number_at r at) rows.now))) }
    ensures none { IfOk result (λ found. IfNone found (AllByRecursion (λ r. IsIdAt r at) rows.now → ⊥)) }
    ensures memory { IfErr result (λ why. why ≡ NoMemory) }
{
    let mut all = Vec::new(alloc);
    for row in rows {
        let Some(id) = id_at(row, at) else {
            return Ok(None);
        };
        if all.push(id).is_err() {
            return Err(Fault::NoMemory);
        }
    }
    Ok(Some(all))
}

// The tenant's id and the network's name in this row.
fn slot_of(alloc: Global, row: &Row) -> Result<Option<(u32, Name)>, Fault>
    ensures some { IfOk result (λ found. IfSome found (λ slot. IsSlotRow row.now × (slot ≡ slot_at row.now))) }
    ensures none { IfOk result (λ found. IfNone found (IsSlotRow row.now → ⊥)) }
    ensures memory { IfErr result (λ why. why ≡ NoMemory) }
{
    let Some(tenant) = id_at(row, network::TENANT) else {
        return Ok(None);
    };
    match name_at(alloc, row, network::NAME)? {
        Some(name) => Ok(Some((tenant, name))),
        None => Ok(None),
    }
}

// The tenants' ids and the networks' names in these rows.
fn slots_of(alloc: Global, rows: &[Row]) -> Result<Option<Vec<(u32, Name)>>, Fault>
    ensures some { IfOk result (λ found. IfSome found (λ all. AllByRecursion IsSlotRow rows.now × (all.items ≡ map slot_at rows.now))) }
    ensures none { IfOk result (λ found. IfNone found (AllByRecursion IsSlotRow rows.now → ⊥)) }
    ensures memory { IfErr result (λ why. why ≡ NoMemory) }
{
    let mut all = Vec::new(alloc);
    for row in rows {
        let Some(slot) = slot_of(alloc, row)? else {
            return Ok(None);
        };
        if all.push(slot).is_err() {
            return Err(Fault::NoMemory);
        }
    }
    Ok(Some(all))
}

// The host and the port in this row.
fn endpoint_of(alloc: Global, row: &Row) -> Result<Option<(Host, Port)>, Fault>
    ensures some { IfOk result (λ found. IfSome found (λ endpoint. IsEndpointRow row.now × (endpoint ≡ endpoint_at row.now))) }
    ensures none { IfOk result (λ found. IfNone found (IsEndpointRow row.now → ⊥)) }
    ensures memory { IfErr result (λ why. why ≡ NoMemory) }
{
    let Some(port) = port_at(row, network::PORT) else {
        return Ok(None);
    };
    match host_at(alloc, row, network::HOST)? {
        Some(host) => Ok(Some((host, port))),
        None => Ok(None),
    }
}

// The hosts and the ports in these rows.
fn endpoints_of(alloc: Global, rows: &[Row]) -> Result<Option<Vec<(Host, Port)>>, Fault>
    ensures some { IfOk result (λ found. IfSome found (λ all. AllByRecursion IsEndpointRow rows.now × (all.items ≡ map endpoint_at rows.now))) }
    ensures none { IfOk result (λ found. IfNone found (AllByRecursion IsEndpointRow rows.now → ⊥)) }
    ensures memory { IfErr result (λ why. why ≡ NoMemory) }
{
    let mut all = Vec::new(alloc);
    for row in rows {
        let Some(endpoint) = endpoint_of(alloc, row)? else {
            return Ok(None);
        };
        if all.push(endpoint).is_err() {
            return Err(Fault::NoMemory);
        }
    }
    Ok(Some(all))
}

// The pools in these rows.
fn pools_of(alloc: Global, rows: &[Row]) -> Result<Option<Vec<Pool>>, Fault>
    ensures some { IfOk result (λ found. IfSome found (λ all. AllByRecursion (λ r. IsPoolAt r network.FAMILY) rows.now × (all.items ≡ map (λ r. prefix_at r network.FAMILY) rows.now))) }
    ensures none { IfOk result (λ found. IfNone found (AllByRecursion (λ r. IsPoolAt r network.FAMILY) rows.now → ⊥)) }
    ensures memory { IfErr result (λ why. why ≡ NoMemory) }
{
    let mut all = Vec::new(alloc);
    for row in rows {
        let Some(pool) = pool_in(row) else {
            return Ok(None);
        };
        if all.push(pool).is_err() {
            return Err(Fault::NoMemory);
        }
    }
    Ok(Some(all))
}

// Whether this row has a key, a capacity and a next number.
fn has_settings(row: &Row) -> bool
    ensures { IsTrue result ↔ HasSettingColumns row.now }
{
    key_at(row, network::SERVER).is_some()
        && capacity_at(row, network::CAPACITY).is_some()
        && word_at(row, network::NEXT).is_some()
}

// Whether these rows have keys, capacities and next numbers.
fn have_settings(rows: &[Row]) -> bool
    ensures { IsTrue result ↔ AllByRecursion HasSettingColumns rows.now }
{
    for row in rows {
        if !has_settings(row) {
            return false;
        }
    }
    true
}

// Whether the slots in these rows are valid, and none occurs twice.
fn are_own_slots(alloc: Global, rows: &[Row]) -> Result<bool, Fault>
    ensures answer { IfOk result (λ is. IsTrue is ↔ HaveOwnSlots rows.now) }
    ensures memory { IfErr result (λ why. why ≡ NoMemory) }
{
    let Some(mut all) = slots_of(alloc, rows)? else {
        return Ok(false);
    };
    sort_slots(&mut all);
    Ok(slots_differ(all.as_slice()))
}

// Whether the endpoints in these rows are valid, and none occurs twice.
fn are_own_endpoints(alloc: Global, rows: &[Row]) -> Result<bool, Fault>
    ensures answer { IfOk result (λ is. IsTrue is ↔ HaveOwnEndpoints rows.now) }
    ensures memory { IfErr result (λ why. why ≡ NoMemory) }
{
    let Some(mut all) = endpoints_of(alloc, rows)? else {
        return Ok(false);
    };
    sort_endpoints(&mut all);
    Ok(endpoints_differ(all.as_slice()))
}

// Whether the pools in these rows are valid, and no two share an address.
fn are_own_pools(alloc: Global, rows: &[Row]) -> Result<bool, Fault>
    ensures answer { IfOk result (λ is. IsTrue is ↔ HaveOwnPools rows.now) }
    ensures memory { IfErr result (λ why. why ≡ NoMemory) }
{
    let Some(mut all) = pools_of(alloc, rows)? else {
        return Ok(false);
    };
    sort_pools(&mut all);
    Ok(pools_are_apart(all.as_slice()))
}

// Whether each owner in these rows is one of those with these ids, which ascend.
fn are_owned(alloc: Global, rows: &[Row], tenants: &[u32]) -> Result<bool, Fault>
    ensures is { IfOk result (λ is. IsTrue is → HaveOwners tenants.now rows.now) }
    ensures only { IfOk result (λ is. IsSorted nat_cmp tenants.now → HaveOwners tenants.now rows.now → IsTrue is) }
    ensures memory { IfErr result (λ why. why ≡ NoMemory) }
{
    let Some(mut all) = ids_at(alloc, rows, network::TENANT)? else {
        return Ok(false);
    };
    sort_ids(&mut all);
    Ok(are_among(all.as_slice(), tenants))
}

// Whether no two of these rows share a slot, an endpoint or an address of their pools.
fn are_apart(alloc: Global, rows: &[Row]) -> Result<bool, Fault>
    ensures answer { IfOk result (λ is. IsTrue is ↔ AreNetworkRowsApart rows.now) }
    ensures memory { IfErr result (λ why. why ≡ NoMemory) }
{
    if !are_own_slots(alloc, rows)? {
        return Ok(false);
    }
    if !are_own_endpoints(alloc, rows)? {
        return Ok(false);
    }
    are_own_pools(alloc, rows)
}

// Whether these rows are good, except for their ids.
fn are_fit(alloc: Global, rows: &[Row], tenants: &[u32]) -> Result<bool, Fault>
    ensures is { IfOk result (λ is. IsTrue is → AreFit tenants.now rows.now) }
    ensures only { IfOk result (λ is. IsSorted nat_cmp tenants.now → AreFit tenants.now rows.now → IsTrue is) }
    ensures memory { IfErr result (λ why. why ≡ NoMemory) }
{
    if rows.len() > MAX_ENTRIES || !have_settings(rows) {
        return Ok(false);
    }
    if !are_apart(alloc, rows)? {
        return Ok(false);
    }
    are_owned(alloc, rows, tenants)
}

// The ids in these rows, which are in the order of their ids, or `None` if they aren't good.
fn good_ids(alloc: Global, rows: &[Row], tenants: &[u32]) -> Result<Option<Vec<u32>>, Fault>
    ensures some { IfOk result (λ found. IfSome found (λ ids. AreGoodNetworks tenants.now rows.now × (ids.items ≡ map (λ r. number_at r network.ID) rows.now))) }
    ensures none { IfOk result (λ found. IfNone found (IsSorted nat_cmp tenants.now → IsSorted nat_cmp (map (λ r. number_at r network.ID) rows.now) → AreGoodNetworks tenants.now rows.now → ⊥)) }
    ensures memory { IfErr result (λ why. why ≡ NoMemory) }
{
    let Some(ids) = ids_at(alloc, rows, network::ID)? else {
        return Ok(None);
    };
    if !ids_differ(ids.as_slice()) {
        return Ok(None);
    }
    if !are_fit(alloc, rows, tenants)? {
        return Ok(None);
    }
    Ok(Some(ids))
}

// The rows of the networks, in the order of their ids.
fn rows_by_id<S: Alter>(conn: &mut Connection<S>) -> Result<Vec<Row>, Fault>
    requires idle { conn.old.in_transaction ≡ false }
    ensures idle { conn.new.in_transaction ≡ false }
    ensures listed { HasCleanDisk (state S.Store conn.new) → Laid (state S.Store conn.old) → IfOk result (λ rows. IsTrue (state S.Store conn.old).is_open × ListsSorted network_values network.ID ((state S.Store conn.old).now.trees network_tree) rows.items) }
    ensures kept { (HasCleanDisk (state S.Store conn.new) → Laid (state S.Store conn.old)) → IsKept (state S.Store conn.old) (state S.Store conn.new) }
    ensures survives { Survives (state S.Store conn.old) (state S.Store conn.new) (λ _. ⊥) }
    ensures cause { (HasCleanDisk (state S.Store conn.new) → Laid (state S.Store conn.old)) → IfErr result (HasCause (state S.Store conn.old) (state S.Store conn.new)) }
{
    query(conn, select_networks!(" ORDER BY id"), &[])
}

/// The ids of the networks, ascending, or `None` if their rows aren't good: one is not a network's or
/// its tenant's id isn't one of these, which ascend; two share an id, an endpoint, or an address of
/// their pools, or have the same tenant and name; or there are more than a register may
/// have. Nothing is changed.
pub fn read_networks<S: Alter>(
    alloc: Global,
    conn: &mut Connection<S>,
    tenants: &[u32],
) -> Result<Option<Vec<u32>>, Fault>
    requires idle { conn.old.in_transaction ≡ false }
    ensures idle { conn.new.in_transaction ≡ false }
    ensures some { HasCleanDisk (state S.Store conn.new) → Laid (state S.Store conn.old) → IfOk result (λ found. IfSome found (λ ids. IsTrue (state S.Store conn.old).is_open × AreGoodNetworks tenants.now ((state S.Store conn.old).now.trees network_tree) × AreIdsOf ((state S.Store conn.old).now.trees network_tree) ids.items)) }
    ensures none { HasCleanDisk (state S.Store conn.new) → Laid (state S.Store conn.old) → IsSorted nat_cmp tenants.now → IfOk result (λ found. IfNone found (IsTrue (state S.Store conn.old).is_open × (AreGoodNetworks tenants.now ((state S.Store conn.old).now.trees network_tree) → ⊥))) }
    ensures kept { (HasCleanDisk (state S.Store conn.new) → Laid (state S.Store conn.old)) → IsKept (state S.Store conn.old) (state S.Store conn.new) }
    ensures survives { Survives (state S.Store conn.old) (state S.Store conn.new) (λ _. ⊥) }
    ensures cause { (HasCleanDisk (state S.Store conn.new) → Laid (state S.Store conn.old)) → IfErr result (HasCause (state S.Store conn.old) (state S.Store conn.new)) }
{
    let rows = rows_by_id(conn)?;
    good_ids(alloc, rows.as_slice(), tenants)
}
