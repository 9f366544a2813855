//! The rows of all tables, read and tested table by table: second pools and tokens that only read, tenants,
//! tokens, networks, peers and allowed prefixes.
ghost use Rattle.std.specs.Prelude.{◌≡◌, ◌↔◌, false, IsTrue, IfErr, IfOk, IfSome, IfNone};
ghost use Rattle.std.specs.List.Sorted.{IsSorted};
ghost use Rattle.std.specs.Ordering.{nat_cmp};
ghost use Rattle.sqlite.specs.State.{HasCleanDisk, Survives};
ghost use Rattle.sqlite.specs.Held.{state};
ghost use Rattle.wgr_sql.specs.Calls.{IsKept};
ghost use Rattle.wgr_sql.specs.Causes.{HasCause};
ghost use Rattle.wgr_columns.specs.Layout.{allowed_tree, peer_tree};
ghost use Rattle.wgr_columns.specs.LaidOut.{Laid};
ghost use Rattle.wgr_checks.specs.AllowedRows.{AreWrittenAllowed};
ghost use Rattle.wgr_checks.specs.PeerRows.{AreWrittenPeers};
ghost use Rattle.wgr_opening.specs.Good.{HasAll, HasEntries, HasNetworks, HasTables, IsReadyIn, HasSoundRows};

use crate::later::are_later_good;
use sqlite::{Alter, Connection};
use std::alloc::Global;
use wgr_checks::{
    allowed_are_written, peers_are_written, read_networks, read_tenants, tokens_are_good,
};
use wgr_model::MAX_ENTRIES;
use wgr_schema::Version;
use wgr_sql::Fault;

/// The ids of the networks, if the rows of each table of this version are good.
pub(crate) fn read_all<S: Alter>(
    alloc: Global,
    conn: &mut Connection<S>,
    version: Version,
) -> Result<Option<Vec<u32>>, Fault>
    requires idle { conn.old.in_transaction ≡ false }
    ensures idle { conn.new.in_transaction ≡ false }
    ensures some { HasCleanDisk (state S.Store conn.new) → IsReadyIn version (state S.Store conn.old) → IfOk result (λ found. IfSome found (λ ids. IsTrue (state S.Store conn.old).is_open × HasAll (state S.Store conn.old).now ids.items)) }
    ensures none { HasCleanDisk (state S.Store conn.new) → IsReadyIn version (state S.Store conn.old) → IfOk result (λ found. IfNone found (IsTrue (state S.Store conn.old).is_open × (HasSoundRows (state S.Store conn.old).now → ⊥))) }
    ensures kept { (HasCleanDisk (state S.Store conn.new) → IsReadyIn version (state S.Store conn.old)) → IsKept (state S.Store conn.old) (state S.Store conn.new) }
    ensures survives { Survives (state S.Store conn.old) (state S.Store conn.new) (λ _. ⊥) }
    ensures cause { (HasCleanDisk (state S.Store conn.new) → IsReadyIn version (state S.Store conn.old)) → IfErr result (HasCause (state S.Store conn.old) (state S.Store conn.new)) }
{
    if !are_later_good(alloc, conn, version)? {
        return Ok(None);
    }
    read_tables(alloc, conn)
}

// The ids of the networks, if the rows of each of the first six tables are good.
fn read_tables<S: Alter>(alloc: Global, conn: &mut Connection<S>) -> Result<Option<Vec<u32>>, Fault>
    requires idle { conn.old.in_transaction ≡ false }
    ensures idle { conn.new.in_transaction ≡ false }
    ensures some { HasCleanDisk (state S.Store conn.new) → Laid (state S.Store conn.old) → IfOk result (λ found. IfSome found (λ ids. IsTrue (state S.Store conn.old).is_open × HasTables (state S.Store conn.old).now.trees ids.items)) }
    ensures none { HasCleanDisk (state S.Store conn.new) → Laid (state S.Store conn.old) → IfOk result (λ found. IfNone found (IsTrue (state S.Store conn.old).is_open × (HasSoundRows (state S.Store conn.old).now → ⊥))) }
    ensures kept { (HasCleanDisk (state S.Store conn.new) → Laid (state S.Store conn.old)) → IsKept (state S.Store conn.old) (state S.Store conn.new) }
    ensures survives { Survives (state S.Store conn.old) (state S.Store conn.new) (λ _. ⊥) }
    ensures cause { (HasCleanDisk (state S.Store conn.new) → Laid (state S.Store conn.old)) → IfErr result (HasCause (state S.Store conn.old) (state S.Store conn.new)) }
{
    let Some(networks) = read_network_entries(alloc, conn)? else {
        return Ok(None);
    };
    if !are_members_written(conn, networks.as_slice())? {
        return Ok(None);
    }
    Ok(Some(networks))
}

// The ids of the networks, if their rows and those of all entries are good.
fn read_network_entries<S: Alter>(
    alloc: Global,
    conn: &mut Connection<S>,
) -> Result<Option<Vec<u32>>, Fault>
    requires idle { conn.old.in_transaction ≡ false }
    ensures idle { conn.new.in_transaction ≡ false }
    ensures some { HasCleanDisk (state S.Store conn.new) → Laid (state S.Store conn.old) → IfOk result (λ found. IfSome found (λ ids. IsTrue (state S.Store conn.old).is_open × HasNetworks (state S.Store conn.old).now.trees ids.items)) }
    ensures none { HasCleanDisk (state S.Store conn.new) → Laid (state S.Store conn.old) → IfOk result (λ found. IfNone found (IsTrue (state S.Store conn.old).is_open × (HasSoundRows (state S.Store conn.old).now → ⊥))) }
    ensures kept { (HasCleanDisk (state S.Store conn.new) → Laid (state S.Store conn.old)) → IsKept (state S.Store conn.old) (state S.Store conn.new) }
    ensures survives { Survives (state S.Store conn.old) (state S.Store conn.new) (λ _. ⊥) }
    ensures cause { (HasCleanDisk (state S.Store conn.new) → Laid (state S.Store conn.old)) → IfErr result (HasCause (state S.Store conn.old) (state S.Store conn.new)) }
{
    let Some(tenants) = read_entries(alloc, conn)? else {
        return Ok(None);
    };
    read_networks(alloc, conn, tenants.as_slice())
}

// The ids of the tenants, if their rows and those of tokens are good.
fn read_entries<S: Alter>(
    alloc: Global,
    conn: &mut Connection<S>,
) -> Result<Option<Vec<u32>>, Fault>
    requires idle { conn.old.in_transaction ≡ false }
    ensures idle { conn.new.in_transaction ≡ false }
    ensures some { HasCleanDisk (state S.Store conn.new) → Laid (state S.Store conn.old) → IfOk result (λ found. IfSome found (λ ids. IsTrue (state S.Store conn.old).is_open × HasEntries (state S.Store conn.old).now.trees ids.items)) }
    ensures none { HasCleanDisk (state S.Store conn.new) → Laid (state S.Store conn.old) → IfOk result (λ found. IfNone found (IsTrue (state S.Store conn.old).is_open × (HasSoundRows (state S.Store conn.old).now → ⊥))) }
    ensures kept { (HasCleanDisk (state S.Store conn.new) → Laid (state S.Store conn.old)) → IsKept (state S.Store conn.old) (state S.Store conn.new) }
    ensures survives { Survives (state S.Store conn.old) (state S.Store conn.new) (λ _. ⊥) }
    ensures cause { (HasCleanDisk (state S.Store conn.new) → Laid (state S.Store conn.old)) → IfErr result (HasCause (state S.Store conn.old) (state S.Store conn.new)) }
{
    let Some(tenants) = read_tenants(alloc, conn)? else {
        return Ok(None);
    };
    if tenants.len() > MAX_ENTRIES {
        return Ok(None);
    }
    if !tokens_are_good(alloc, conn, tenants.as_slice())? {
        return Ok(None);
    }
    Ok(Some(tenants))
}

// Whether the rows of members are those of members of these networks.
fn are_members_written<S: Alter>(conn: &mut Connection<S>, networks: &[u32]) -> Result<bool, Fault>
    requires idle { conn.old.in_transaction ≡ false }
    ensures idle { conn.new.in_transaction ≡ false }
    ensures answer { HasCleanDisk (state S.Store conn.new) → Laid (state S.Store conn.old) → IsSorted nat_cmp networks.now → IfOk result (λ is. IsTrue (state S.Store conn.old).is_open × (IsTrue is ↔ (AreWrittenPeers networks.now ((state S.Store conn.old).now.trees peer_tree) × AreWrittenAllowed networks.now ((state S.Store conn.old).now.trees allowed_tree)))) }
    ensures kept { (HasCleanDisk (state S.Store conn.new) → Laid (state S.Store conn.old)) → IsKept (state S.Store conn.old) (state S.Store conn.new) }
    ensures survives { Survives (state S.Store conn.old) (state S.Store conn.new) (λ _. ⊥) }
    ensures cause { (HasCleanDisk (state S.Store conn.new) → Laid (state S.Store conn.old)) → IfErr result (HasCause (state S.Store conn.old) (state S.Store conn.new)) }
{
    if !peers_are_written(conn, networks)? {
        return Ok(false);
    }
    allowed_are_written(conn, networks)
}
