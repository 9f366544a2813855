//! The list of a tenant's networks.
ghost use Rattle.std.specs.Prelude.{◌≡◌, ℕ, List, map, false, IfErr, IfOk, IsTrue, OnOk};
ghost use Rattle.sqlite.specs.Effect.{Database};
ghost use Rattle.sqlite.specs.State.{HasCleanDisk};
ghost use Rattle.sqlite.specs.Held.{state};
ghost use Rattle.wgr_model.specs.Listing.{put_entry};
ghost use Rattle.wgr_model.specs.RowLaws.{AreConsistent};
ghost use Rattle.wgr_model.specs.Steps.{Event, Networks};
ghost use Rattle.wgr_entries.specs.Kept.{AreOf};
ghost use Rattle.wgr_sql.specs.Causes.{HasCause};
ghost use Rattle.wgr_sql.specs.Faults.{IsStore};
ghost use Rattle.wgr_sql.specs.declared.fault.Fault.TheVariants.{NoMemory};
ghost use Rattle.wgr_columns.specs.Decode.{network_in, tables_of};
ghost use Rattle.wgr_entries.specs.Lookups.{settled};
ghost use Rattle.wgr_tables.specs.Standing.{OnlyReads, Stands};
ghost use Rattle.wgr_columns.specs.Stored.{IsKeptNetwork, stored_network};
ghost use Rattle.wgr_tables.specs.Writes.{Written};
ghost use Rattle.wgr_register.specs.Causes.{IfFault};
ghost use Rattle.wgr_register.specs.Ends.{AskEnds};
ghost use Rattle.wgr_register.specs.Given.{as_added};
ghost use Rattle.wgr_register.specs.Listing.{by_name, seen_by};
ghost use Rattle.wgr_register.specs.Loaded.{UnlessFault};
ghost use Rattle.wgr_register.specs.Standing.{StandsAt};

use crate::fault::AskFault;
use crate::given::{Given, Render};
use sqlite::{Alter, Connection, Row};
use std::alloc::Global;
use wgr_core::{Name, Network};
use wgr_entries::{networks_of_tenant, read_settled, tenant_of_token};
use wgr_orders::{ByName, NetworkEntry};
use wgr_tables::Fault;

// Puts a network in the place for its name.
fn put(networks: &mut ByName, name: Name, network: Network) -> Result<(), Fault>
    ensures put { OnOk result (networks.new ≡ put_entry name network networks.old) }
    ensures memory { IfErr result (λ why. why ≡ NoMemory) }
{
    match networks.put(name, network) {
        Ok(()) => Ok(()),
        Err(_) => Err(Fault::NoMemory),
    }
}

// The names with their networks, in order.
fn entries_of(alloc: Global, networks: ByName) -> Result<Vec<(Name, Network)>, Fault>
    ensures entries { IfOk result (λ entries. entries.items ≡ networks) }
    ensures memory { IfErr result (λ why. why ≡ NoMemory) }
{
    match networks.into_entries(alloc) {
        Ok(entries) => Ok(entries),
        Err(_) => Err(Fault::NoMemory),
    }
}

// The networks of these rows in the order of their names, as they were added.
fn entries_in(alloc: Global, rows: &[Row]) -> Result<Vec<(Name, Network)>, Fault>
    ensures entries { IfOk result (λ entries. entries.items ≡ by_name (map (λ r. settled (network_in r)) rows.now)) }
    ensures only { IfErr result (λ why. IsStore why → AreOf IsKeptNetwork stored_network rows.now → ⊥) }
{
    let mut networks = ByName::new(alloc);
    let mut rest = rows.len();
    while rest > 0 {
        rest -= 1;
        let NetworkEntry { name, network, .. } = read_settled(alloc, &rows[rest])?;
        put(&mut networks, name, network)?;
    }
    entries_of(alloc, networks)
}

// The networks of the tenant of this id, as they were added. Their peers aren't read.
fn added_networks<S: Alter>(
    alloc: Global,
    conn: &mut Connection<S>,
    tenant: u32,
) -> Result<Vec<(Name, Network)>, Fault>
    requires idle { conn.old.in_transaction ≡ false }
    ensures reads { OnlyReads S.Store conn.old conn.new }
    ensures listed { (db : Database) (pending : List Written) → Stands S.Store conn.old db pending → AreConsistent (tables_of db) → HasCleanDisk (state S.Store conn.new)
        → IfOk result (λ networks. networks.items ≡ map as_added (seen_by (tables_of db) tenant)) }
    ensures cause { (db : Database) (pending : List Written) → Stands S.Store conn.old db pending → AreConsistent (tables_of db) → IfErr result (HasCause (state S.Store conn.old) (state S.Store conn.new)) }
{
    let rows = networks_of_tenant(conn, tenant)?;
    entries_in(alloc, rows.as_slice())
}

// The text of the list of the networks that the tenant of the token has.
pub(crate) fn networks<S: Alter, R: Render>(
    alloc: Global,
    conn: &mut Connection<S>,
    digest: &[u8; 32],
    render: &R,
) -> Result<Vec<u8>, AskFault>
    requires idle { conn.old.in_transaction ≡ false }
    ensures reads { OnlyReads S.Store conn.old conn.new }
    ensures open { HasCleanDisk (state S.Store conn.new) → UnlessFault result (IsTrue (state S.Store conn.old).is_open) }
    ensures ends { (db : Database) (late : List Event) (now : ℕ) → StandsAt S.Store conn.old db late → AskEnds S.Store R.shown conn.new db late (Networks digest.now) now result }
    ensures cause { (db : Database) (late : List Event) → StandsAt S.Store conn.old db late → IfFault (HasCause (state S.Store conn.old) (state S.Store conn.new)) result }
{
    let Some(tenant) = tenant_of_token(conn, digest)? else {
        return Err(AskFault::UnknownToken);
    };
    let networks = added_networks(alloc, conn, tenant)?;
    let text = render.given(alloc, Given::Networks(networks.as_slice()))?;
    Ok(text)
}
