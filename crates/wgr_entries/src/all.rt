//! What an order needs of every entry: all rows of a table, in any order.
ghost use Rattle.std.specs.Prelude.{◌≡◌, ◌++◌, ◌∷◌, [], List, length, map, false, IfErr, IfOk, OnOk, IsPermutation, IsTrue};
ghost use Rattle.sqlite.specs.Effect.{Database};
ghost use Rattle.sqlite.specs.State.{HasCleanDisk};
ghost use Rattle.sqlite.specs.Held.{state};
ghost use Rattle.wgr_model.specs.Consistent.{IsTenant};
ghost use Rattle.wgr_model.specs.Laws.{Has};
ghost use Rattle.wgr_model.specs.Register.{Tenant, Token};
ghost use Rattle.wgr_model.specs.Rows.{NetworkRow};
ghost use Rattle.wgr_entries.specs.Kept.{AreOf, IsKeptToken, stored_token};
ghost use Rattle.wgr_sql.specs.Causes.{HasCause};
ghost use Rattle.wgr_sql.specs.Faults.{IsStore};
ghost use Rattle.wgr_sql.specs.declared.fault.Fault.TheVariants.{NoMemory};
ghost use Rattle.wgr_columns.specs.Decode.{network_in, number_at, tables_of, tenant_in, token_in};
ghost use Rattle.wgr_entries.specs.Lookups.{settled};
ghost use Rattle.wgr_tables.specs.Standing.{OnlyReads, Stands};
ghost use Rattle.wgr_columns.specs.Stored.{AreStored, IsKeptNetwork, stored_network, stored_tenant};
ghost use Rattle.wgr_columns.specs.declared.columns.tenant.TheConstants as tenant;
ghost use Rattle.wgr_tables.specs.Writes.{Written};

use crate::settled::{read_settled, read_tenant, read_token};
use sqlite::{Alter, Connection, Row};
use std::alloc::Global;
use wgr_columns::{select_networks, tenant, word_at};
use wgr_orders::{NetworkEntry, Tenant, Token};
use wgr_sql::{Fault, query};

// The rows of all tokens.
fn token_rows<S: Alter>(conn: &mut Connection<S>) -> Result<Vec<Row>, Fault>
    requires idle { conn.old.in_transaction ≡ false }
    ensures reads { OnlyReads S.Store conn.old conn.new }
    ensures listed { (db : Database) (pending : List Written) → Stands S.Store conn.old db pending → HasCleanDisk (state S.Store conn.new)
        → IfOk result (λ rows. IsPermutation (tables_of db).tokens (map token_in rows.items)) }
    ensures cause { (db : Database) (pending : List Written) → Stands S.Store conn.old db pending → IfErr result (HasCause (state S.Store conn.old) (state S.Store conn.new)) }
    ensures stored { (db : Database) (pending : List Written) → Stands S.Store conn.old db pending → HasCleanDisk (state S.Store conn.new) → IfOk result (λ rows. AreStored stored_token token_in rows.items) }
{
    query(conn, "SELECT NULL, digest, tenant FROM token", &[])
}

// The rows of all tenants.
fn tenant_rows<S: Alter>(conn: &mut Connection<S>) -> Result<Vec<Row>, Fault>
    requires idle { conn.old.in_transaction ≡ false }
    ensures reads { OnlyReads S.Store conn.old conn.new }
    ensures listed { (db : Database) (pending : List Written) → Stands S.Store conn.old db pending → HasCleanDisk (state S.Store conn.new)
        → IfOk result (λ rows. IsPermutation (tables_of db).tenants (map tenant_in rows.items)) }
    ensures open { HasCleanDisk (state S.Store conn.new) → OnOk result (IsTrue (state S.Store conn.old).is_open) }
    ensures cause { (db : Database) (pending : List Written) → Stands S.Store conn.old db pending → IfErr result (HasCause (state S.Store conn.old) (state S.Store conn.new)) }
    ensures stored { (db : Database) (pending : List Written) → Stands S.Store conn.old db pending → HasCleanDisk (state S.Store conn.new) → IfOk result (λ rows. AreStored stored_tenant tenant_in rows.items) }
{
    query(conn, "SELECT id, NULL, name FROM tenant", &[])
}

// The ids of these rows.
fn ids_in(alloc: Global, rows: &[Row]) -> Result<Vec<u32>, Fault>
    ensures read { IfOk result (λ ids. ids.items ≡ map (λ r. number_at r tenant.ID) rows.now) }
    ensures only { IfErr result (λ why. IsStore why → AreOf IsTenant stored_tenant rows.now → ⊥) }
{
    let mut ids = Vec::new(alloc);
    for row in rows {
        let Some(id) = word_at(row, tenant::ID) else {
            return Err(Fault::DAMAGED);
        };
        if ids.push(id).is_err() {
            return Err(Fault::NoMemory);
        }
    }
    Ok(ids)
}

/// How many tokens there are. Their rows are read, since the lemmas on queries don't cover aggregates:
/// with `count(*)` nothing would be proved.
pub fn count_tokens<S: Alter>(conn: &mut Connection<S>) -> Result<usize, Fault>
    requires idle { conn.old.in_transaction ≡ false }
    ensures reads { OnlyReads S.Store conn.old conn.new }
    ensures counted { (db : Database) (pending : List Written) → Stands S.Store conn.old db pending → HasCleanDisk (state S.Store conn.new)
        → IfOk result (λ count. count ≡ length (tables_of db).tokens) }
    ensures cause { (db : Database) (pending : List Written) → Stands S.Store conn.old db pending → IfErr result (HasCause (state S.Store conn.old) (state S.Store conn.new)) }
{
    let rows = token_rows(conn)?;
    Ok(rows.as_slice().len())
}

/// The ids of all tenants.
pub fn tenant_ids<S: Alter>(alloc: Global, conn: &mut Connection<S>) -> Result<Vec<u32>, Fault>
    requires idle { conn.old.in_transaction ≡ false }
    ensures reads { OnlyReads S.Store conn.old conn.new }
    ensures listed { (db : Database) (pending : List Written) → Stands S.Store conn.old db pending → HasCleanDisk (state S.Store conn.new)
        → IfOk result (λ ids. IsPermutation (map (λ t. t.id) (tables_of db).tenants) ids.items) }
    ensures cause { (db : Database) (pending : List Written) → Stands S.Store conn.old db pending → ((x : Tenant) → Has (tables_of db).tenants x → IsTenant x) → IfErr result (HasCause (state S.Store conn.old) (state S.Store conn.new)) }
{
    let rows = tenant_rows(conn)?;
    ids_in(alloc, rows.as_slice())
}

// The rows of all networks.
fn network_rows<S: Alter>(conn: &mut Connection<S>) -> Result<Vec<Row>, Fault>
    requires idle { conn.old.in_transaction ≡ false }
    ensures reads { OnlyReads S.Store conn.old conn.new }
    ensures listed { (db : Database) (pending : List Written) → Stands S.Store conn.old db pending → HasCleanDisk (state S.Store conn.new)
        → IfOk result (λ rows. IsPermutation (tables_of db).networks (map network_in rows.items)) }
    ensures cause { (db : Database) (pending : List Written) → Stands S.Store conn.old db pending → IfErr result (HasCause (state S.Store conn.old) (state S.Store conn.new)) }
    ensures stored { (db : Database) (pending : List Written) → Stands S.Store conn.old db pending → HasCleanDisk (state S.Store conn.new) → IfOk result (λ rows. AreStored stored_network network_in rows.items) }
{
    query(conn, select_networks!(), &[])
}

// The tenants of these rows.
fn tenants_in(alloc: Global, rows: &[Row]) -> Result<Vec<Tenant>, Fault>
    ensures read { IfOk result (λ tenants. tenants.items ≡ map tenant_in rows.now) }
    ensures only { IfErr result (λ why. IsStore why → AreOf IsTenant stored_tenant rows.now → ⊥) }
{
    let mut tenants = Vec::new(alloc);
    for row in rows {
        let tenant = read_tenant(alloc, row)?;
        if tenants.push(tenant).is_err() {
            return Err(Fault::NoMemory);
        }
    }
    Ok(tenants)
}

// The tokens of these rows.
fn tokens_in(alloc: Global, rows: &[Row]) -> Result<Vec<Token>, Fault>
    ensures read { IfOk result (λ tokens. tokens.items ≡ map token_in rows.now) }
    ensures only { IfErr result (λ why. IsStore why → AreOf IsKeptToken stored_token rows.now → ⊥) }
{
    let mut tokens = Vec::new(alloc);
    for row in rows {
        let token = read_token(row)?;
        if tokens.push(token).is_err() {
            return Err(Fault::NoMemory);
        }
    }
    Ok(tokens)
}

// Appends a network.
fn keep(networks: &mut Vec<NetworkEntry>, network: NetworkEntry) -> Result<(), Fault>
    ensures kept { OnOk result (networks.new.items ≡ networks.old.items ++ network ∷ []) }
    ensures memory { IfErr result (λ why. why ≡ NoMemory) }
{
    match networks.push(network) {
        Ok(()) => Ok(()),
        Err(_) => Err(Fault::NoMemory),
    }
}

// The networks of these rows, as they were added.
fn settled_in(alloc: Global, rows: &[Row]) -> Result<Vec<NetworkEntry>, Fault>
    ensures read { IfOk result (λ networks. networks.items ≡ map (λ r. settled (network_in r)) rows.now) }
    ensures only { IfErr result (λ why. IsStore why → AreOf IsKeptNetwork stored_network rows.now → ⊥) }
{
    let mut networks = Vec::new(alloc);
    for row in rows {
        let network = read_settled(alloc, row)?;
        keep(&mut networks, network)?;
    }
    Ok(networks)
}

/// All tenants. A result also says that the store was open.
pub fn tenants<S: Alter>(alloc: Global, conn: &mut Connection<S>) -> Result<Vec<Tenant>, Fault>
    requires idle { conn.old.in_transaction ≡ false }
    ensures reads { OnlyReads S.Store conn.old conn.new }
    ensures listed { (db : Database) (pending : List Written) → Stands S.Store conn.old db pending → HasCleanDisk (state S.Store conn.new)
        → IfOk result (λ tenants. IsPermutation (tables_of db).tenants tenants.items) }
    ensures open { HasCleanDisk (state S.Store conn.new) → OnOk result (IsTrue (state S.Store conn.old).is_open) }
    ensures cause { (db : Database) (pending : List Written) → Stands S.Store conn.old db pending → ((x : Tenant) → Has (tables_of db).tenants x → IsTenant x) → IfErr result (HasCause (state S.Store conn.old) (state S.Store conn.new)) }
{
    let rows = tenant_rows(conn)?;
    tenants_in(alloc, rows.as_slice())
}

/// All tokens.
pub fn tokens<S: Alter>(alloc: Global, conn: &mut Connection<S>) -> Result<Vec<Token>, Fault>
    requires idle { conn.old.in_transaction ≡ false }
    ensures reads { OnlyReads S.Store conn.old conn.new }
    ensures listed { (db : Database) (pending : List Written) → Stands S.Store conn.old db pending → HasCleanDisk (state S.Store conn.new)
        → IfOk result (λ tokens. IsPermutation (tables_of db).tokens tokens.items) }
    ensures cause { (db : Database) (pending : List Written) → Stands S.Store conn.old db pending → ((x : Token) → Has (tables_of db).tokens x → IsKeptToken x) → IfErr result (HasCause (state S.Store conn.old) (state S.Store conn.new)) }
{
    let rows = token_rows(conn)?;
    tokens_in(alloc, rows.as_slice())
}

/// All networks, as they were added: without peers, and with the first number as next.
pub fn settled_networks<S: Alter>(
    alloc: Global,
    conn: &mut Connection<S>,
) -> Result<Vec<NetworkEntry>, Fault>
    requires idle { conn.old.in_transaction ≡ false }
    ensures reads { OnlyReads S.Store conn.old conn.new }
    ensures listed { (db : Database) (pending : List Written) → Stands S.Store conn.old db pending → HasCleanDisk (state S.Store conn.new)
        → IfOk result (λ networks. (rows : List NetworkRow) × IsPermutation (tables_of db).networks rows × (networks.items ≡ map settled rows)) }
    ensures cause { (db : Database) (pending : List Written) → Stands S.Store conn.old db pending → ((w : NetworkRow) → Has (tables_of db).networks w → IsKeptNetwork w) → IfErr result (HasCause (state S.Store conn.old) (state S.Store conn.new)) }
{
    let rows = network_rows(conn)?;
    settled_in(alloc, rows.as_slice())
}
