//! Lookups of tenants and networks by a key.
ghost use Rattle.std.specs.Prelude.{◌≡◌, List, IfErr, IfOk, IfSome, IfNone, IsTrue, OnErr, OnOk, false};
ghost use Rattle.sqlite.specs.Effect.{Database};
ghost use Rattle.sqlite.specs.State.{HasCleanDisk};
ghost use Rattle.sqlite.specs.Held.{state};
ghost use Rattle.wgr_model.specs.Consistent.{same_slot};
ghost use Rattle.wgr_model.specs.Laws.{Has};
ghost use Rattle.wgr_model.specs.Register.{id_of};
ghost use Rattle.wgr_model.specs.RowLaws.{AreConsistent};
ghost use Rattle.wgr_model.specs.Rows.{NetworkRow};
ghost use Rattle.wgr_model.specs.Steps.{tenant_of_token};
ghost use Rattle.wgr_sql.specs.Causes.{HasCause};
ghost use Rattle.wgr_columns.specs.Decode.{network_in, tables_of};
ghost use Rattle.wgr_columns.specs.Stored.{AreStored, stored_network};
ghost use Rattle.wgr_entries.specs.Lookups.{HasWordAt, IsNumberIn, IsSlotOf, ShowNetworksOf, ShowSlot, ShowTenant, ShowToken};
ghost use Rattle.wgr_tables.specs.Writes.{Written};
ghost use Rattle.wgr_tables.specs.Standing.{OnlyReads, Stands};

use sqlite::types::ValueRef;
use sqlite::{Alter, Connection, Row};
use wgr_columns::{network, number_value, select_networks, tenant, token, word_at};
use wgr_peers::Name;
use wgr_sql::{Fault, only, query};

// The row of the token of this digest.
fn token_rows<S: Alter>(conn: &mut Connection<S>, digest: &[u8; 32]) -> Result<Vec<Row>, Fault>
    requires idle { conn.old.in_transaction ≡ false }
    ensures reads { OnlyReads S.Store conn.old conn.new }
    ensures listed { (db : Database) (pending : List Written) → Stands S.Store conn.old db pending → HasCleanDisk (state S.Store conn.new)
        → IfOk result (λ rows. ShowToken digest.now (tables_of db) rows.items) }
    ensures open { HasCleanDisk (state S.Store conn.new) → OnOk result (IsTrue (state S.Store conn.old).is_open) }
    ensures cause { (db : Database) (pending : List Written) → Stands S.Store conn.old db pending → IfErr result (HasCause (state S.Store conn.old) (state S.Store conn.new)) }
    ensures word { (db : Database) (pending : List Written) → Stands S.Store conn.old db pending → AreConsistent (tables_of db) → HasCleanDisk (state S.Store conn.new) → IfOk result (λ rows. HasWordAt rows.items 2) }
{
    query(
        conn,
        "SELECT NULL, digest, tenant FROM token WHERE digest = ?1",
        &[ValueRef::Blob(digest)],
    )
}

// The row of the tenant of this name.
fn tenant_rows<S: Alter>(conn: &mut Connection<S>, name: &Name) -> Result<Vec<Row>, Fault>
    requires idle { conn.old.in_transaction ≡ false }
    ensures reads { OnlyReads S.Store conn.old conn.new }
    ensures listed { (db : Database) (pending : List Written) → Stands S.Store conn.old db pending → HasCleanDisk (state S.Store conn.new)
        → IfOk result (λ rows. ShowTenant name.now (tables_of db) rows.items) }
    ensures open { HasCleanDisk (state S.Store conn.new) → OnOk result (IsTrue (state S.Store conn.old).is_open) }
    ensures cause { (db : Database) (pending : List Written) → Stands S.Store conn.old db pending → IfErr result (HasCause (state S.Store conn.old) (state S.Store conn.new)) }
    ensures word { (db : Database) (pending : List Written) → Stands S.Store conn.old db pending → AreConsistent (tables_of db) → HasCleanDisk (state S.Store conn.new) → IfOk result (λ rows. HasWordAt rows.items 0) }
{
    query(
        conn,
        "SELECT id, NULL, name FROM tenant WHERE name = ?1",
        &[ValueRef::Text(name.as_str().as_bytes())],
    )
}

// The row of the network of this name that the tenant of this id has.
fn slot_rows<S: Alter>(
    conn: &mut Connection<S>,
    tenant: u32,
    name: &Name,
) -> Result<Vec<Row>, Fault>
    requires idle { conn.old.in_transaction ≡ false }
    ensures reads { OnlyReads S.Store conn.old conn.new }
    ensures listed { (db : Database) (pending : List Written) → Stands S.Store conn.old db pending → HasCleanDisk (state S.Store conn.new)
        → IfOk result (λ rows. ShowSlot (tenant, name.now) (tables_of db) rows.items) }
    ensures cause { (db : Database) (pending : List Written) → Stands S.Store conn.old db pending → IfErr result (HasCause (state S.Store conn.old) (state S.Store conn.new)) }
    ensures word { (db : Database) (pending : List Written) → Stands S.Store conn.old db pending → AreConsistent (tables_of db) → HasCleanDisk (state S.Store conn.new) → IfOk result (λ rows. HasWordAt rows.items 0) }
{
    query(
        conn,
        select_networks!(" WHERE tenant = ?1 AND name = ?2"),
        &[
            number_value(tenant),
            ValueRef::Text(name.as_str().as_bytes()),
        ],
    )
}

// The number at this place of the one row, if there is one.
fn number_in(rows: Vec<Row>, at: usize) -> Result<Option<u32>, Fault>
    ensures found { IfOk result (λ found. IsNumberIn rows.items at found) }
    ensures only { OnErr result (HasWordAt rows.items at → ⊥) }
{
    let Some(row) = only(rows)? else {
        return Ok(None);
    };
    Ok(Some(word_at(&row, at).ok_or(Fault::DAMAGED)?))
}

/// The id of the tenant that the token of this digest names, or `None` where no token has it.
pub fn tenant_of_token<S: Alter>(
    conn: &mut Connection<S>,
    digest: &[u8; 32],
) -> Result<Option<u32>, Fault>
    requires idle { conn.old.in_transaction ≡ false }
    ensures reads { OnlyReads S.Store conn.old conn.new }
    ensures found { (db : Database) (pending : List Written) → Stands S.Store conn.old db pending → HasCleanDisk (state S.Store conn.new)
        → IfOk result (λ id. id ≡ tenant_of_token (tables_of db).tokens digest.now) }
    ensures open { HasCleanDisk (state S.Store conn.new) → OnOk result (IsTrue (state S.Store conn.old).is_open) }
    ensures cause { (db : Database) (pending : List Written) → Stands S.Store conn.old db pending → AreConsistent (tables_of db) → IfErr result (HasCause (state S.Store conn.old) (state S.Store conn.new)) }
{
    let rows = token_rows(conn, digest)?;
    number_in(rows, token::TENANT)
}

/// The id of the tenant of this name, or `None` where no tenant has it.
pub fn tenant_id<S: Alter>(conn: &mut Connection<S>, name: &Name) -> Result<Option<u32>, Fault>
    requires idle { conn.old.in_transaction ≡ false }
    ensures reads { OnlyReads S.Store conn.old conn.new }
    ensures found { (db : Database) (pending : List Written) → Stands S.Store conn.old db pending → HasCleanDisk (state S.Store conn.new)
        → IfOk result (λ id. id ≡ id_of (tables_of db).tenants name.now) }
    ensures open { HasCleanDisk (state S.Store conn.new) → OnOk result (IsTrue (state S.Store conn.old).is_open) }
    ensures cause { (db : Database) (pending : List Written) → Stands S.Store conn.old db pending → AreConsistent (tables_of db) → IfErr result (HasCause (state S.Store conn.old) (state S.Store conn.new)) }
{
    let rows = tenant_rows(conn, name)?;
    number_in(rows, tenant::ID)
}

/// The id of the network of this name that the tenant of this id has, or `None` where it has none.
pub fn network_id<S: Alter>(
    conn: &mut Connection<S>,
    tenant: u32,
    name: &Name,
) -> Result<Option<u32>, Fault>
    requires idle { conn.old.in_transaction ≡ false }
    ensures reads { OnlyReads S.Store conn.old conn.new }
    ensures some { (db : Database) (pending : List Written) → Stands S.Store conn.old db pending → HasCleanDisk (state S.Store conn.new)
        → IfOk result (λ found. IfSome found (λ id. (w : NetworkRow) × Has (tables_of db).networks w × IsSlotOf w tenant name.now × (w.id ≡ id))) }
    ensures none { (db : Database) (pending : List Written) → Stands S.Store conn.old db pending → HasCleanDisk (state S.Store conn.new)
        → IfOk result (λ found. IfNone found ((w : NetworkRow) → Has (tables_of db).networks w → same_slot (tenant, name.now) (w.tenant, w.name) ≡ false)) }
    ensures cause { (db : Database) (pending : List Written) → Stands S.Store conn.old db pending → AreConsistent (tables_of db) → IfErr result (HasCause (state S.Store conn.old) (state S.Store conn.new)) }
{
    let rows = slot_rows(conn, tenant, name)?;
    number_in(rows, network::ID)
}

/// The rows of the networks of the tenant of this id.
pub fn networks_of_tenant<S: Alter>(
    conn: &mut Connection<S>,
    tenant: u32,
) -> Result<Vec<Row>, Fault>
    requires idle { conn.old.in_transaction ≡ false }
    ensures reads { OnlyReads S.Store conn.old conn.new }
    ensures listed { (db : Database) (pending : List Written) → Stands S.Store conn.old db pending → HasCleanDisk (state S.Store conn.new)
        → IfOk result (λ rows. ShowNetworksOf tenant (tables_of db) rows.items) }
    ensures cause { (db : Database) (pending : List Written) → Stands S.Store conn.old db pending → IfErr result (HasCause (state S.Store conn.old) (state S.Store conn.new)) }
    ensures stored { (db : Database) (pending : List Written) → Stands S.Store conn.old db pending → HasCleanDisk (state S.Store conn.new) → IfOk result (λ rows. AreStored stored_network network_in rows.items) }
{
    query(
        conn,
        select_networks!(" WHERE tenant = ?1"),
        &[number_value(tenant)],
    )
}
