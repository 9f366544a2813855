//! Orders of the operator.
ghost use Rattle.std.specs.Prelude.{◌≡◌, List, [], IsTrue, false, nat_lt, not};
ghost use Rattle.sqlite.specs.Effect.{Database};
ghost use Rattle.sqlite.specs.State.{HasCleanDisk};
ghost use Rattle.sqlite.specs.Held.{state};
ghost use Rattle.wgr_orders.specs.Orders.{order_event};
ghost use Rattle.wgr_model.specs.Consistent.{max_entries};
ghost use Rattle.wgr_model.specs.Steps.{AddNetwork, AddTenant, EndNetwork, EndToken, Event, Grant, IsProper};
ghost use Rattle.wgr_sql.specs.Causes.{HasCauseOr};
ghost use Rattle.wgr_columns.specs.Decode.{tables_of};
ghost use Rattle.wgr_register.specs.Causes.{IfOrderFault, OrderStops};
ghost use Rattle.wgr_register.specs.Ends.{AdmitsNetwork, OrderEnds};
ghost use Rattle.wgr_register.specs.Loaded.{Shows, UnlessUndone};
ghost use Rattle.wgr_register.specs.Memory.{EndsNone, IsMemoryOf};
ghost use Rattle.wgr_register.specs.Standing.{StandsAt};

use crate::fault::{Done, OrderFault};
use crate::memory::Memory;
use sqlite::{Alter, Connection};
use std::alloc::Global;
use wgr_core::Name;
use wgr_entries::{
    EndedNetwork, EndedToken, NewNetwork, NewTenant, NewToken, count_tokens, network_id,
    settled_networks, tenant_id, tenant_ids, tenant_of_token, tenants,
};
use wgr_model::{MAX_ENTRIES, Right};
use wgr_orders::{NetworkEntry, Order, OrderRefusal, Settings, Tenant, admit_network, unused_id};
use wgr_tables::{Fault, commit};

// Does the order, or refuses it. What is in memory stays, except what is of a network that ends.
pub(crate) fn operate<S: Alter>(
    alloc: Global,
    conn: &mut Connection<S>,
    memory: &mut Memory,
    order: &Order,
) -> Result<Done, OrderFault>
    requires idle { conn.old.in_transaction ≡ false }
    ensures idle { conn.new.in_transaction ≡ false }
    ensures clean { HasCleanDisk (state S.Store conn.new) → HasCleanDisk (state S.Store conn.old) }
    ensures open { HasCleanDisk (state S.Store conn.new) → UnlessUndone result (IsTrue (state S.Store conn.old).is_open) }
    ensures ends { (db : Database) (late : List Event) → StandsAt S.Store conn.old db late → OrderEnds S.Store conn.new db late (order_event order.now) result }
    ensures memory { (db : Database) (late : List Event) → StandsAt S.Store conn.old db late → IsMemoryOf memory.old (tables_of db) → UnlessUndone result (Shows S.Store conn.new (IsMemoryOf memory.new)) }
    ensures stays { EndsNone (order_event order.now) → memory.new ≡ memory.old }
    ensures stops { (db : Database) (late : List Event) → StandsAt S.Store conn.old db late → IfOrderFault (HasCauseOr (OrderStops (tables_of db) (order_event order.now)) (state S.Store conn.old) (state S.Store conn.new)) result }
{
    order.forms_hold();
    match order {
        Order::AddTenant { name } => add_tenant(alloc, conn, name),
        Order::Grant {
            tenant,
            digest,
            right,
        } => grant(conn, tenant, digest, *right),
        Order::EndToken { digest } => end_token(conn, digest),
        Order::AddNetwork {
            tenant,
            name,
            settings,
        } => add_network(alloc, conn, tenant, name, settings),
        Order::EndNetwork { tenant, name } => end_network(conn, memory, tenant, name),
    }
}

// Removes the token of this digest.
fn end_token<S: Alter>(conn: &mut Connection<S>, digest: &[u8; 32]) -> Result<Done, OrderFault>
    requires idle { conn.old.in_transaction ≡ false }
    ensures idle { conn.new.in_transaction ≡ false }
    ensures clean { HasCleanDisk (state S.Store conn.new) → HasCleanDisk (state S.Store conn.old) }
    ensures open { HasCleanDisk (state S.Store conn.new) → UnlessUndone result (IsTrue (state S.Store conn.old).is_open) }
    ensures ends { (db : Database) (late : List Event) → StandsAt S.Store conn.old db late → OrderEnds S.Store conn.new db late (EndToken digest.now) result }
    ensures stops { (db : Database) (late : List Event) → StandsAt S.Store conn.old db late → IfOrderFault (HasCauseOr (OrderStops (tables_of db) (EndToken digest.now)) (state S.Store conn.old) (state S.Store conn.new)) result }
{
    let Some(_holder) = tenant_of_token(conn, digest)? else {
        return Err(OrderFault::Refused(OrderRefusal::NoSuchToken));
    };
    commit(conn, &EndedToken { digest })?;
    Ok(Done)
}

// Removes the network of this name that the tenant has, with its peers and routes.
fn end_network<S: Alter>(
    conn: &mut Connection<S>,
    memory: &mut Memory,
    tenant: &Name,
    name: &Name,
) -> Result<Done, OrderFault>
    requires idle { conn.old.in_transaction ≡ false }
    ensures idle { conn.new.in_transaction ≡ false }
    ensures clean { HasCleanDisk (state S.Store conn.new) → HasCleanDisk (state S.Store conn.old) }
    ensures open { HasCleanDisk (state S.Store conn.new) → UnlessUndone result (IsTrue (state S.Store conn.old).is_open) }
    ensures ends { (db : Database) (late : List Event) → StandsAt S.Store conn.old db late → OrderEnds S.Store conn.new db late (EndNetwork tenant.now name.now) result }
    ensures memory { (db : Database) (late : List Event) → StandsAt S.Store conn.old db late → IsMemoryOf memory.old (tables_of db) → UnlessUndone result (Shows S.Store conn.new (IsMemoryOf memory.new)) }
    ensures stops { (db : Database) (late : List Event) → StandsAt S.Store conn.old db late → IfOrderFault (HasCauseOr (OrderStops (tables_of db) (EndNetwork tenant.now name.now)) (state S.Store conn.old) (state S.Store conn.new)) result }
{
    let Some(id) = tenant_id(conn, tenant)? else {
        return Err(OrderFault::Refused(OrderRefusal::NoSuchTenant));
    };
    let Some(network) = network_id(conn, id, name)? else {
        return Err(OrderFault::Refused(OrderRefusal::NoNetwork));
    };
    commit(conn, &EndedNetwork { network })?;
    memory.forget(network);
    Ok(Done)
}

// Adds a token of this digest for the tenant of this name, with this right.
fn grant<S: Alter>(
    conn: &mut Connection<S>,
    tenant: &Name,
    digest: &[u8; 32],
    right: Right,
) -> Result<Done, OrderFault>
    requires idle { conn.old.in_transaction ≡ false }
    ensures idle { conn.new.in_transaction ≡ false }
    ensures clean { HasCleanDisk (state S.Store conn.new) → HasCleanDisk (state S.Store conn.old) }
    ensures open { HasCleanDisk (state S.Store conn.new) → UnlessUndone result (IsTrue (state S.Store conn.old).is_open) }
    ensures ends { (db : Database) (late : List Event) → StandsAt S.Store conn.old db late → IsProper (Grant tenant.now digest.now right) → OrderEnds S.Store conn.new db late (Grant tenant.now digest.now right) result }
    ensures stops { (db : Database) (late : List Event) → StandsAt S.Store conn.old db late → IfOrderFault (HasCauseOr (OrderStops (tables_of db) (Grant tenant.now digest.now right)) (state S.Store conn.old) (state S.Store conn.new)) result }
{
    let Some(id) = tenant_id(conn, tenant)? else {
        return Err(OrderFault::Refused(OrderRefusal::NoSuchTenant));
    };
    let None = tenant_of_token(conn, digest)? else {
        return Err(OrderFault::Refused(OrderRefusal::DigestHeld));
    };
    let count = count_tokens(conn)?;
    if is_full(count) {
        return Err(OrderFault::Refused(OrderRefusal::RegisterFull));
    }
    let token = NewToken {
        digest,
        tenant: id,
        right,
    };
    commit(conn, &token)?;
    Ok(Done)
}

// Adds a tenant of this name, under an id that no other has.
fn add_tenant<S: Alter>(
    alloc: Global,
    conn: &mut Connection<S>,
    name: &Name,
) -> Result<Done, OrderFault>
    requires idle { conn.old.in_transaction ≡ false }
    ensures idle { conn.new.in_transaction ≡ false }
    ensures clean { HasCleanDisk (state S.Store conn.new) → HasCleanDisk (state S.Store conn.old) }
    ensures open { HasCleanDisk (state S.Store conn.new) → UnlessUndone result (IsTrue (state S.Store conn.old).is_open) }
    ensures ends { (db : Database) (late : List Event) → StandsAt S.Store conn.old db late → IsProper (AddTenant name.now) → OrderEnds S.Store conn.new db late (AddTenant name.now) result }
    ensures stops { (db : Database) (late : List Event) → StandsAt S.Store conn.old db late → IfOrderFault (HasCauseOr (OrderStops (tables_of db) (AddTenant name.now)) (state S.Store conn.old) (state S.Store conn.new)) result }
{
    let None = tenant_id(conn, name)? else {
        return Err(OrderFault::Refused(OrderRefusal::NameHeld));
    };
    let ids = tenant_ids(alloc, conn)?;
    if is_full(ids.as_slice().len()) {
        return Err(OrderFault::Refused(OrderRefusal::RegisterFull));
    }
    let id = unused_id(ids.as_slice());
    commit(conn, &NewTenant { id, name })?;
    Ok(Done)
}

// Adds a network of these settings, without peers, of the tenant of this name, under an id that no other
// has.
fn add_network<S: Alter>(
    alloc: Global,
    conn: &mut Connection<S>,
    tenant: &Name,
    name: &Name,
    settings: &Settings,
) -> Result<Done, OrderFault>
    requires idle { conn.old.in_transaction ≡ false }
    ensures idle { conn.new.in_transaction ≡ false }
    ensures clean { HasCleanDisk (state S.Store conn.new) → HasCleanDisk (state S.Store conn.old) }
    ensures open { HasCleanDisk (state S.Store conn.new) → UnlessUndone result (IsTrue (state S.Store conn.old).is_open) }
    ensures ends { (db : Database) (late : List Event) → StandsAt S.Store conn.old db late → IsProper (AddNetwork tenant.now name.now settings.now) → OrderEnds S.Store conn.new db late (AddNetwork tenant.now name.now settings.now) result }
    ensures stops { (db : Database) (late : List Event) → StandsAt S.Store conn.old db late → IfOrderFault (HasCauseOr (OrderStops (tables_of db) (AddNetwork tenant.now name.now settings.now)) (state S.Store conn.old) (state S.Store conn.new)) result }
{
    let Some(id) = tenant_id(conn, tenant)? else {
        return Err(OrderFault::Refused(OrderRefusal::NoSuchTenant));
    };
    let tenants = tenants(alloc, conn)?;
    let networks = settled_networks(alloc, conn)?;
    let new = admit(
        alloc,
        tenants.as_slice(),
        networks.as_slice(),
        id,
        name,
        settings,
    )?;
    let network = NewNetwork {
        id: new,
        tenant: id,
        name,
        settings,
    };
    commit(conn, &network)?;
    Ok(Done)
}

// The id of the new network, or why it isn't added.
fn admit(
    alloc: Global,
    tenants: &[Tenant],
    networks: &[NetworkEntry],
    id: u32,
    name: &Name,
    settings: &Settings,
) -> Result<u32, OrderFault>
    ensures { AdmitsNetwork (record { tenants = tenants.now; tokens = []; readers = []; networks = networks.now }) id name.now settings.now result }
{
    match admit_network(alloc, tenants, networks, id, name, settings) {
        Ok(Ok(new)) => Ok(new),
        Ok(Err(why)) => Err(OrderFault::Refused(why)),
        Err(_) => Err(OrderFault::Fault(Fault::NoMemory)),
    }
}

// Whether a list of so many entries is full.
fn is_full(count: usize) -> bool
    ensures { result ≡ not (nat_lt count max_entries) }
{
    count >= MAX_ENTRIES
}
