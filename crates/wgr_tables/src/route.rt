//! Routes that are added to a network or deleted from it.
ghost use Rattle.std.specs.Prelude.{◌≡◌, ◌↔◌, [], IfOk, IsTrue};
ghost use Rattle.sqlite.specs.declared.error.Error.TheVariants.{SqliteFailure};
ghost use Rattle.sqlite.specs.declared.error.ErrorCode.TheVariants.{OutOfMemory};
ghost use Rattle.sqlite.specs.State.{HasCleanDisk, Survives};
ghost use Rattle.sqlite.specs.Held.{state};
ghost use Rattle.wgr_peers.specs.Routes.{AreOrdered};
ghost use Rattle.wgr_sql.specs.Steps.{Each};
ghost use Rattle.wgr_sql.specs.declared.fault.Fault.TheVariants.{NoMemory};
ghost use Rattle.wgr_tables.specs.Stops.{FailsBy, OneOfEach, RouteIsNotPut, RouteStays, RouteStaysOut, RoutesAreNotPut};
ghost use Rattle.wgr_tables.specs.TableSteps.{HasNoRoute, RouteGoes, RouteComes, RoutePuts};
ghost use Rattle.wgr_tables.specs.Standing.{StepsOn, StepsFrom};

use sqlite::types::ValueRef;
use sqlite::{Alter, Row, Transaction};
use wgr_columns::{bytes_of, family_value, number_value, peer_id_value};
use wgr_peers::order::comes_before;
use wgr_sql::{Fault, execute, fault_of};
use wgr_text::Prefix;

/// From this many routes on, a query whether the network has any costs less than it saves.
const MANY: usize = 64;

// Deletes a route.
fn drop_route<S: Alter>(
    tx: &mut Transaction<'_, S>,
    network: u32,
    prefix: &Prefix,
) -> Result<usize, Fault>
    ensures same_reference { tx.new.conn.ghost_name ≡ tx.old.conn.ghost_name }
    ensures step { HasCleanDisk (state S.Store tx.new.conn.now) → StepsOn (RouteGoes network prefix.now) (state S.Store tx.old.conn.now) (state S.Store tx.new.conn.now) result }
    ensures survives { Survives (state S.Store tx.old.conn.now) (state S.Store tx.new.conn.now) (λ _. ⊥) }
    ensures cause { FailsBy (RouteStays network prefix.now) (state S.Store tx.old.conn.now) (state S.Store tx.new.conn.now) result }
{
    let address = prefix.address();
    let lo = bytes_of(address.number());
    execute(
        tx,
        "DELETE FROM allowed WHERE network = ?1 AND family = ?2 AND lo = ?3 AND length = ?4 AND kind = 'route'",
        &[
            number_value(network),
            family_value(address.family()),
            ValueRef::Blob(&lo),
            number_value(u32::from(prefix.length())),
        ],
    )
}

// Adds a route.
fn add_route<S: Alter>(
    tx: &mut Transaction<'_, S>,
    network: u32,
    prefix: &Prefix,
    number: u32,
) -> Result<usize, Fault>
    ensures same_reference { tx.new.conn.ghost_name ≡ tx.old.conn.ghost_name }
    ensures step { HasCleanDisk (state S.Store tx.new.conn.now) → StepsOn (RouteComes network (prefix.now, number)) (state S.Store tx.old.conn.now) (state S.Store tx.new.conn.now) result }
    ensures survives { Survives (state S.Store tx.old.conn.now) (state S.Store tx.new.conn.now) (λ _. ⊥) }
    ensures cause { FailsBy (RouteStaysOut network (prefix.now, number)) (state S.Store tx.old.conn.now) (state S.Store tx.new.conn.now) result }
{
    let address = prefix.address();
    let lo = bytes_of(address.number());
    let hi = bytes_of(prefix.span().hi.number());
    execute(
        tx,
        "INSERT INTO allowed (network, family, lo, length, hi, peer, kind) VALUES (?1, ?2, ?3, ?4, ?5, ?6, 'route')",
        &[
            number_value(network),
            family_value(address.family()),
            ValueRef::Blob(&lo),
            number_value(u32::from(prefix.length())),
            ValueRef::Blob(&hi),
            peer_id_value(network, number),
        ],
    )
}

// Routes a prefix to a peer.
fn put_route<S: Alter>(
    tx: &mut Transaction<'_, S>,
    network: u32,
    route: &(Prefix, u32),
) -> Result<usize, Fault>
    ensures same_reference { tx.new.conn.ghost_name ≡ tx.old.conn.ghost_name }
    ensures step { HasCleanDisk (state S.Store tx.new.conn.now) → StepsOn (RoutePuts network route.now) (state S.Store tx.old.conn.now) (state S.Store tx.new.conn.now) result }
    ensures survives { Survives (state S.Store tx.old.conn.now) (state S.Store tx.new.conn.now) (λ _. ⊥) }
    ensures cause { FailsBy (RouteIsNotPut network route.now) (state S.Store tx.old.conn.now) (state S.Store tx.new.conn.now) result }
{
    drop_route(tx, network, &route.0)?;
    add_route(tx, network, &route.0, route.1)
}

// Routes each of these prefixes to its peer, replacing the route that it has.
fn replace_routes<S: Alter>(
    tx: &mut Transaction<'_, S>,
    network: u32,
    routes: &[(Prefix, u32)],
) -> Result<(), Fault>
    ensures same_reference { tx.new.conn.ghost_name ≡ tx.old.conn.ghost_name }
    ensures step { HasCleanDisk (state S.Store tx.new.conn.now) → StepsFrom (Each (RoutePuts network) routes.now) (state S.Store tx.old.conn.now) (state S.Store tx.new.conn.now) result }
    ensures survives { Survives (state S.Store tx.old.conn.now) (state S.Store tx.new.conn.now) (λ _. ⊥) }
    ensures cause { FailsBy (OneOfEach (RoutePuts network) (RouteIsNotPut network) routes.now) (state S.Store tx.old.conn.now) (state S.Store tx.new.conn.now) result }
{
    for route in routes {
        put_route(tx, network, route)?;
    }
    Ok(())
}

// Adds each of these routes.
fn add_routes<S: Alter>(
    tx: &mut Transaction<'_, S>,
    network: u32,
    routes: &[(Prefix, u32)],
) -> Result<(), Fault>
    ensures same_reference { tx.new.conn.ghost_name ≡ tx.old.conn.ghost_name }
    ensures step { HasCleanDisk (state S.Store tx.new.conn.now) → StepsFrom (Each (RouteComes network) routes.now) (state S.Store tx.old.conn.now) (state S.Store tx.new.conn.now) result }
    ensures survives { Survives (state S.Store tx.old.conn.now) (state S.Store tx.new.conn.now) (λ _. ⊥) }
    ensures cause { FailsBy (OneOfEach (RouteComes network) (RouteStaysOut network) routes.now) (state S.Store tx.old.conn.now) (state S.Store tx.new.conn.now) result }
{
    for route in routes {
        add_route(tx, network, &route.0, route.1)?;
    }
    Ok(())
}

// A route of the network, if it has any.
fn first_route<S: Alter>(tx: &mut Transaction<'_, S>, network: u32) -> Result<Vec<Row>, Fault>
    ensures same_reference { tx.new.conn.ghost_name ≡ tx.old.conn.ghost_name }
    ensures step { HasCleanDisk (state S.Store tx.new.conn.now) → StepsOn (λ t u. (t ≡ u) × IfOk result (λ rows. rows.items ≡ [] → HasNoRoute network t)) (state S.Store tx.old.conn.now) (state S.Store tx.new.conn.now) result }
    ensures survives { Survives (state S.Store tx.old.conn.now) (state S.Store tx.new.conn.now) (λ _. ⊥) }
    ensures cause { FailsBy (λ _. ⊥) (state S.Store tx.old.conn.now) (state S.Store tx.new.conn.now) result }
{
    tx.query_all(
        "SELECT peer FROM allowed WHERE network = ?1 AND kind = 'route' LIMIT 1",
        &[number_value(network)],
    )
    .map_err(
        |error|
            ensures { (result ≡ NoMemory) ↔ (error ≡ SqliteFailure OutOfMemory) }
        { fault_of(error) },
    )
}

// Whether each prefix comes before the next one.
fn are_ordered(routes: &[(Prefix, u32)]) -> bool
    ensures { IsTrue result → AreOrdered routes.now }
{
    routes.is_sorted_by(|one, other| comes_before(&one.0, &other.0))
}

// Whether these routes are known to replace none; `false` without a query if they are few or not in order.
fn are_new<S: Alter>(
    tx: &mut Transaction<'_, S>,
    network: u32,
    routes: &[(Prefix, u32)],
) -> Result<bool, Fault>
    ensures same_reference { tx.new.conn.ghost_name ≡ tx.old.conn.ghost_name }
    ensures step { HasCleanDisk (state S.Store tx.new.conn.now) → StepsFrom (λ t u. (t ≡ u) × IfOk result (λ new. IsTrue new → HasNoRoute network t)) (state S.Store tx.old.conn.now) (state S.Store tx.new.conn.now) result }
    ensures ordered { IfOk result (λ new. IsTrue new → AreOrdered routes.now) }
    ensures survives { Survives (state S.Store tx.old.conn.now) (state S.Store tx.new.conn.now) (λ _. ⊥) }
    ensures cause { FailsBy (λ _. ⊥) (state S.Store tx.old.conn.now) (state S.Store tx.new.conn.now) result }
{
    if routes.len() < MANY || !are_ordered(routes) {
        return Ok(false);
    }
    let found = first_route(tx, network)?;
    Ok(found.is_empty())
}

/// Routes each of these prefixes to its peer. Many that are added to a network without routes are added
/// without a DELETE statement for each, which would delete nothing: they have to be in strict order, so
/// that no prefix occurs twice.
pub(crate) fn put_routes<S: Alter>(
    tx: &mut Transaction<'_, S>,
    network: u32,
    routes: &[(Prefix, u32)],
) -> Result<(), Fault>
    ensures same_reference { tx.new.conn.ghost_name ≡ tx.old.conn.ghost_name }
    ensures step { HasCleanDisk (state S.Store tx.new.conn.now) → StepsFrom (Each (RoutePuts network) routes.now) (state S.Store tx.old.conn.now) (state S.Store tx.new.conn.now) result }
    ensures survives { Survives (state S.Store tx.old.conn.now) (state S.Store tx.new.conn.now) (λ _. ⊥) }
    ensures cause { FailsBy (RoutesAreNotPut network routes.now) (state S.Store tx.old.conn.now) (state S.Store tx.new.conn.now) result }
{
    if are_new(tx, network, routes)? {
        add_routes(tx, network, routes)
    } else {
        replace_routes(tx, network, routes)
    }
}

/// Deletes each of these routes.
pub(crate) fn drop_routes<S: Alter>(
    tx: &mut Transaction<'_, S>,
    network: u32,
    prefixes: &[Prefix],
) -> Result<(), Fault>
    ensures same_reference { tx.new.conn.ghost_name ≡ tx.old.conn.ghost_name }
    ensures step { HasCleanDisk (state S.Store tx.new.conn.now) → StepsFrom (Each (RouteGoes network) prefixes.now) (state S.Store tx.old.conn.now) (state S.Store tx.new.conn.now) result }
    ensures survives { Survives (state S.Store tx.old.conn.now) (state S.Store tx.new.conn.now) (λ _. ⊥) }
    ensures cause { FailsBy (OneOfEach (RouteGoes network) (RouteStays network) prefixes.now) (state S.Store tx.old.conn.now) (state S.Store tx.new.conn.now) result }
{
    for prefix in prefixes {
        drop_route(tx, network, prefix)?;
    }
    Ok(())
}
