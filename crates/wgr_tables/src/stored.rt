//! A network that its rows form, if they form one.
ghost use Rattle.std.specs.Prelude.{◌≡◌, Ok, IfErr, IsErrAnd, IfOk, IfSome, IfNone, IsPermutation, filter, map, not, ◌&&◌, nat_eq, false, List};
ghost use Rattle.std.specs.List.{IsDistinct};
ghost use Rattle.sqlite.specs.Effect.{Database};
ghost use Rattle.sqlite.specs.State.{HasCleanDisk};
ghost use Rattle.sqlite.specs.Held.{state};
ghost use Rattle.wgr_core.specs.Network.{NetworkValue};
ghost use Rattle.wgr_model.specs.Rows.{address_row, peer_row, route_row};
ghost use Rattle.wgr_sql.specs.Causes.{HasCause};
ghost use Rattle.wgr_sql.specs.Faults.{IsStore};
ghost use Rattle.wgr_sql.specs.declared.fault.Fault.TheVariants.{NoMemory};
ghost use Rattle.wgr_columns.specs.Decode.{tables_of};
ghost use Rattle.wgr_tables.specs.Stored.{IsStored};
ghost use Rattle.wgr_tables.specs.Writes.{Written};
ghost use Rattle.wgr_tables.specs.Standing.{OnlyReads, Stands};

use crate::load::{address_rows, make_network, network_row, peer_rows, route_rows};
use crate::read::{peers_of, routes_of};
use sqlite::{Alter, Connection};
use std::alloc::Global;
use wgr_core::Network;
use wgr_peers::Peer;
use wgr_sql::Fault;
use wgr_text::Prefix;

// What was read from rows, or `None` if they form nothing of that kind.
fn if_stored<T>(read: Result<T, Fault>) -> Result<Option<T>, Fault>
    ensures some { IfOk result (λ found. IfSome found (λ x. read ≡ Ok x)) }
    ensures none { IfOk result (λ found. IfNone found (IsErrAnd read IsStore)) }
    ensures memory { IfErr result (λ e. e ≡ NoMemory) }
{
    match read {
        Ok(x) => Ok(Some(x)),
        Err(Fault::Store(_)) => Ok(None),
        Err(Fault::NoMemory) => Err(Fault::NoMemory),
    }
}

// The network's peers, if its rows form them.
fn peers_if_stored<S: Alter>(
    alloc: Global,
    conn: &mut Connection<S>,
    network: u32,
) -> Result<Option<Vec<Peer>>, Fault>
    requires idle { conn.old.in_transaction ≡ false }
    ensures reads { OnlyReads S.Store conn.old conn.new }
    ensures rows { (db : Database) (pending : List Written) → Stands S.Store conn.old db pending → HasCleanDisk (state S.Store conn.new)
        → IfOk result (λ found. IfSome found (λ peers. IsPermutation (filter (λ p. nat_eq p.network network) (tables_of db).peers) (map (peer_row network) peers.items))) }
    ensures addresses { (db : Database) (pending : List Written) → Stands S.Store conn.old db pending → HasCleanDisk (state S.Store conn.new)
        → IfOk result (λ found. IfSome found (λ peers. IsPermutation (filter (λ a. nat_eq a.network network && not a.is_route) (tables_of db).allowed) (map (address_row network) peers.items))) }
    ensures own { (db : Database) (pending : List Written) → Stands S.Store conn.old db pending → HasCleanDisk (state S.Store conn.new)
        → IfOk result (λ found. IfSome found (λ peers. (n : NetworkValue) → IsStored (tables_of db) network n → peers.items ≡ n.peers)) }
    ensures none { (db : Database) (pending : List Written) → Stands S.Store conn.old db pending → HasCleanDisk (state S.Store conn.new)
        → IfOk result (λ found. IfNone found ((n : NetworkValue) → IsStored (tables_of db) network n → ⊥)) }
    ensures cause { (db : Database) (pending : List Written) → Stands S.Store conn.old db pending → IfErr result (HasCause (state S.Store conn.old) (state S.Store conn.new)) }
{
    let rows = peer_rows(conn, network)?;
    let addresses = address_rows(conn, network)?;
    if_stored(peers_of(alloc, rows.as_slice(), addresses.as_slice(), network))
}

// The network's routes, if its rows form them.
fn routes_if_stored<S: Alter>(
    alloc: Global,
    conn: &mut Connection<S>,
    network: u32,
) -> Result<Option<Vec<(Prefix, u32)>>, Fault>
    requires idle { conn.old.in_transaction ≡ false }
    ensures reads { OnlyReads S.Store conn.old conn.new }
    ensures rows { (db : Database) (pending : List Written) → Stands S.Store conn.old db pending → HasCleanDisk (state S.Store conn.new)
        → IfOk result (λ found. IfSome found (λ routes. IsPermutation (filter (λ a. a.is_route && nat_eq a.network network) (tables_of db).allowed) (map (route_row network) routes.items))) }
    ensures none { (db : Database) (pending : List Written) → Stands S.Store conn.old db pending → HasCleanDisk (state S.Store conn.new)
        → IfOk result (λ found. IfNone found ((n : NetworkValue) → IsStored (tables_of db) network n → ⊥)) }
    ensures cause { (db : Database) (pending : List Written) → Stands S.Store conn.old db pending → IfErr result (HasCause (state S.Store conn.old) (state S.Store conn.new)) }
{
    let rows = route_rows(conn, network)?;
    if_stored(routes_of(alloc, rows.as_slice(), network))
}

/// The network of this id, or `None` exactly if no row has the id or the rows form no network that
/// keeps the rules.
pub fn network_if_stored<S: Alter>(
    alloc: Global,
    conn: &mut Connection<S>,
    network: u32,
) -> Result<Option<Network>, Fault>
    requires idle { conn.old.in_transaction ≡ false }
    ensures reads { OnlyReads S.Store conn.old conn.new }
    ensures some { (db : Database) (pending : List Written) → Stands S.Store conn.old db pending → HasCleanDisk (state S.Store conn.new)
        → IfOk result (λ found. IfSome found (λ n. IsStored (tables_of db) network n)) }
    ensures none { (db : Database) (pending : List Written) → Stands S.Store conn.old db pending → HasCleanDisk (state S.Store conn.new)
        → IfOk result (λ found. IfNone found ((n : NetworkValue) → IsStored (tables_of db) network n → ⊥)) }
    ensures cause { (db : Database) (pending : List Written) → Stands S.Store conn.old db pending → IsDistinct nat_eq (map (λ w. w.id) (tables_of db).networks) → IfErr result (HasCause (state S.Store conn.old) (state S.Store conn.new)) }
{
    let Some(row) = network_row(conn, network)? else {
        return Ok(None);
    };
    let Some(peers) = peers_if_stored(alloc, conn, network)? else {
        return Ok(None);
    };
    let Some(routes) = routes_if_stored(alloc, conn, network)? else {
        return Ok(None);
    };
    let Some(made) = if_stored(make_network(alloc, &row, peers, routes))? else {
        return Ok(None);
    };
    made.forms_hold();
    Ok(Some(made))
}
