//! A network, loaded from its rows.
ghost use Rattle.std.specs.Prelude.{◌≡◌, ℕ, List, [], ◌∷◌, IfErr, OnErr, IfOk, IfSome, IfNone, IsPermutation, map, not, ◌&&◌, nat_eq, false};
ghost use Rattle.std.specs.List.{IsDistinct, filter};
ghost use Rattle.sqlite.specs.Effect.{Database};
ghost use Rattle.sqlite.specs.State.{HasCleanDisk};
ghost use Rattle.sqlite.specs.Held.{state};
ghost use Rattle.wgr_core.specs.Network.{IsNetwork, NetworkValue};
ghost use Rattle.wgr_core.specs.Parts.{network_of};
ghost use Rattle.wgr_model.specs.Laws.{Has};
ghost use Rattle.wgr_model.specs.Rows.{AreKeyed, NetworkRow, address_row, network_entry_of, peer_row, route_row};
ghost use Rattle.wgr_sql.specs.Causes.{HasCause};
ghost use Rattle.wgr_sql.specs.Faults.{IsStore};
ghost use Rattle.wgr_columns.specs.Decode.{tables_of, allowed_in, network_in, peer_in};
ghost use Rattle.wgr_columns.specs.Stored.{AreRising, AreSettings, AreStored, stored_allowed, stored_network, stored_peer};
ghost use Rattle.wgr_tables.specs.Stored.{IsStored};
ghost use Rattle.wgr_tables.specs.Loads.{IsMade, ShowAddresses, ShowNetwork, ShowPeers, ShowRoutes, network_with};
ghost use Rattle.wgr_tables.specs.Writes.{Written};
ghost use Rattle.wgr_tables.specs.Standing.{OnlyReads, Stands};

use crate::read::{peers_of, routes_of};
use sqlite::{Alter, Connection, Row};
use std::alloc::Global;
use wgr_columns::{
    NetworkSettings, allowed, magnitude_at, number_value, read_settings, select_networks,
};
use wgr_core::{Network, Parts};
use wgr_peers::Peer;
use wgr_sql::{Fault, only, query};
use wgr_text::Prefix;

/// The rows of the network's peers, in the order of their ids.
pub(crate) fn peer_rows<S: Alter>(conn: &mut Connection<S>, network: u32) -> Result<Vec<Row>, Fault>
    requires idle { conn.old.in_transaction ≡ false }
    ensures reads { OnlyReads S.Store conn.old conn.new }
    ensures listed { (db : Database) (pending : List Written) → Stands S.Store conn.old db pending → HasCleanDisk (state S.Store conn.new)
        → IfOk result (λ rows. ShowPeers network (tables_of db) rows.items) }
    ensures stored { (db : Database) (pending : List Written) → Stands S.Store conn.old db pending → HasCleanDisk (state S.Store conn.new)
        → IfOk result (λ rows. AreStored stored_peer peer_in rows.items) }
    ensures rising { (db : Database) (pending : List Written) → Stands S.Store conn.old db pending → HasCleanDisk (state S.Store conn.new)
        → IfOk result (λ rows. AreRising (λ p. p.id) peer_in rows.items) }
    ensures cause { (db : Database) (pending : List Written) → Stands S.Store conn.old db pending → IfErr result (HasCause (state S.Store conn.old) (state S.Store conn.new)) }
{
    query(
        conn,
        "SELECT id, NULL, network, key, label, until, keepalive, handshake, received, sent FROM peer WHERE network = ?1 ORDER BY id",
        &[number_value(network)],
    )
}

// The rows of their addresses, in the order of an index, so that the database needs no sort.
fn unsorted_addresses<S: Alter>(conn: &mut Connection<S>, network: u32) -> Result<Vec<Row>, Fault>
    requires idle { conn.old.in_transaction ≡ false }
    ensures reads { OnlyReads S.Store conn.old conn.new }
    ensures listed { (db : Database) (pending : List Written) → Stands S.Store conn.old db pending → HasCleanDisk (state S.Store conn.new)
        → IfOk result (λ rows. ShowAddresses network (tables_of db) rows.items) }
    ensures stored { (db : Database) (pending : List Written) → Stands S.Store conn.old db pending → HasCleanDisk (state S.Store conn.new)
        → IfOk result (λ rows. AreStored stored_allowed allowed_in rows.items) }
    ensures cause { (db : Database) (pending : List Written) → Stands S.Store conn.old db pending → IfErr result (HasCause (state S.Store conn.old) (state S.Store conn.new)) }
{
    query(
        conn,
        "SELECT NULL, network, family, lo, length, hi, peer, kind FROM allowed WHERE network = ?1 AND kind <> 'route'",
        &[number_value(network)],
    )
}

// Sorts rows of addresses in the order of their peers, to be read together with the rows of peers.
// Std's sort allocates no memory, and only walks over rows that are in order already.
fn sort_by_peer(rows: &mut Vec<Row>)
    ensures same { IsPermutation rows.old.items rows.new.items }
    ensures sorted { AreRising (λ a. a.peer) allowed_in rows.new.items }
{
    rows.sort_unstable_by_key(|row| magnitude_at(row, allowed::PEER));
}

/// The rows of their addresses, in the order of the peers.
pub(crate) fn address_rows<S: Alter>(
    conn: &mut Connection<S>,
    network: u32,
) -> Result<Vec<Row>, Fault>
    requires idle { conn.old.in_transaction ≡ false }
    ensures reads { OnlyReads S.Store conn.old conn.new }
    ensures listed { (db : Database) (pending : List Written) → Stands S.Store conn.old db pending → HasCleanDisk (state S.Store conn.new)
        → IfOk result (λ rows. ShowAddresses network (tables_of db) rows.items) }
    ensures stored { (db : Database) (pending : List Written) → Stands S.Store conn.old db pending → HasCleanDisk (state S.Store conn.new)
        → IfOk result (λ rows. AreStored stored_allowed allowed_in rows.items) }
    ensures rising { (db : Database) (pending : List Written) → Stands S.Store conn.old db pending → HasCleanDisk (state S.Store conn.new)
        → IfOk result (λ rows. AreRising (λ a. a.peer) allowed_in rows.items) }
    ensures cause { (db : Database) (pending : List Written) → Stands S.Store conn.old db pending → IfErr result (HasCause (state S.Store conn.old) (state S.Store conn.new)) }
{
    let mut rows = unsorted_addresses(conn, network)?;
    sort_by_peer(&mut rows);
    Ok(rows)
}

/// The rows of the network's routes, in the order of their prefixes.
pub(crate) fn route_rows<S: Alter>(
    conn: &mut Connection<S>,
    network: u32,
) -> Result<Vec<Row>, Fault>
    requires idle { conn.old.in_transaction ≡ false }
    ensures reads { OnlyReads S.Store conn.old conn.new }
    ensures listed { (db : Database) (pending : List Written) → Stands S.Store conn.old db pending → HasCleanDisk (state S.Store conn.new)
        → IfOk result (λ rows. ShowRoutes network (tables_of db) rows.items) }
    ensures stored { (db : Database) (pending : List Written) → Stands S.Store conn.old db pending → HasCleanDisk (state S.Store conn.new)
        → IfOk result (λ rows. AreStored stored_allowed allowed_in rows.items) }
    ensures cause { (db : Database) (pending : List Written) → Stands S.Store conn.old db pending → IfErr result (HasCause (state S.Store conn.old) (state S.Store conn.new)) }
{
    query(
        conn,
        "SELECT NULL, network, family, lo, length, hi, peer, kind FROM allowed WHERE network = ?1 AND kind = 'route' ORDER BY family, lo, length",
        &[number_value(network)],
    )
}

// The row of the network of this id, if there is one.
fn network_rows<S: Alter>(conn: &mut Connection<S>, network: u32) -> Result<Vec<Row>, Fault>
    requires idle { conn.old.in_transaction ≡ false }
    ensures reads { OnlyReads S.Store conn.old conn.new }
    ensures listed { (db : Database) (pending : List Written) → Stands S.Store conn.old db pending → HasCleanDisk (state S.Store conn.new)
        → IfOk result (λ rows. ShowNetwork network (tables_of db) rows.items) }
    ensures stored { (db : Database) (pending : List Written) → Stands S.Store conn.old db pending → HasCleanDisk (state S.Store conn.new)
        → IfOk result (λ rows. AreStored stored_network network_in rows.items) }
    ensures cause { (db : Database) (pending : List Written) → Stands S.Store conn.old db pending → IfErr result (HasCause (state S.Store conn.old) (state S.Store conn.new)) }
{
    query(
        conn,
        select_networks!(" WHERE id = ?1"),
        &[number_value(network)],
    )
}

// The network's peers.
fn load_peers<S: Alter>(
    alloc: Global,
    conn: &mut Connection<S>,
    network: u32,
) -> Result<Vec<Peer>, Fault>
    requires idle { conn.old.in_transaction ≡ false }
    ensures reads { OnlyReads S.Store conn.old conn.new }
    ensures rows { (db : Database) (pending : List Written) → Stands S.Store conn.old db pending → HasCleanDisk (state S.Store conn.new)
        → IfOk result (λ peers. IsPermutation (filter (λ p. nat_eq p.network network) (tables_of db).peers) (map (peer_row network) peers.items)) }
    ensures addresses { (db : Database) (pending : List Written) → Stands S.Store conn.old db pending → HasCleanDisk (state S.Store conn.new)
        → IfOk result (λ peers. IsPermutation (filter (λ a. nat_eq a.network network && not a.is_route) (tables_of db).allowed) (map (address_row network) peers.items)) }
    ensures own { (db : Database) (pending : List Written) (n : NetworkValue) → Stands S.Store conn.old db pending → IsStored (tables_of db) network n → HasCleanDisk (state S.Store conn.new) → IfOk result (λ peers. peers.items ≡ n.peers) }
    ensures cause { (db : Database) (pending : List Written) (n : NetworkValue) → Stands S.Store conn.old db pending → IsStored (tables_of db) network n → IfErr result (HasCause (state S.Store conn.old) (state S.Store conn.new)) }
{
    let rows = peer_rows(conn, network)?;
    let addresses = address_rows(conn, network)?;
    peers_of(alloc, rows.as_slice(), addresses.as_slice(), network)
}

// The network's routes.
fn load_routes<S: Alter>(
    alloc: Global,
    conn: &mut Connection<S>,
    network: u32,
) -> Result<Vec<(Prefix, u32)>, Fault>
    requires idle { conn.old.in_transaction ≡ false }
    ensures reads { OnlyReads S.Store conn.old conn.new }
    ensures rows { (db : Database) (pending : List Written) → Stands S.Store conn.old db pending → HasCleanDisk (state S.Store conn.new)
        → IfOk result (λ routes. IsPermutation (filter (λ a. a.is_route && nat_eq a.network network) (tables_of db).allowed) (map (route_row network) routes.items)) }
    ensures cause { (db : Database) (pending : List Written) (n : NetworkValue) → Stands S.Store conn.old db pending → IsStored (tables_of db) network n → IfErr result (HasCause (state S.Store conn.old) (state S.Store conn.new)) }
{
    let rows = route_rows(conn, network)?;
    routes_of(alloc, rows.as_slice(), network)
}

// The parts of the network whose row this is, with these peers and routes.
fn parts_of(
    alloc: Global,
    row: &Row,
    peers: Vec<Peer>,
    routes: Vec<(Prefix, u32)>,
) -> Result<Parts, Fault>
    ensures value { IfOk result (λ parts. network_of parts ≡ network_with (network_in row.now) peers.items routes.items) }
    ensures only { IfErr result (λ e. IsStore e → (w : NetworkRow) → AreSettings w → row.now ≡ stored_network w → ⊥) }
{
    let NetworkSettings {
        pool,
        host,
        port,
        server,
        capacity,
        next,
    } = read_settings(alloc, row)?;
    Ok(Parts {
        pool,
        host,
        port,
        server,
        capacity,
        next,
        peers,
        routes,
    })
}

/// The network of a row, with these peers and routes, which may come in any order.
pub(crate) fn make_network(
    alloc: Global,
    row: &Row,
    peers: Vec<Peer>,
    routes: Vec<(Prefix, u32)>,
) -> Result<Network, Fault>
    ensures made { IfOk result (λ n. IsMade (network_in row.now) peers.items routes.items n) }
    ensures only { IfErr result (λ e. IsStore e → (n : NetworkValue) → IsMade (network_in row.now) peers.items routes.items n → AreSettings (network_in row.now) → row.now ≡ stored_network (network_in row.now) → ⊥) }
{
    let parts = parts_of(alloc, row, peers, routes)?;
    match Network::of(alloc, parts) {
        Ok(Some(network)) => {
            network.rules_hold();
            Ok(network)
        }
        Ok(None) => Err(Fault::DAMAGED),
        Err(_) => Err(Fault::NoMemory),
    }
}

// The network whose row this is.
fn load_row<S: Alter>(
    alloc: Global,
    conn: &mut Connection<S>,
    row: &Row,
    network: u32,
) -> Result<Network, Fault>
    requires idle { conn.old.in_transaction ≡ false }
    ensures reads { OnlyReads S.Store conn.old conn.new }
    ensures read { (db : Database) (pending : List Written) → Stands S.Store conn.old db pending → AreKeyed (tables_of db) → HasCleanDisk (state S.Store conn.new) → (network_in row.now).id ≡ network
        → IfOk result (λ n. n ≡ (network_entry_of (tables_of db) (network_in row.now)).network) }
    ensures cause { (db : Database) (pending : List Written) (n : NetworkValue) → Stands S.Store conn.old db pending → (stored : IsStored (tables_of db) network n) → (HasCleanDisk (state S.Store conn.new) → (network_in row.now ≡ stored.row) × (row.now ≡ stored_network (network_in row.now))) → IfErr result (HasCause (state S.Store conn.old) (state S.Store conn.new)) }
{
    let peers = load_peers(alloc, conn, network)?;
    let routes = load_routes(alloc, conn, network)?;
    make_network(alloc, row, peers, routes)
}

/// The row of the network of this id.
pub fn network_row<S: Alter>(conn: &mut Connection<S>, network: u32) -> Result<Option<Row>, Fault>
    requires idle { conn.old.in_transaction ≡ false }
    ensures reads { OnlyReads S.Store conn.old conn.new }
    ensures some { (db : Database) (pending : List Written) → Stands S.Store conn.old db pending → HasCleanDisk (state S.Store conn.new)
        → IfOk result (λ found. IfSome found (λ row. Has (tables_of db).networks (network_in row) × ((network_in row).id ≡ network))) }
    ensures stored { (db : Database) (pending : List Written) → Stands S.Store conn.old db pending → HasCleanDisk (state S.Store conn.new)
        → IfOk result (λ found. IfSome found (λ row. row ≡ stored_network (network_in row))) }
    ensures once { (db : Database) (pending : List Written) → Stands S.Store conn.old db pending → HasCleanDisk (state S.Store conn.new)
        → IfOk result (λ found. IfSome found (λ row. (w : NetworkRow) → Has (tables_of db).networks w → w.id ≡ network → network_in row ≡ w)) }
    ensures none { (db : Database) (pending : List Written) → Stands S.Store conn.old db pending → HasCleanDisk (state S.Store conn.new)
        → IfOk result (λ found. IfNone found ((w : NetworkRow) → Has (tables_of db).networks w → nat_eq w.id network ≡ false)) }
    ensures cause { (db : Database) (pending : List Written) → Stands S.Store conn.old db pending → IsDistinct nat_eq (map (λ w. w.id) (tables_of db).networks) → IfErr result (HasCause (state S.Store conn.old) (state S.Store conn.new)) }
{
    let rows = network_rows(conn, network)?;
    only(rows)
}

/// The network whose row has this id, or `None` where no row has it. A row that is not a network's,
/// or rows that form no network, are a fault of the store.
pub fn load_network<S: Alter>(
    alloc: Global,
    conn: &mut Connection<S>,
    network: u32,
) -> Result<Option<Network>, Fault>
    requires idle { conn.old.in_transaction ≡ false }
    ensures reads { OnlyReads S.Store conn.old conn.new }
    ensures some { (db : Database) (pending : List Written) → Stands S.Store conn.old db pending → AreKeyed (tables_of db) → HasCleanDisk (state S.Store conn.new)
        → IfOk result (λ found. IfSome found (λ n. (w : NetworkRow) × Has (tables_of db).networks w × (w.id ≡ network) × (n ≡ (network_entry_of (tables_of db) w).network))) }
    ensures none { (db : Database) (pending : List Written) → Stands S.Store conn.old db pending → HasCleanDisk (state S.Store conn.new)
        → IfOk result (λ found. IfNone found ((w : NetworkRow) → Has (tables_of db).networks w → nat_eq w.id network ≡ false)) }
    ensures cause { (db : Database) (pending : List Written) (n : NetworkValue) → Stands S.Store conn.old db pending → IsDistinct nat_eq (map (λ w. w.id) (tables_of db).networks) → IsStored (tables_of db) network n → IfErr result (HasCause (state S.Store conn.old) (state S.Store conn.new)) }
{
    let Some(row) = network_row(conn, network)? else {
        return Ok(None);
    };
    let loaded = load_row(alloc, conn, &row, network)?;
    Ok(Some(loaded))
}
