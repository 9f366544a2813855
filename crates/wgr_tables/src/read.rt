//! Peers and routes of a network, read from their rows.
ghost use Rattle.std.specs.Prelude.{◌≡◌, ℕ, List, Option, None, IfErr, IfOk, IfSome, IfNone, map, false};
ghost use Rattle.std.specs.List.{AllByRecursion};
ghost use Rattle.wgr_text.specs.Prefix.{AddrValue, PrefixValue, IsAddr};
ghost use Rattle.wgr_pool.specs.PrefixTests.{full};
ghost use Rattle.wgr_peers.specs.Routes.{Routes};
ghost use Rattle.wgr_peers.specs.declared.peer.Peer.{Peer};
ghost use Rattle.wgr_peers.specs.declared.peer.Status.{Status};
ghost use Rattle.wgr_core.specs.Forms.{IsStatus};
ghost use Rattle.wgr_core.specs.Network.{AreAlone};
ghost use Rattle.wgr_model.specs.Rows.{allowed_row, peer_row, address_row, route_row};
ghost use Rattle.wgr_sql.specs.Faults.{IsStore};
ghost use Rattle.wgr_columns.specs.Decode.{status_at, peer_in, allowed_in};
ghost use Rattle.wgr_columns.specs.Stored.{HasStatus, IsKeptPeer, IsKeptRoute, stored_allowed, stored_peer};

use sqlite::Row;
use std::alloc::Global;
use wgr_columns::{
    address_at, address_number_at, allowed, count_at, end_at, has_number, is_null_at, is_route_at,
    key_at, label_at, peer, peer_number_at, prefix_in, short_at,
};
use wgr_peers::{Peer, Status};
use wgr_sql::Fault;
use wgr_text::{Addr, Prefix};

// The status of a peer that a running interface last reported, if it reported one.
fn status_of(row: &Row) -> Option<Option<Status>>
    ensures value { IfSome result (λ status. status ≡ status_at row.now) }
    ensures only { IfNone result ((status : Option Status) → IfSome status IsStatus → HasStatus row.now status → ⊥) }
{
    if is_null_at(row, peer::HANDSHAKE) {
        return Some(None);
    }
    Some(Some(Status {
        handshake: count_at(row, peer::HANDSHAKE)?,
        received: count_at(row, peer::RECEIVED)?,
        sent: count_at(row, peer::SENT)?,
    }))
}

// The address of the network's peer of this number, whose row of `allowed` this is.
fn address_of(row: &Row, network: u32, number: u32) -> Option<Addr>
    ensures value { IfSome result (λ address. allowed_row network false (full address) number ≡ allowed_in row.now) }
    ensures only { IfNone result ((a : AddrValue) → IsAddr a → row.now ≡ stored_allowed (allowed_row network false (full a) number) → ⊥) }
{
    let address = address_at(row, allowed::FAMILY, allowed::LO)?;
    let width = u64::from(address.family().width());
    if !has_number(row, allowed::NETWORK, u64::from(network))
        || !has_number(row, allowed::LENGTH, width)
    {
        return None;
    }
    if address_number_at(row, allowed::HI)? != address.number() {
        return None;
    }
    if peer_number_at(row, allowed::PEER, network)? != number || is_route_at(row, allowed::KIND)? {
        return None;
    }
    Some(address)
}

// The network's peer whose rows of `peer` and of `allowed` these are.
fn peer_of(alloc: Global, row: &Row, address: &Row, network: u32) -> Result<Peer, Fault>
    ensures row { IfOk result (λ p. peer_row network p ≡ peer_in row.now) }
    ensures address { IfOk result (λ p. address_row network p ≡ allowed_in address.now) }
    ensures alone { IfOk result (λ p. p.second ≡ None) }
    ensures only { IfErr result (λ e. IsStore e → (p : Peer) → IsKeptPeer p → row.now ≡ stored_peer (peer_row network p) → address.now ≡ stored_allowed (address_row network p) → ⊥) }
{
    if !has_number(row, peer::NETWORK, u64::from(network)) {
        return Err(Fault::DAMAGED);
    }
    let number = peer_number_at(row, peer::ID, network).ok_or(Fault::DAMAGED)?;
    let key = key_at(row, peer::KEY).ok_or(Fault::DAMAGED)?;
    let label = label_at(alloc, row, peer::LABEL)?.ok_or(Fault::DAMAGED)?;
    let until = end_at(row, peer::UNTIL).ok_or(Fault::DAMAGED)?;
    let keepalive = short_at(row, peer::KEEPALIVE).ok_or(Fault::DAMAGED)?;
    let status = status_of(row).ok_or(Fault::DAMAGED)?;
    let address = address_of(address, network, number).ok_or(Fault::DAMAGED)?;
    Ok(Peer {
        number,
        key,
        label,
        address,
        second: None,
        until,
        keepalive,
        status,
    })
}

/// The peers of a network, from their rows and those of their addresses, both in the order of ids.
pub(crate) fn peers_of(
    alloc: Global,
    rows: &[Row],
    addresses: &[Row],
    network: u32,
) -> Result<Vec<Peer>, Fault>
    ensures rows { IfOk result (λ peers. map (peer_row network) peers.items ≡ map peer_in rows.now) }
    ensures addresses { IfOk result (λ peers. map (address_row network) peers.items ≡ map allowed_in addresses.now) }
    ensures alone { IfOk result (λ peers. AreAlone peers.items) }
    ensures only { IfErr result (λ e. IsStore e → (peers : List Peer) → AllByRecursion IsKeptPeer peers
        → rows.now ≡ map stored_peer (map (peer_row network) peers) → addresses.now ≡ map stored_allowed (map (address_row network) peers) → ⊥) }
{
    if rows.len() != addresses.len() {
        return Err(Fault::DAMAGED);
    }
    let mut peers = Vec::new(alloc);
    for at in 0..rows.len() {
        let peer = peer_of(alloc, &rows[at], &addresses[at], network)?;
        if peers.push(peer).is_err() {
            return Err(Fault::NoMemory);
        }
    }
    Ok(peers)
}

// The route of the network whose row this is.
fn route_of(row: &Row, network: u32) -> Option<(Prefix, u32)>
    ensures value { IfSome result (λ r. route_row network r ≡ allowed_in row.now) }
    ensures only { IfNone result ((r : PrefixValue × ℕ) → IsKeptRoute r → row.now ≡ stored_allowed (route_row network r) → ⊥) }
{
    let prefix = prefix_in(row)?;
    if !has_number(row, allowed::NETWORK, u64::from(network)) || !is_route_at(row, allowed::KIND)? {
        return None;
    }
    if address_number_at(row, allowed::HI)? != prefix.span().hi.number() {
        return None;
    }
    Some((prefix, peer_number_at(row, allowed::PEER, network)?))
}

/// The routes of a network, from their rows.
pub(crate) fn routes_of(
    alloc: Global,
    rows: &[Row],
    network: u32,
) -> Result<Vec<(Prefix, u32)>, Fault>
    ensures value { IfOk result (λ routes. map (route_row network) routes.items ≡ map allowed_in rows.now) }
    ensures only { IfErr result (λ e. IsStore e → (routes : Routes) → AllByRecursion IsKeptRoute routes → rows.now ≡ map stored_allowed (map (route_row network) routes) → ⊥) }
{
    let mut routes = Vec::new(alloc);
    for row in rows {
        let Some(route) = route_of(row, network) else {
            return Err(Fault::DAMAGED);
        };
        if routes.push(route).is_err() {
            return Err(Fault::NoMemory);
        }
    }
    Ok(routes)
}
