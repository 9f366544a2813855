//! The file of one peer.
ghost use Rattle.std.specs.Prelude.{◌≡◌, ◌++◌, ℕ, List, IfOk, OnOk, is_some, map, nat_eq, not, ◌&&◌, option_map};
ghost use Rattle.std.specs.List.{filter};
ghost use Rattle.std.specs.Option.{option_copied};
ghost use Rattle.wgr_pool.specs.PrefixTests.{covers};
ghost use Rattle.wgr_peers.specs.Peers.{peer_of};
ghost use Rattle.wgr_core.specs.Network.{live_at};
ghost use Rattle.wgr_conf.specs.Files.{endpoint_line, peer_config, peer_config_text, routes_beside};

use crate::lines::{write_address, write_allowed, write_keepalive, write_line, write_section_head};
use std::alloc::{AllocError, Global};
use wgr_core::{Form, Host, Network, Peer, Port};
use wgr_pool::covers;
use wgr_text::Prefix;

/// The file of the live peer with this number at this moment: its interface, and the server as its
/// one peer, through which it reaches the pool and the routes of the others. It is `None` if no live
/// peer has the number. The form [`Form::Wg`] is what `wg setconf` reads (wg(8)),
/// [`Form::Quick`] what `wg-quick up` reads (wg-quick(8)), which also has the peer's address.
pub fn peer_file(
    alloc: Global,
    network: &Network,
    now: u64,
    number: u32,
    form: Form,
) -> Result<Option<Vec<u8>>, AllocError>
    ensures { IfOk result (λ file. option_map (λ f. f.items) file ≡ peer_config network.now now number form) }
{
    match live_peer(network, now, number) {
        Some(peer) => Ok(Some(text_of(alloc, network, now, peer, form)?)),
        None => Ok(None),
    }
}

// The file of a live peer.
fn text_of(
    alloc: Global,
    network: &Network,
    now: u64,
    peer: &Peer,
    form: Form,
) -> Result<Vec<u8>, AllocError>
    ensures { IfOk result (λ file. file.items ≡ peer_config_text (live_at network.now now) form peer.now) }
{
    let mut out = Vec::new(alloc);
    write_line(b"[Interface]", &mut out)?;
    let own = Prefix::full(peer.address);
    write_address(form, &peer.address, own.length(), &mut out)?;
    write_section_head(&network.server_key(), &mut out)?;
    let routes = routes_beside(alloc, network, now, peer.number)?;
    write_allowed(&network.pool().prefix(), &routes, &mut out)?;
    write_endpoint(network.host(), network.port(), &mut out)?;
    write_keepalive(peer.keepalive, &mut out)?;
    Ok(out)
}

// The live peer with this number.
fn live_peer(network: &Network, now: u64, number: u32) -> Option<&Peer>
    ensures { option_copied result ≡ peer_of (live_at network.now now).peers number }
{
    // The peers are in the order of their numbers.
    network.rules_hold();
    match network.peer(number) {
        Some(peer) if peer.is_live(now) => Some(peer),
        _ => None,
    }
}

// The routes to other live peers that don't lie wholly in the pool.
fn routes_beside(
    alloc: Global,
    network: &Network,
    now: u64,
    number: u32,
) -> Result<Vec<Prefix>, AllocError>
    ensures { IfOk result (λ routes. routes.items ≡ routes_beside (live_at network.now now) number) }
{
    let pool = network.pool().prefix();
    let mut beside = Vec::new(alloc);
    for route in network.routes() {
        if is_live_route(network, now, route) && is_beside(&pool, number, route) {
            beside.push(route.0)?;
        }
    }
    Ok(beside)
}

// Whether the route leads to a live peer.
fn is_live_route(network: &Network, now: u64, route: &(Prefix, u32)) -> bool
    ensures { result ≡ is_some (peer_of (live_at network.now now).peers route.now.1) }
{
    live_peer(network, now, route.1).is_some()
}

// Whether the route leads to another peer, and doesn't lie wholly in the pool.
fn is_beside(pool: &Prefix, number: u32, route: &(Prefix, u32)) -> bool
    ensures { result ≡ (not (nat_eq route.now.1 number) && not (covers pool.now route.now.0)) }
{
    route.1 != number && !covers(pool, &route.0)
}

// Appends the endpoint.
#[tactic(auto, unfolding(crate::specs::Files::endpoint_line, crate::specs::Files::line))]
fn write_endpoint(host: &Host, port: Port, out: &mut Vec<u8>) -> Result<(), AllocError>
    ensures { OnOk result (out.new.items ≡ out.old.items ++ endpoint_line host.now port) }
{
    let endpoint = host.endpoint(*out.allocator(), port)?;
    out.extend_from_slice(b"Endpoint = ")?;
    out.extend_from_slice(endpoint.as_bytes())?;
    out.extend_from_slice(b"\n")
}
