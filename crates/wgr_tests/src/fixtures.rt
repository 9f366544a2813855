//! Keys, addresses, pools and networks, from the words of a table.
use std::alloc::AllocGlobal;
use std::process::Abort;
use wgr_core::{Capacity, Host, Label, LeaseEnd, Network, Parts, Peer, Pool, Port};
use wgr_text::{Addr, Family, Key, Prefix, read_loose};

/// The key that repeats this byte.
pub(crate) fn key(byte: u8) -> Key {
    Key([byte; 32])
}

pub(crate) fn number(rt: &(impl Abort + AllocGlobal), text: &str) -> u64 {
    text.parse::<u64>().expect(rt, "a number")
}

pub(crate) fn byte(rt: &(impl Abort + AllocGlobal), text: &str) -> u8 {
    u8::try_from(number(rt, text)).expect(rt, "a byte")
}

pub(crate) fn peer_number(rt: &(impl Abort + AllocGlobal), text: &str) -> u32 {
    u32::try_from(number(rt, text)).expect(rt, "a peer's number")
}

pub(crate) fn address(rt: &(impl Abort + AllocGlobal), text: &str) -> Addr {
    Addr::read(text.as_bytes()).expect(rt, "an address")
}

/// The prefix of the text, whose address may be any of it.
pub(crate) fn prefix(rt: &(impl Abort + AllocGlobal), text: &str) -> Prefix {
    let (address, length) = read_loose(text.as_bytes()).expect(rt, "a prefix");
    Prefix::masked(address, length).expect(rt, "a mask")
}

pub(crate) fn pool(rt: &(impl Abort + AllocGlobal), text: &str) -> Pool {
    let (address, length) = read_loose(text.as_bytes()).expect(rt, "a prefix");
    Pool::new(address, length).expect(rt, "a pool")
}

pub(crate) fn host(rt: &(impl Abort + AllocGlobal), text: &str) -> Host {
    Host::read(rt.alloc(), text.as_bytes())
        .expect(rt, "memory")
        .expect(rt, "a host")
}

pub(crate) fn port(rt: &(impl Abort + AllocGlobal), number: u16) -> Port {
    Port::new(number).expect(rt, "a port")
}

pub(crate) fn capacity(rt: &(impl Abort + AllocGlobal), peers: u16) -> Capacity {
    Capacity::new(peers).expect(rt, "a capacity")
}

pub(crate) fn end(rt: &(impl Abort + AllocGlobal), seconds: u64) -> LeaseEnd {
    LeaseEnd::new(seconds).expect(rt, "the end of a lease")
}

/// A peer with the key of this byte, without a label, a lease and a status.
pub(crate) fn peer(rt: &(impl Abort + AllocGlobal), number: u32, byte: u8, text: &str) -> Peer {
    Peer {
        number,
        key: key(byte),
        label: Label::empty(rt.alloc()),
        address: address(rt, text),
        second: None,
        until: LeaseEnd::never(),
        keepalive: 0,
        status: None,
    }
}

/// The parts of a network without peers, with room for 4,096; its server has the key of nines.
pub(crate) fn empty(rt: &(impl Abort + AllocGlobal), pool_text: &str) -> Parts {
    Parts {
        pool: pool(rt, pool_text),
        host: host(rt, "vpn.example.net"),
        port: port(rt, 51820),
        server: key(9),
        capacity: capacity(rt, 4096),
        next: 1,
        peers: Vec::new(rt.alloc()),
        routes: Vec::new(rt.alloc()),
    }
}

/// A network without peers, of the same fields.
pub(crate) fn new_network(rt: &(impl Abort + AllocGlobal), pool_text: &str) -> Network {
    Network::new(
        rt.alloc(),
        pool(rt, pool_text),
        host(rt, "vpn.example.net"),
        port(rt, 51820),
        key(9),
        capacity(rt, 4096),
    )
}

pub(crate) fn add_peer(rt: &(impl Abort + AllocGlobal), parts: &mut Parts, peer: Peer) {
    parts.peers.push(peer).expect(rt, "memory");
}

pub(crate) fn add_route(
    rt: &(impl Abort + AllocGlobal),
    parts: &mut Parts,
    route: Prefix,
    number: u32,
) {
    parts.routes.push((route, number)).expect(rt, "memory");
}

/// Adds the next peer, whose key is of its number and whose lease ends at this second.
pub(crate) fn join(
    rt: &(impl Abort + AllocGlobal),
    parts: &mut Parts,
    text: &str,
    until: u64,
    keepalive: u16,
) {
    let number = parts.next;
    let mut peer = peer(rt, number, number.to_le_bytes()[0], text);
    peer.until = end(rt, until);
    peer.keepalive = keepalive;
    add_peer(rt, parts, peer);
    parts.next = number.saturating_add(1);
}

/// The network of these parts.
pub(crate) fn network(rt: &(impl Abort + AllocGlobal), parts: Parts) -> Network {
    Network::of(rt.alloc(), parts)
        .expect(rt, "memory")
        .expect(rt, "parts of a network")
}

/// The parts of a network that has three peers and as many routes as it may: the last of them leads
/// to the peer 3, which is expired at 100, and the others to the peer 1.
pub(crate) fn full_of_routes(rt: &(impl Abort + AllocGlobal)) -> Parts {
    let mut parts = empty(rt, "10.8.0.0/24");
    parts.capacity = capacity(rt, 8);
    for (text, until) in [("10.8.0.2", 0), ("10.8.0.3", 0), ("10.8.0.4", 100)] {
        join(rt, &mut parts, text, until, 0);
    }
    for count in 0..4096u32 {
        let owner = if count == 4095 { 3 } else { 1 };
        add_route(
            rt,
            &mut parts,
            Prefix::full(address_after(rt, 0x0a40_0000, count)),
            owner,
        );
    }
    parts
}

/// The IPv4 address that is this many places after the first.
pub(crate) fn address_after(rt: &(impl Abort + AllocGlobal), first: u32, count: u32) -> Addr {
    Addr::new(Family::V4, u128::from(first) + u128::from(count)).expect(rt, "an address")
}

// The peer at this place of a crowd; its key has the place.
fn peer_at(rt: &(impl Abort + AllocGlobal), place: u16) -> Peer {
    let [high, low] = place.to_be_bytes();
    let mut peer = peer(rt, u32::from(place) + 1, 7, "10.100.100.100");
    peer.key.0[0] = high;
    peer.key.0[1] = low;
    peer.address = address_after(
        rt,
        0x0a64_6464,
        u32::from(place / 100) * 256 + u32::from(place % 100),
    );
    peer
}

/// The parts of a network of this many peers, each of whose addresses has 14 characters:
/// 10.100.100.100 and so on.
pub(crate) fn crowd(rt: &(impl Abort + AllocGlobal), peers: u16) -> Parts {
    let mut parts = empty(rt, "10.100.0.0/16");
    for place in 0..peers {
        add_peer(rt, &mut parts, peer_at(rt, place));
    }
    parts.next = u32::from(peers) + 1;
    parts
}
