//! Parts from which a network is made, and parts that are refused.
use crate::fixtures::{add_peer, add_route, capacity, empty, network, peer, prefix};
use std::alloc::AllocGlobal;
use std::process::Abort;
use wgr_core::{Network, Parts, Peer};

// Parts with the peer 2, which has the key 2 and the address 10.8.0.2, and then this one.
fn two_peers(rt: &(impl Abort + AllocGlobal), second: Peer) -> Parts {
    let mut parts = empty(rt, "10.8.0.0/29");
    parts.next = 4;
    add_peer(rt, &mut parts, peer(rt, 2, 2, "10.8.0.2"));
    add_peer(rt, &mut parts, second);
    parts
}

// The parts of a network of the peers 2 and 3, with these two routes.
fn two_routes(rt: &(impl Abort + AllocGlobal), first: (&str, u32), second: (&str, u32)) -> Parts {
    let mut parts = two_peers(rt, peer(rt, 3, 3, "10.8.0.5"));
    parts.capacity = capacity(rt, 2);
    add_route(rt, &mut parts, prefix(rt, first.0), first.1);
    add_route(rt, &mut parts, prefix(rt, second.0), second.1);
    parts
}

fn is_network(rt: &(impl Abort + AllocGlobal), parts: Parts) -> bool {
    Network::of(rt.alloc(), parts)
        .expect(rt, "memory")
        .is_some()
}

#[test]
fn takes_limits(rt: HostRuntime) {
    // The capacity and the next number of a network of the peers 2 and 3.
    for (most, next, is_taken) in [
        (2, 4, true),
        (1, 4, false),
        (2, 3, false),
        (2, 0, false),
        (4096, 1_000_001, true),
        (4096, 1_000_002, false),
    ] {
        let mut parts = two_peers(&rt, peer(&rt, 3, 3, "10.8.0.5"));
        parts.capacity = capacity(&rt, most);
        parts.next = next;
        assert!(rt; is_network(&rt, parts) == is_taken, "{most} {next}");
    }
}

#[test]
fn takes_peers(rt: HostRuntime) {
    // The second peer's number, key and address.
    for (number, key, text, is_taken) in [
        (3, 3, "10.8.0.6", true),
        (2, 3, "10.8.0.6", false),
        (1, 3, "10.8.0.6", true),
        (4, 3, "10.8.0.6", false),
        (3, 2, "10.8.0.6", false),
        (3, 9, "10.8.0.6", false),
        (3, 3, "10.8.0.2", false),
        (3, 3, "10.8.0.1", false),
        (3, 3, "10.8.0.7", false),
        (3, 3, "fd00::6", false),
    ] {
        let parts = two_peers(&rt, peer(&rt, number, key, text));
        assert!(rt; is_network(&rt, parts) == is_taken, "{number} {key} {text}");
    }
}

#[test]
fn takes_routes(rt: HostRuntime) {
    for (first, second, is_taken) in [
        (("10.20.0.0/16", 3), ("fd00::/8", 2), true),
        (("fd00::/8", 2), ("10.20.0.0/16", 3), true),
        (("fd00::/8", 2), ("fd00::/8", 2), false),
        (("10.20.0.0/16", 1), ("fd00::/8", 2), false),
        (("10.8.0.5/32", 2), ("fd00::/8", 2), false),
        (("10.8.0.1/32", 2), ("fd00::/8", 2), false),
        (("10.8.0.6/32", 2), ("fd00::/8", 2), true),
        (("10.8.0.4/31", 2), ("fd00::/8", 2), true),
    ] {
        let parts = two_routes(&rt, first, second);
        assert!(rt;
            is_network(&rt, parts) == is_taken,
            "{} {}",
            first.0,
            second.0
        );
    }
}

fn has_parts(network: &Network) -> bool {
    network.host().as_str() == "vpn.example.net"
        && network.next() == 4
        && network.peers().len() == 2
        && network.routes().len() == 2
}

#[test]
fn keeps_parts(rt: HostRuntime) {
    let parts = two_routes(&rt, ("10.20.0.0/16", 3), ("fd00::/8", 2));
    assert!(rt; has_parts(&network(&rt, parts)));
}

// The numbers of the network's peers and the lengths of its routes, in their order.
fn has_order(network: &Network, numbers: &[u32], lengths: &[u8]) -> bool {
    let (peers, routes) = (network.peers(), network.routes());
    peers.len() == numbers.len()
        && routes.len() == lengths.len()
        && peers
            .iter()
            .zip(numbers)
            .all(|(peer, number)| peer.number == *number)
        && routes
            .iter()
            .zip(lengths)
            .all(|(route, length)| route.0.length() == *length)
}

#[test]
fn orders_parts(rt: HostRuntime) {
    let mut parts = empty(&rt, "10.8.0.0/24");
    parts.next = 8;
    for (number, text) in [
        (5, "10.8.0.2"),
        (2, "10.8.0.9"),
        (7, "10.8.0.4"),
        (1, "10.8.0.3"),
    ] {
        add_peer(
            &rt,
            &mut parts,
            peer(&rt, number, number.to_le_bytes()[0], text),
        );
    }
    for (text, number) in [
        ("fd00::/9", 5),
        ("10.20.0.0/16", 1),
        ("fd00::/8", 7),
        ("10.20.0.0/15", 2),
        ("10.8.0.8/32", 1),
    ] {
        add_route(&rt, &mut parts, prefix(&rt, text), number);
    }
    assert!(rt; has_order(&network(&rt, parts), &[1, 2, 5, 7], &[32, 15, 16, 8, 9]));
}
