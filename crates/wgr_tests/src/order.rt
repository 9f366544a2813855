//! Peers and routes in their order.
use crate::fixtures::{address, end, peer, pool, prefix};
use std::alloc::AllocGlobal;
use std::process::Abort;
use wgr_peers::order::{comes_before, drop_route, is_same, put_peer, put_route};
use wgr_peers::{Peer, RouteSlots};
use wgr_pool::AddressSet;
use wgr_text::{Addr, Prefix};

#[test]
fn orders_routes(rt: HostRuntime) {
    let rising = [
        "0.0.0.0/0",
        "10.0.0.0/8",
        "10.0.0.0/9",
        "10.128.0.0/9",
        "::/0",
        "fd00::/8",
        "fd00::/64",
    ];
    for (place, one) in rising.iter().enumerate() {
        for (other_place, other) in rising.iter().enumerate() {
            let (p, q) = (prefix(&rt, one), prefix(&rt, other));
            assert_eq!(rt; comes_before(&p, &q), place < other_place, "{one} {other}");
            assert_eq!(rt; is_same(&p, &q), place == other_place, "{one} {other}");
        }
    }
}

#[test]
fn keeps_routes(rt: HostRuntime) {
    let mut routes = Vec::new(rt.alloc());
    put_route(&mut routes, prefix(&rt, "fd00::/64"), 1).expect(&rt, "memory");
    put_route(&mut routes, prefix(&rt, "10.0.0.0/9"), 2).expect(&rt, "memory");
    put_route(&mut routes, prefix(&rt, "10.0.0.0/8"), 3).expect(&rt, "memory");
    put_route(&mut routes, prefix(&rt, "fd00::/64"), 4).expect(&rt, "memory");
    drop_route(&mut routes, &prefix(&rt, "10.0.0.0/9"));
    let want = [
        (prefix(&rt, "10.0.0.0/8"), 3),
        (prefix(&rt, "fd00::/64"), 4),
    ];
    assert_eq!(rt; routes.as_slice(), want.as_slice());
}

fn expected(rt: &(impl Abort + AllocGlobal)) -> Vec<Prefix> {
    let mut expected = Vec::new(rt.alloc());
    for text in ["10.9.0.0/16", "10.8.0.0/30", "10.8.0.4/30", "10.9.0.0/16"] {
        expected.push(prefix(rt, text)).expect(rt, "memory");
    }
    expected
}

// A route to 2, and slots for three prefixes, of which it is one.
fn slots(rt: &(impl Abort + AllocGlobal)) -> RouteSlots {
    let route = (prefix(rt, "10.8.0.4/30"), 2);
    RouteSlots::new(rt.alloc(), &[route], expected(rt)).expect(rt, "memory")
}

fn put(rt: &(impl Abort + AllocGlobal), slots: &mut RouteSlots, text: &str, number: u32) {
    slots.put(prefix(rt, text), number).expect(rt, "memory");
}

fn route(rt: &(impl Abort + AllocGlobal), slots: &RouteSlots, text: &str) -> Option<u32> {
    slots.route(&prefix(rt, text))
}

// The lowest address that no route holds.
fn lowest(rt: &(impl Abort + AllocGlobal), slots: &RouteSlots) -> Option<Addr> {
    slots.lowest_free(&pool(rt, "10.8.0.0/29"), &AddressSet::new(rt.alloc()))
}

#[test]
fn keeps_slots(rt: HostRuntime) {
    let mut slots = slots(&rt);
    assert_eq!(rt; slots.len(), 1);
    assert_eq!(rt; route(&rt, &slots, "10.8.0.4/30"), Some(2));
    assert_eq!(rt; route(&rt, &slots, "10.8.0.0/30"), None);
    // A vacant slot holds no address; once it is a route, it does.
    assert!(rt; lowest(&rt, &slots) == Some(address(&rt, "10.8.0.2")));
    put(&rt, &mut slots, "10.8.0.0/30", 3);
    assert!(rt; lowest(&rt, &slots).is_none());
}

// Routes below the pools of the test, in them and above them.
fn scattered(rt: &(impl Abort + AllocGlobal)) -> RouteSlots {
    let mut slots = slots(rt);
    for text in [
        "10.7.0.0/16",
        "10.8.0.8/32",
        "fd00::/48",
        "fd00::2/128",
        "fd00::4/126",
        "fd01::/64",
    ] {
        put(rt, &mut slots, text, 1);
    }
    slots
}

fn held(rt: &(impl Abort + AllocGlobal)) -> AddressSet {
    let mut set = AddressSet::new(rt.alloc());
    for text in ["10.7.0.2", "10.8.0.2", "10.8.0.3", "fd00::3", "fd02::2"] {
        set.insert(address(rt, text)).expect(rt, "memory");
    }
    set
}

#[test]
fn what_lies_outside_a_pool_holds_none_of_it(rt: HostRuntime) {
    let (routes, held) = (scattered(&rt), held(&rt));
    for (text, lowest) in [
        ("10.6.0.0/24", "10.6.0.2"),
        ("10.8.0.0/24", "10.8.0.9"),
        ("10.9.0.0/24", "10.9.0.2"),
        ("fd00::/64", "fd00::8"),
        ("fd03::/64", "fd03::2"),
    ] {
        let found = routes.lowest_free(&pool(&rt, text), &held);
        assert!(rt; found == Some(address(&rt, lowest)), "{text}");
    }
}

fn check_routes(rt: &(impl Abort + AllocGlobal), routes: &[(Prefix, u32)], want: &[(&str, u32)]) {
    assert_eq!(rt; routes.len(), want.len());
    for (route, (text, number)) in routes.iter().zip(want) {
        assert!(rt; route.0 == prefix(rt, text), "{text}");
        assert!(rt; route.1 == *number, "{text}");
    }
}

#[test]
fn fills_slots(rt: HostRuntime) {
    let mut slots = slots(&rt);
    // A prefix without a slot, a route that changes its peer, and a number that meant a vacant slot.
    for (text, number) in [
        ("10.8.0.0/30", 3),
        ("10.7.0.0/16", 4),
        ("10.8.0.4/30", 5),
        ("fd00::/64", 0),
    ] {
        put(&rt, &mut slots, text, number);
    }
    assert_eq!(rt; slots.len(), 4);
    let want = [
        ("10.7.0.0/16", 4),
        ("10.8.0.0/30", 3),
        ("10.8.0.4/30", 5),
        ("fd00::/64", 0),
    ];
    check_routes(&rt, &slots.into_routes(), &want);
}

// A peer with this number, which the end of its lease distinguishes from others of its number.
fn numbered(rt: &(impl Abort + AllocGlobal), number: u32, until: u64) -> Peer {
    let mut peer = peer(rt, number, 7, "10.8.0.2");
    peer.until = end(rt, until);
    peer
}

fn placed(rt: &(impl Abort + AllocGlobal)) -> Vec<Peer> {
    let mut peers = Vec::new(rt.alloc());
    put_peer(&mut peers, numbered(rt, 5, 1)).expect(rt, "memory");
    put_peer(&mut peers, numbered(rt, 2, 2)).expect(rt, "memory");
    put_peer(&mut peers, numbered(rt, 5, 3)).expect(rt, "memory");
    put_peer(&mut peers, numbered(rt, 7, 4)).expect(rt, "memory");
    peers
}

#[test]
fn orders_peers(rt: HostRuntime) {
    let peers = placed(&rt);
    let want = [(2, 2), (5, 3), (7, 4)];
    assert_eq!(rt; peers.len(), want.len());
    for (peer, (number, until)) in peers.iter().zip(&want) {
        assert_eq!(rt; peer.number, *number);
        assert_eq!(rt; peer.until.seconds(), *until);
    }
}
