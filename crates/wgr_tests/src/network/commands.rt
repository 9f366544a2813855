//! Add, move, revoke, renew; routes, leases and limits.
use super::{check, run};
use crate::fixtures::{add_route, capacity, empty, full_of_routes, join, new_network, prefix};
use std::alloc::AllocGlobal;
use std::process::Abort;
use wgr_core::Parts;

#[test]
fn peers_take_the_lowest_address_and_a_new_number(rt: HostRuntime) {
    check(
        &rt,
        empty(&rt, "10.8.0.0/29"),
        &[
            (0, "list", ""),
            (0, "add 1", "1 10.8.0.2/32"),
            (0, "add 2", "2 10.8.0.3/32"),
            (0, "add 3", "3 10.8.0.4/32"),
            (0, "revoke 2", "2"),
            (0, "revoke 2", "no_such_peer"),
            (0, "add 4", "4 10.8.0.3/32"),
            (0, "add 1", "key_held 1"),
            (0, "add 9", "server_key"),
            (100, "add 5 - 100", "lease_over"),
            (0, "add 5 10.8.0.7", "outside_pool"),
            (0, "add 5 fd00::2", "outside_pool"),
            (0, "add 5 10.8.0.4", "address_held"),
            (0, "add 5 10.8.0.6 200", "5 10.8.0.6/32"),
            (0, "add 6", "6 10.8.0.5/32"),
            (0, "add 7", "pool_full"),
            (
                0,
                "list",
                "1 10.8.0.2/32; 3 10.8.0.4/32; 4 10.8.0.3/32; 5 10.8.0.6/32; 6 10.8.0.5/32",
            ),
        ],
    );
}

#[test]
fn peers_move(rt: HostRuntime) {
    check(
        &rt,
        empty(&rt, "10.8.0.0/24"),
        &[
            (0, "add 1", "1 10.8.0.2/32"),
            (0, "move 1 10.8.0.2", "1 10.8.0.2/32"),
            (0, "route 1 10.8.0.4/30", "1 10.8.0.2/32 10.8.0.4/30"),
            (0, "move 1 10.8.0.5", "1 10.8.0.5/32 10.8.0.4/30"),
            (0, "move 1", "1 10.8.0.2/32 10.8.0.4/30"),
            (
                0,
                "route 1 10.8.0.9/32",
                "1 10.8.0.2/32 10.8.0.4/30 10.8.0.9/32",
            ),
            (0, "move 1 10.8.0.9", "address_held"),
            (0, "add 2", "2 10.8.0.3/32"),
            (0, "move 1 10.8.0.3", "address_held"),
            (0, "move 2 10.8.0.1", "outside_pool"),
            (0, "move 2", "2 10.8.0.3/32"),
            (0, "revoke 1", "1"),
            (0, "move 2", "2 10.8.0.2/32"),
            (0, "move 1", "no_such_peer"),
        ],
    );
    check(
        &rt,
        empty(&rt, "10.8.0.0/30"),
        &[
            (0, "add 1", "1 10.8.0.2/32"),
            (0, "move 1", "1 10.8.0.2/32"),
            (0, "route 1 10.8.0.2/31", "1 10.8.0.2/32 10.8.0.2/31"),
            (0, "move 1", "pool_full"),
        ],
    );
}

#[test]
fn routes_lead_to_one_peer(rt: HostRuntime) {
    check(
        &rt,
        empty(&rt, "10.8.0.0/24"),
        &[
            (0, "add 1", "1 10.8.0.2/32"),
            (0, "add 2", "2 10.8.0.3/32"),
            (0, "route 1 192.168.4.7/24", "1 10.8.0.2/32 192.168.4.0/24"),
            (0, "route 2 192.168.4.0/24", "2 10.8.0.3/32 192.168.4.0/24"),
            (0, "route 2 192.168.4.0/24", "2 10.8.0.3/32 192.168.4.0/24"),
            (0, "list", "1 10.8.0.2/32; 2 10.8.0.3/32 192.168.4.0/24"),
            (0, "route 1 10.8.0.3/32", "is_address"),
            (0, "route 1 10.8.0.1/32", "is_address"),
            (0, "route 3 10.8.1.0/24", "no_such_peer"),
            (0, "unroute 10.8.0.2/32", "no_such_route"),
            (0, "unroute 192.168.4.0/25", "no_such_route"),
            (0, "list", "1 10.8.0.2/32; 2 10.8.0.3/32 192.168.4.0/24"),
            (0, "unroute 192.168.4.0/24", "2 10.8.0.3/32"),
            (0, "route 2 10.0.0.0/8", "2 10.8.0.3/32 10.0.0.0/8"),
            (0, "route 1 0.0.0.0/0", "1 10.8.0.2/32 0.0.0.0/0"),
            // a route that contains the whole pool and more holds no address
            (0, "add 3", "3 10.8.0.4/32"),
            (0, "owner 10.1.1.1", "2"),
            (0, "owner 1.1.1.1", "1"),
            (0, "owner 10.8.0.2", "1"),
            (0, "owner fd00::1", "nobodys_address"),
            (0, "revoke 2", "2"),
            (0, "owner 10.1.1.1", "1"),
        ],
    );
    check(
        &rt,
        empty(&rt, "10.8.0.0/29"),
        &[
            (0, "add 1 10.8.0.6", "1 10.8.0.6/32"),
            (0, "route 1 10.8.0.2/31", "1 10.8.0.6/32 10.8.0.2/31"),
            (0, "add 2", "2 10.8.0.4/32"),
            (0, "add 3 10.8.0.3", "3 10.8.0.3/32"),
            // a route that is the whole pool holds the last free address
            (
                0,
                "route 1 10.8.0.0/29",
                "1 10.8.0.6/32 10.8.0.0/29 10.8.0.2/31",
            ),
            (0, "add 4", "pool_full"),
            (0, "add 4 10.8.0.5", "4 10.8.0.5/32"),
        ],
    );
}

#[test]
fn leases_end(rt: HostRuntime) {
    check(
        &rt,
        empty(&rt, "10.8.0.0/24"),
        &[
            (0, "add 1 - 100", "1 10.8.0.2/32"),
            (50, "route 1 172.16.0.0/12", "1 10.8.0.2/32 172.16.0.0/12"),
            (99, "owner 172.16.0.1", "1"),
            (100, "owner 172.16.0.1", "nobodys_address"),
            (100, "renew 1 200", "no_such_peer"),
            (99, "renew 1 99", "lease_over"),
            (99, "renew 2 200", "no_such_peer"),
            (99, "renew 1 0", "1 10.8.0.2/32 172.16.0.0/12"),
            (100, "owner 172.16.0.1", "1"),
            (100, "renew 1 200", "1 10.8.0.2/32 172.16.0.0/12"),
            (199, "list", "1 10.8.0.2/32 172.16.0.0/12"),
            (200, "list", ""),
            (199, "list", "1 10.8.0.2/32 172.16.0.0/12"),
            (200, "add 2", "2 10.8.0.2/32"),
            (199, "list", "2 10.8.0.2/32"),
            (199, "owner 172.16.0.1", "nobodys_address"),
        ],
    );
}

// The parts of a network with room for one peer, which gets this number.
fn small(rt: &(impl Abort + AllocGlobal), next: u32) -> Parts {
    let mut parts = empty(rt, "10.8.0.0/24");
    parts.capacity = capacity(rt, 1);
    parts.next = next;
    parts
}

#[test]
fn limits_are_kept(rt: HostRuntime) {
    check(
        &rt,
        small(&rt, 1_000_000),
        &[
            (0, "add 1 - 100", "1000000 10.8.0.2/32"),
            (99, "add 2", "capacity_reached"),
            (100, "add 2", "numbers_spent"),
            (99, "list", "1000000 10.8.0.2/32"),
        ],
    );
    check(
        &rt,
        small(&rt, 1),
        &[
            (0, "add 1 - 100", "1 10.8.0.2/32"),
            (100, "add 2", "2 10.8.0.2/32"),
        ],
    );
}

#[test]
fn a_network_has_4096_routes_at_most(rt: HostRuntime) {
    check(
        &rt,
        full_of_routes(&rt),
        &[
            (0, "route 2 10.64.0.0/16", "routes_full"),
            (0, "route 2 10.64.7.1/32", "2 10.8.0.3/32 10.64.7.1/32"),
            (0, "owner 10.64.7.1", "2"),
            (0, "owner 10.64.7.2", "1"),
            (0, "unroute 10.64.7.1/32", "2 10.8.0.3/32"),
            (0, "route 2 10.64.0.0/16", "2 10.8.0.3/32 10.64.0.0/16"),
            (0, "owner 10.64.7.1", "2"),
        ],
    );
}

#[test]
fn a_peer_takes_the_place_of_one_whose_lease_is_over(rt: HostRuntime) {
    let mut network = new_network(&rt, "10.8.0.0/24");
    run(
        &rt,
        &mut network,
        &[
            (10, "add 1 - 100", "1 10.8.0.2/32"),
            (10, "add 2 - 300", "2 10.8.0.3/32"),
            (10, "add 3 - 300", "3 10.8.0.4/32"),
            (10, "list", "1 10.8.0.2/32; 2 10.8.0.3/32; 3 10.8.0.4/32"),
        ],
    );
    assert_eq!(rt; network.next(), 4);
    run(
        &rt,
        &mut network,
        &[
            (100, "add 4 - 300", "4 10.8.0.2/32"),
            (10, "list", "2 10.8.0.3/32; 3 10.8.0.4/32; 4 10.8.0.2/32"),
        ],
    );
    assert_eq!(rt; network.next(), 5);
}

// The parts of a network with room for one peer, which it has and whose lease ends at 100. It has a
// route of one address beyond the pool.
fn taken(rt: &(impl Abort + AllocGlobal), next: u32) -> Parts {
    let mut parts = small(rt, 1);
    join(rt, &mut parts, "10.8.0.2", 100, 0);
    add_route(rt, &mut parts, prefix(rt, "192.168.4.9/32"), 1);
    parts.next = next;
    parts
}

#[test]
fn the_first_test_that_fails_decides(rt: HostRuntime) {
    check(
        &rt,
        taken(&rt, 1_000_001),
        &[
            (99, "add 9 - 99", "server_key"),
            (99, "add 1 - 99", "key_held 1"),
            (99, "add 2 - 99", "lease_over"),
            (99, "add 2", "capacity_reached"),
            (100, "add 2 10.8.0.255", "numbers_spent"),
            (99, "move 1 192.168.4.9", "outside_pool"),
            (99, "move 2 192.168.4.9", "no_such_peer"),
            (99, "move 2 10.8.0.2", "no_such_peer"),
            (99, "renew 2 99", "no_such_peer"),
            (99, "route 2 10.8.0.2/32", "no_such_peer"),
        ],
    );
    let mut with_room = taken(&rt, 2);
    with_room.capacity = capacity(&rt, 2);
    check(
        &rt,
        with_room,
        &[
            (99, "add 2 192.168.4.9", "outside_pool"),
            (99, "add 2 10.8.0.2", "address_held"),
        ],
    );
    check(
        &rt,
        full_of_routes(&rt),
        &[
            (0, "route 4 10.64.0.0/16", "no_such_peer"),
            (0, "route 2 10.8.0.2/32", "is_address"),
            (0, "route 2 10.8.0.1/32", "is_address"),
        ],
    );
}
