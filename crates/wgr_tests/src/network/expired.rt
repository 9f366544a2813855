//! Commands at a moment when leases have expired.
use super::{Step, check};
use crate::fixtures::{add_route, capacity, empty, full_of_routes, join, prefix};
use std::alloc::AllocGlobal;
use std::process::Abort;

// Runs the lines on a network of three peers, of which the first and the third are expired at 100.
fn check_over(rt: &(impl Abort + AllocGlobal), script: &[Step<'_>]) {
    let mut parts = empty(rt, "10.8.0.0/29");
    parts.capacity = capacity(rt, 3);
    for (text, until) in [("10.8.0.2", 100), ("10.8.0.3", 0), ("10.8.0.4", 100)] {
        join(rt, &mut parts, text, until, 0);
    }
    for (text, number) in [
        ("10.8.0.6/32", 3),
        ("192.168.0.0/16", 2),
        ("192.168.4.0/24", 1),
    ] {
        add_route(rt, &mut parts, prefix(rt, text), number);
    }
    check(rt, parts, script);
}

#[test]
fn expired_peers_are_passed_by(rt: HostRuntime) {
    let scripts: [&[(u64, &str, &str)]; 11] = [
        &[
            (99, "owner 192.168.4.1", "1"),
            (100, "owner 192.168.4.1", "2"),
            (100, "owner 10.8.0.2", "nobodys_address"),
            (100, "list", "2 10.8.0.3/32 192.168.0.0/16"),
            (100, "revoke 1", "no_such_peer"),
            (100, "move 3", "no_such_peer"),
            (100, "unroute 192.168.4.0/24", "no_such_route"),
            (100, "route 3 10.0.0.0/8", "no_such_peer"),
            (99, "add 4", "capacity_reached"),
            (99, "add 1", "key_held 1"),
        ],
        &[
            (100, "add 1", "4 10.8.0.2/32"),
            (100, "list", "2 10.8.0.3/32 192.168.0.0/16; 4 10.8.0.2/32"),
            (100, "add 3", "5 10.8.0.4/32"),
        ],
        &[(100, "add 1 10.8.0.4", "4 10.8.0.4/32")],
        &[(100, "add 1 10.8.0.6", "4 10.8.0.6/32")],
        &[(100, "move 2 10.8.0.2", "2 10.8.0.2/32 192.168.0.0/16")],
        &[
            (100, "move 2", "2 10.8.0.2/32 192.168.0.0/16"),
            (99, "list", "2 10.8.0.2/32 192.168.0.0/16"),
        ],
        &[(
            100,
            "route 2 192.168.4.0/24",
            "2 10.8.0.3/32 192.168.0.0/16 192.168.4.0/24",
        )],
        &[(
            100,
            "route 2 10.8.0.4/32",
            "2 10.8.0.3/32 10.8.0.4/32 192.168.0.0/16",
        )],
        &[
            (100, "revoke 2", "2"),
            (99, "list", ""),
            (99, "add 1", "4 10.8.0.2/32"),
        ],
        &[
            (100, "renew 2 200", "2 10.8.0.3/32 192.168.0.0/16"),
            (99, "list", "2 10.8.0.3/32 192.168.0.0/16"),
        ],
        &[
            (100, "unroute 192.168.0.0/16", "2 10.8.0.3/32"),
            (99, "list", "2 10.8.0.3/32"),
        ],
    ];
    for script in scripts {
        check_over(&rt, script);
    }
}

#[test]
fn routes_to_an_expired_peer_leave_room(rt: HostRuntime) {
    check(
        &rt,
        full_of_routes(&rt),
        &[
            (99, "route 2 10.64.0.0/16", "routes_full"),
            (100, "route 2 10.64.0.0/16", "2 10.8.0.3/32 10.64.0.0/16"),
            (0, "owner 10.64.15.255", "2"),
            (0, "owner 10.64.15.254", "1"),
        ],
    );
}

// Added and removed peers are looked up by key, by address and by number.
#[test]
fn one_comes_where_others_go(rt: HostRuntime) {
    let scripts: [&[(u64, &str, &str)]; 4] = [
        &[
            (100, "add 1 10.8.0.4", "4 10.8.0.4/32"),
            (100, "add 1", "key_held 4"),
            (100, "add 3 10.8.0.4", "address_held"),
            (100, "owner 10.8.0.4", "4"),
            (100, "add 3", "5 10.8.0.2/32"),
            (100, "add 5", "capacity_reached"),
            (100, "revoke 4", "4"),
            (100, "add 1", "6 10.8.0.4/32"),
        ],
        &[
            (100, "move 2 10.8.0.4", "2 10.8.0.4/32 192.168.0.0/16"),
            (100, "add 3", "4 10.8.0.2/32"),
            (100, "add 1", "5 10.8.0.3/32"),
            (100, "move 2", "2 10.8.0.4/32 192.168.0.0/16"),
            (100, "add 2", "key_held 2"),
        ],
        &[
            (
                100,
                "route 2 192.168.4.0/24",
                "2 10.8.0.3/32 192.168.0.0/16 192.168.4.0/24",
            ),
            (100, "owner 192.168.4.1", "2"),
            (100, "add 3 10.8.0.6", "4 10.8.0.6/32"),
            (100, "add 1", "5 10.8.0.2/32"),
        ],
        &[
            (100, "renew 2 150", "2 10.8.0.3/32 192.168.0.0/16"),
            (100, "add 1 - 200", "4 10.8.0.2/32"),
            (150, "add 2 10.8.0.3", "5 10.8.0.3/32"),
            (200, "add 3 10.8.0.2", "6 10.8.0.2/32"),
            (200, "list", "5 10.8.0.3/32; 6 10.8.0.2/32"),
        ],
    ];
    for script in scripts {
        check_over(&rt, script);
    }
}
