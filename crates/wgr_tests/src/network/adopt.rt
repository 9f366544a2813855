//! Adoptions of a running interface.
use super::check;
use crate::fixtures::{add_route, capacity, empty, full_of_routes, join, prefix};
use std::alloc::AllocGlobal;
use std::process::Abort;
use wgr_core::Parts;

// A network with the peer 1, which is expired at 100, and its routes. It has five addresses to give.
fn office(rt: &(impl Abort + AllocGlobal), next: u32) -> Parts {
    let mut parts = empty(rt, "10.8.0.0/29");
    parts.capacity = capacity(rt, 5);
    join(rt, &mut parts, "10.8.0.2", 100, 0);
    parts.next = next;
    for text in ["10.8.0.6/32", "192.168.0.0/16"] {
        add_route(rt, &mut parts, prefix(rt, text), 1);
    }
    parts
}

#[test]
fn an_interface_is_taken_over(rt: HostRuntime) {
    let scripts: [&[(u64, &str, &str)]; 6] = [
        // the lines that name an address are taken first; the second time no peer is new
        &[
            (
                100,
                "adopt 9|2 7 0|3 8 25 10.8.0.2/32 192.168.4.7/24|4 0 0 fd00:9::/64",
                "2 3 4 known 0",
            ),
            (
                100,
                "adopt 9|2 7 0|3 8 25 10.8.0.2/32 192.168.4.7/24|4 0 0 fd00:9::/64",
                "known 3",
            ),
            (
                0,
                "list",
                "2 10.8.0.2/32 192.168.4.0/24 at 8 0 0 25; 3 10.8.0.3/32 at 7 0 0 0; 4 10.8.0.4/32 fd00:9::/64 at 0 0 0 0",
            ),
        ],
        // a known peer gets the status alone
        &[
            (99, "adopt -|1 5 30 10.8.0.4/32|2 6 0", "2 known 1"),
            (
                0,
                "list",
                "1 10.8.0.2/32 10.8.0.6/32 192.168.0.0/16 at 5 0 0 0; 2 10.8.0.3/32 at 6 0 0 0",
            ),
        ],
        // a prefix leaves the peer that had it
        &[
            (99, "adopt 9|2 0 0 192.168.0.0/16 10.8.0.4/31", "2 known 0"),
            (
                0,
                "list",
                "1 10.8.0.2/32 10.8.0.6/32; 2 10.8.0.3/32 10.8.0.4/31 192.168.0.0/16 at 0 0 0 0",
            ),
        ],
        // the first address of the line that the pool can assign is the peer's, and others are routes
        &[
            (
                100,
                "adopt 9|2 0 0 10.8.0.7/32 10.8.0.4/32 10.8.0.5/32",
                "2 known 0",
            ),
            (
                0,
                "list",
                "2 10.8.0.4/32 10.8.0.5/32 10.8.0.7/32 at 0 0 0 0",
            ),
        ],
        // of two lines with one key the first that is taken makes the peer, and the last gives its status
        &[
            (100, "adopt 9|2 7 0|2 8 9 10.8.0.5/32", "2 known 1"),
            (0, "list", "2 10.8.0.5/32 at 7 0 0 9"),
        ],
        // without lines only expired peers are removed
        &[
            (99, "adopt 9", "known 0"),
            (0, "list", "1 10.8.0.2/32 10.8.0.6/32 192.168.0.0/16"),
            (100, "adopt -", "known 0"),
            (0, "list", ""),
        ],
    ];
    for script in scripts {
        check(&rt, office(&rt, 2), script);
    }
}

#[test]
fn a_line_refuses_all(rt: HostRuntime) {
    let spent: &[(u64, &str, &str)] = &[
        (99, "adopt 9|2 0 0|3 0 0", "line 3: numbers_spent"),
        (99, "adopt 9|2 0 0", "1000000 known 0"),
        (99, "adopt 9|2 3 0|3 0 0", "line 3: numbers_spent"),
        (99, "adopt 9|2 3 0", "known 1"),
    ];
    let others: &[(u64, &str, &str)] = &[
        (99, "adopt 1", "wrong_server"),
        (99, "adopt 9|9 0 0", "line 2: server_key"),
        (99, "adopt 9|2 0 0 10.8.0.2/32", "line 2: address_held"),
        (99, "adopt 9|2 0 0 10.8.0.6/32", "line 2: address_held"),
        (99, "adopt 9|2 0 0 10.8.0.1/32", "line 2: is_address"),
        (
            99,
            "adopt 9|2 0 0|3 0 0 10.8.0.3/32 10.8.0.2/32",
            "line 3: is_address",
        ),
        (99, "adopt 9|2 0 0|3 0 0|4 0 0|5 0 0", "line 5: pool_full"),
        (
            100,
            "adopt 9|2 0 0|3 0 0|4 0 0|5 0 0|6 0 0|7 0 0",
            "line 7: capacity_reached",
        ),
        // the first that is taken, and not the first of the text
        (
            99,
            "adopt 9|9 0 0|2 0 0 10.8.0.3/32|3 0 0 10.8.0.3/32",
            "line 4: address_held",
        ),
        (0, "list", "1 10.8.0.2/32 10.8.0.6/32 192.168.0.0/16"),
        (100, "list", ""),
    ];
    for (next, script) in [(1_000_000, spent), (2, others)] {
        check(&rt, office(&rt, next), script);
    }
}

#[test]
fn lines_lead_to_4096_routes_at_most(rt: HostRuntime) {
    check(
        &rt,
        full_of_routes(&rt),
        &[
            (
                99,
                "adopt 9|4 0 0 10.64.7.1/32|5 0 0 10.64.0.0/16",
                "line 3: routes_full",
            ),
            (0, "owner 10.64.7.1", "1"),
            (
                100,
                "adopt 9|4 0 0 10.64.7.1/32|5 0 0 10.64.0.0/16",
                "4 5 known 0",
            ),
            (0, "owner 10.64.7.1", "4"),
            (0, "owner 10.64.7.2", "1"),
            (0, "owner 10.64.15.255", "5"),
        ],
    );
}

#[test]
fn the_first_test_that_fails_refuses_a_line(rt: HostRuntime) {
    let mut full = office(&rt, 1_000_001);
    full.capacity = capacity(&rt, 1);
    check(
        &rt,
        full,
        &[
            (99, "adopt 8|9 0 0", "wrong_server"),
            (99, "adopt 9|9 0 0", "line 2: server_key"),
            (99, "adopt 9|2 0 0", "line 2: capacity_reached"),
            (100, "adopt 9|2 0 0", "line 2: numbers_spent"),
        ],
    );
    check(
        &rt,
        office(&rt, 1_000_001),
        &[(99, "adopt 9|2 0 0 10.8.0.2/32", "line 2: numbers_spent")],
    );
    check(
        &rt,
        office(&rt, 2),
        &[(
            99,
            "adopt 9|2 0 0 10.8.0.1/32 10.8.0.2/32",
            "line 2: address_held",
        )],
    );
    check(
        &rt,
        full_of_routes(&rt),
        &[
            (0, "adopt 9|4 0 0 10.8.0.1/32", "line 2: is_address"),
            (
                0,
                "adopt 9|4 0 0 10.8.0.2/32 10.99.0.0/16",
                "line 2: address_held",
            ),
        ],
    );
}
