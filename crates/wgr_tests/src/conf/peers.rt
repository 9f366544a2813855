//! The files of peers.
use super::{check, office};
use crate::fixtures::{add_route, empty, join, network, prefix};
use std::alloc::AllocGlobal;
use std::process::Abort;
use wgr_conf::Form;
use wgr_core::Network;

/// How the section of the server begins.
const SERVER: &str = "\n[Peer]\nPublicKey = CQkJCQkJCQkJCQkJCQkJCQkJCQkJCQkJCQkJCQkJCQk=\n";

const ENDPOINT: &str = "Endpoint = vpn.example.net:51820\n";

#[test]
fn two_peers(rt: HostRuntime) {
    let network = office(&rt, "vpn.example.net", &["192.168.4.0/24", "fd00:4::/64"]);
    check(
        &rt,
        &network,
        &[
            (
                0,
                Some(1),
                Form::Quick,
                &[
                    "[Interface]\nAddress = 10.8.0.2/32\n",
                    SERVER,
                    "AllowedIPs = 10.8.0.0/24, 192.168.4.0/24, fd00:4::/64\n",
                    ENDPOINT,
                ],
            ),
            (
                0,
                Some(2),
                Form::Wg,
                &[
                    "[Interface]\n",
                    SERVER,
                    "AllowedIPs = 10.8.0.0/24\n",
                    ENDPOINT,
                    "PersistentKeepalive = 25\n",
                ],
            ),
            (0, Some(0), Form::Wg, &["no file"]),
            (0, Some(3), Form::Quick, &["no file"]),
        ],
    );
}

#[test]
fn other_routes_and_hosts(rt: HostRuntime) {
    // The first route covers more than the pool; the second is the pool, and the third lies in it.
    let network = office(
        &rt,
        "2001:DB8::1",
        &["0.0.0.0/0", "10.8.0.0/24", "10.8.0.16/28"],
    );
    check(
        &rt,
        &network,
        &[(
            0,
            Some(1),
            Form::Wg,
            &[
                "[Interface]\n",
                SERVER,
                "AllowedIPs = 10.8.0.0/24, 0.0.0.0/0\n",
                "Endpoint = [2001:db8::1]:51820\n",
            ],
        )],
    );
}

// Peer 1 without a lease, and peer 2, whose lease ends at 100, with a route.
fn leased(rt: &(impl Abort + AllocGlobal)) -> Network {
    let mut parts = empty(rt, "fd00::/64");
    for (text, until) in [("fd00::2", 0), ("fd00::3", 100)] {
        join(rt, &mut parts, text, until, 0);
    }
    add_route(rt, &mut parts, prefix(rt, "192.168.4.0/24"), 2);
    network(rt, parts)
}

#[test]
fn ended_leases(rt: HostRuntime) {
    let network = leased(&rt);
    check(
        &rt,
        &network,
        &[
            (
                99,
                Some(1),
                Form::Quick,
                &[
                    "[Interface]\nAddress = fd00::2/128\n",
                    SERVER,
                    "AllowedIPs = fd00::/64, 192.168.4.0/24\n",
                    ENDPOINT,
                ],
            ),
            (
                100,
                Some(1),
                Form::Wg,
                &[
                    "[Interface]\n",
                    SERVER,
                    "AllowedIPs = fd00::/64\n",
                    ENDPOINT,
                ],
            ),
            (100, Some(2), Form::Wg, &["no file"]),
            (
                100,
                None,
                Form::Quick,
                &[
                    "[Interface]\nAddress = fd00::1/64\nListenPort = 51820\n",
                    "\n[Peer]\nPublicKey = AQEBAQEBAQEBAQEBAQEBAQEBAQEBAQEBAQEBAQEBAQE=\n",
                    "AllowedIPs = fd00::2/128\n",
                ],
            ),
        ],
    );
}
