//! The files of servers.
use super::{check, office};
use crate::fixtures::{crowd, empty, network};
use wgr_conf::{Form, server_file};

#[test]
fn nobody_joined(rt: HostRuntime) {
    let network = network(&rt, empty(&rt, "10.8.0.0/24"));
    check(
        &rt,
        &network,
        &[(0, None, Form::Wg, &[WG]), (0, None, Form::Quick, &[QUICK])],
    );
}

const WG: &str = "[Interface]\nListenPort = 51820\n";

const QUICK: &str = "[Interface]\nAddress = 10.8.0.1/24\nListenPort = 51820\n";

/// The sections of two peers.
const PEERS: &str = "\n[Peer]\n\
                     PublicKey = AQEBAQEBAQEBAQEBAQEBAQEBAQEBAQEBAQEBAQEBAQE=\n\
                     AllowedIPs = 10.8.0.2/32\n\
                     \n\
                     [Peer]\n\
                     PublicKey = AgICAgICAgICAgICAgICAgICAgICAgICAgICAgICAgI=\n\
                     AllowedIPs = 10.8.0.3/32, 192.168.4.0/24, fd00:4::/64\n\
                     PersistentKeepalive = 25\n";

#[test]
fn two_peers(rt: HostRuntime) {
    let network = office(&rt, "vpn.example.net", &["192.168.4.0/24", "fd00:4::/64"]);
    check(
        &rt,
        &network,
        &[
            (0, None, Form::Quick, &[QUICK, PEERS]),
            (0, None, Form::Wg, &[WG, PEERS]),
        ],
    );
}

#[test]
fn most_peers(rt: HostRuntime) {
    let network = network(&rt, crowd(&rt, 4096));
    let file = server_file(rt.alloc(), &network, 0, Form::Wg).expect(&rt, "memory");
    // 31 bytes of the interface, and 96 of each peer: 1 of the empty line, 7 of `[Peer]`, 57 of the
    // key and 31 of the address.
    assert_eq!(rt; file.len(), 31 + 4096 * 96);
}
