//! Calls with large inputs. Contracts allow each call that allocates to fail for lack of memory, so only
//! these tests show a body that does so from some size on.
use crate::fixtures::{add_route, address_after, crowd, empty, join, network};
use crate::network::{answer, said};
use std::alloc::AllocGlobal;
use std::process::Abort;
use wgr_core::{Command, Count, Items, Network, Peer, SeenPeer, Status};
use wgr_text::Prefix;

// The peer 1 with 20 routes.
fn routed(rt: &(impl Abort + AllocGlobal)) -> Network {
    let mut parts = empty(rt, "10.8.0.0/24");
    join(rt, &mut parts, "10.8.0.2", 0, 0);
    for count in 0..20u32 {
        let route = Prefix::full(address_after(rt, 0x0a40_0000, count));
        add_route(rt, &mut parts, route, 1);
    }
    network(rt, parts)
}

#[test]
fn a_peer_with_20_routes(rt: HostRuntime) {
    let mut network = routed(&rt);
    for line in ["move 1 10.8.0.9", "renew 1 100"] {
        let said = said(&rt, &mut network, 0, line);
        assert!(rt;
            said.starts_with(b"1 10.8.0.9/32 10.64.0.0/32 10.64.0.1/32 "),
            "{line}"
        );
        // 13 bytes of the number and the address, and 13 or 14 of each route
        assert_eq!(rt; said.len(), 13 + 10 * 13 + 10 * 14, "{line}");
    }
}

fn seen_peer(rt: &(impl Abort + AllocGlobal), peer: &Peer) -> SeenPeer {
    let mut allowed = Items::new(rt.alloc());
    allowed
        .push(Prefix::full(peer.address))
        .expect(rt, "memory");
    SeenPeer {
        key: peer.key,
        allowed,
        status: Status {
            handshake: Count::new(0),
            received: Count::new(0),
            sent: Count::new(0),
        },
        keepalive: 0,
    }
}

/// The adoption of these peers as they are.
pub(crate) fn adoption(rt: &(impl Abort + AllocGlobal), peers: &[Peer]) -> Command {
    let mut lines = Items::new(rt.alloc());
    for peer in peers {
        lines.push(seen_peer(rt, peer)).expect(rt, "memory");
    }
    Command::Adopt {
        server: None,
        lines,
    }
}

#[test]
fn an_adoption_of_600_known_lines(rt: HostRuntime) {
    let mut network = network(&rt, crowd(&rt, 600));
    let command = adoption(&rt, network.peers());
    assert_eq!(rt;
        answer(&rt, &mut network, 0, &command).as_slice(),
        b"known 600".as_slice()
    );
}
