//! A peer's fields after commands.
use super::{answer, said};
use crate::fixtures::{address, end, key, new_network};
use std::alloc::AllocGlobal;
use std::process::Abort;
use wgr_core::{Command, Count, Label, Network, Status};

// The status of a peer whose handshake was at this second, or none at 0.
fn status(handshake: u64) -> Option<Status> {
    if handshake == 0 {
        return None;
    }
    Some(Status {
        handshake: Count::new(handshake),
        received: Count::new(0),
        sent: Count::new(0),
    })
}

// The one peer has the fields with which it was added, except for its address, its end and its status.
fn check_peer(
    rt: &(impl Abort + AllocGlobal),
    network: &Network,
    held: &str,
    until: u64,
    handshake: u64,
) {
    let peer = network.peers().first().expect(rt, "a peer");
    assert_eq!(rt; peer.label.as_str(), "phone", "{held}");
    assert_eq!(rt; peer.keepalive, 25, "{held}");
    assert!(rt;
        peer.key == key(7) && peer.status == status(handshake),
        "{held}"
    );
    assert!(rt; peer.address == address(rt, held), "{held}");
    assert!(rt; peer.until == end(rt, until), "{held}");
}

fn add(rt: &(impl Abort + AllocGlobal)) -> Command {
    let label = Label::read(rt.alloc(), b"phone").expect(rt, "memory");
    Command::Add {
        key: key(7),
        label: label.expect(rt, "a label"),
        address: None,
        until: end(rt, 100),
        keepalive: 25,
    }
}

#[test]
fn fields_stay(rt: HostRuntime) {
    let mut network = new_network(&rt, "10.8.0.0/24");
    let added = answer(&rt, &mut network, 0, &add(&rt));
    assert_eq!(rt; added.as_slice(), b"1 10.8.0.2/32".as_slice());
    check_peer(&rt, &network, "10.8.0.2", 100, 0);
    for (line, held, until, handshake) in [
        ("move 1 10.8.0.9", "10.8.0.9", 100, 0),
        ("renew 1 200", "10.8.0.9", 200, 0),
        ("route 1 10.9.0.0/24", "10.8.0.9", 200, 0),
        // a line of a known peer gives its status alone
        ("adopt 9|7 5 30 10.8.0.3/32", "10.8.0.9", 200, 5),
        ("move 1", "10.8.0.2", 200, 5),
        ("renew 1 0", "10.8.0.2", 0, 5),
        ("unroute 10.9.0.0/24", "10.8.0.2", 0, 5),
        ("adopt 9|7 6 30", "10.8.0.2", 0, 6),
    ] {
        said(&rt, &mut network, 0, line);
        check_peer(&rt, &network, held, until, handshake);
    }
}
