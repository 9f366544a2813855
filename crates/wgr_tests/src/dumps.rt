//! Dumps that a network adopts. The lines are written with blanks for tabs and names for keys, and
//! the network after them as its peers, each with its key.
use crate::fixtures::new_network;
use crate::network::answer;
use crate::shown::Shown;
use std::alloc::AllocGlobal;
use std::process::Abort;
use wgr_core::{Network, Peer};
use wgr_dump::{BadDump, Dump};
use wgr_request::adoption_of;

/// The text of the key of a name: of 32 bytes 0, 1, 2, 3, or 9, which is the server's.
fn key_text(name: &str) -> Option<&'static str> {
    match name {
        "K0" => Some("AAAAAAAAAAAAAAAAAAAAAAAAAAAAAAAAAAAAAAAAAAA="),
        "K1" => Some("AQEBAQEBAQEBAQEBAQEBAQEBAQEBAQEBAQEBAQEBAQE="),
        "K2" => Some("AgICAgICAgICAgICAgICAgICAgICAgICAgICAgICAgI="),
        "K3" => Some("AwMDAwMDAwMDAwMDAwMDAwMDAwMDAwMDAwMDAwMDAwM="),
        "S" => Some("CQkJCQkJCQkJCQkJCQkJCQkJCQkJCQkJCQkJCQkJCQk="),
        _ => None,
    }
}

/// The line of the interface.
const INTERFACE: &str = "(none) S 51820 off";

// Puts the text of a line.
fn put_line(line: &str, text: &mut Shown<'_, impl Abort + AllocGlobal>) {
    for (place, word) in line.split(' ').enumerate() {
        if place > 0 {
            text.put("\t");
        }
        text.put(key_text(word).unwrap_or(word));
    }
}

fn dump_text(rt: &(impl Abort + AllocGlobal), lines: &[&str], end: &str) -> Vec<u8> {
    let mut text = Shown::new(rt);
    for (place, line) in lines.iter().enumerate() {
        if place > 0 {
            text.put("\n");
        }
        put_line(line, &mut text);
    }
    text.put(end);
    text.into_text()
}

fn put_peer(
    rt: &(impl Abort + AllocGlobal),
    network: &Network,
    peer: &Peer,
    text: &mut Shown<'_, impl Abort + AllocGlobal>,
) {
    text.separate("; ");
    text.put("K");
    text.put_number(u64::from(peer.key.0[0]));
    text.put(" ");
    let routes = network
        .routes_to(rt.alloc(), peer.number)
        .expect(rt, "memory");
    text.put_peer(peer, routes.as_slice());
}

fn shown(rt: &(impl Abort + AllocGlobal), network: &Network) -> Vec<u8> {
    let mut text = Shown::new(rt);
    for peer in network.peers() {
        put_peer(rt, network, peer, &mut text);
    }
    text.into_text()
}

fn refused(rt: &(impl Abort + AllocGlobal), bad: &BadDump) -> Vec<u8> {
    let mut text = Shown::new(rt);
    text.put("bad_dump line ");
    text.put_number(bad.line as u64);
    text.put(" field ");
    text.put_number(u64::from(bad.field));
    text.into_text()
}

// The answer to the dump; a change is made.
fn taken(rt: &(impl Abort + AllocGlobal), network: &mut Network, text: &[u8]) -> Vec<u8> {
    match Dump::open(text) {
        Ok(dump) => {
            let command = adoption_of(rt.alloc(), &dump).expect(rt, "memory");
            answer(rt, network, 7, &command)
        }
        Err(bad) => refused(rt, &bad),
    }
}

/// The lines of a dump, the answer to it, and the network after it.
type Step<'a> = (&'a [&'a str], &'a str, &'a str);

fn said(
    rt: &(impl Abort + AllocGlobal),
    network: &mut Network,
    lines: &[&str],
    end: &str,
) -> Vec<u8> {
    let text = dump_text(rt, lines, end);
    taken(rt, network, &text)
}

fn check_left(rt: &(impl Abort + AllocGlobal), network: &Network, left: &str) {
    let shown = shown(rt, network);
    assert_eq!(rt; shown.as_slice(), left.as_bytes());
}

// Each dump in turn on an empty network; their last newline may be absent.
fn check(rt: &(impl Abort + AllocGlobal), steps: &[Step<'_>]) {
    for end in ["", "\n"] {
        check_ended(rt, &mut new_network(rt, "10.8.0.0/24"), steps, end);
    }
}

fn check_ended(
    rt: &(impl Abort + AllocGlobal),
    network: &mut Network,
    steps: &[Step<'_>],
    end: &str,
) {
    for (lines, answered, left) in steps {
        let said = said(rt, network, lines, end);
        assert_eq!(rt; said.as_slice(), answered.as_bytes(), "{left}");
        check_left(rt, network, left);
    }
}

/// Three peers: one without prefixes, one with an address and a route, one with a route.
const THREE: [&str; 4] = [
    INTERFACE,
    "K1 (none) (none) (none) 0 0 0 off",
    "K2 (none) 198.51.100.7:40000 10.8.0.2/32,192.168.4.0/24 1700000000 1024 2048 25",
    "K3 K0 [2001:db8::1]:51820 fd00:9::/64 0 0 0 off",
];

/// What they leave: the line that names an address is taken first.
const THREE_LEFT: &str =
    "K2 1 10.8.0.2/32 192.168.4.0/24 at 1700000000 1024 2048 25; K1 2 10.8.0.3/32 at 0 0 0 0; K3 3 10.8.0.4/32 fd00:9::/64 at 0 0 0 0";

#[test]
fn a_running_interface_is_taken_over(rt: HostRuntime) {
    check(
        &rt,
        &[
            (&THREE, "1 2 3 known 0", THREE_LEFT),
            (&THREE, "known 3", THREE_LEFT),
            (&[INTERFACE], "known 0", THREE_LEFT),
            (&["K0 (none) 1 0x10"], "known 0", THREE_LEFT),
        ],
    );
}

#[test]
fn lines_are_refused(rt: HostRuntime) {
    let cases: [(&[&str], &str); 7] = [
        (
            &[
                INTERFACE,
                "K1 (none) (none) 10.8.0.2/32 0 0 0 off",
                "K2 (none) (none) 10.8.0.2/32 0 0 0 off",
            ],
            "line 3: address_held",
        ),
        (
            &[INTERFACE, "K1 (none) (none) 10.8.0.1/32 0 0 0 off"],
            "line 2: is_address",
        ),
        // the lines that name an address are taken first, and so the first that is refused is one
        (
            &[
                INTERFACE,
                "S (none) (none) (none) 0 0 0 off",
                "K1 (none) (none) 10.8.0.2/32 0 0 0 off",
                "K2 (none) (none) 10.8.0.2/32 0 0 0 off",
            ],
            "line 4: address_held",
        ),
        (
            &[INTERFACE, "S (none) (none) (none) 0 0 0 off"],
            "line 2: server_key",
        ),
        (
            &["(none) K1 51820 off", "K1 (none) (none) (none) 0 0 0 off"],
            "wrong_server",
        ),
        (&[""], "bad_dump line 1 field 1"),
        (
            &[THREE[0], THREE[1], THREE[2], "K3 K0 off fd00:9::/64 0"],
            "bad_dump line 4 field 6",
        ),
    ];
    for (lines, answered) in cases {
        check(&rt, &[(lines, answered, "")]);
    }
}

#[test]
fn lines_become_peers(rt: HostRuntime) {
    check(
        &rt,
        &[
            (
                &[
                    INTERFACE,
                    "K1 (none) (none) 10.8.0.5/32,10.8.0.6/32 0 0 0 off",
                ],
                "1 known 0",
                "K1 1 10.8.0.5/32 10.8.0.6/32 at 0 0 0 0",
            ),
            (
                &[
                    INTERFACE,
                    "K1 (none) (none) 10.8.0.9/32 1 18446744073709551615 99999999999999999999 7",
                ],
                "known 1",
                "K1 1 10.8.0.5/32 10.8.0.6/32 at 1 9223372036854775807 9223372036854775807 0",
            ),
            (
                // of two lines of a key the last that is taken gives the status
                &[
                    INTERFACE,
                    "K2 (none) (none) 192.168.4.7/24 2 2 2 off",
                    "K2 (none) (none) 10.8.0.8/32 1 1 1 9",
                ],
                "2 known 1",
                "K1 1 10.8.0.5/32 10.8.0.6/32 at 1 9223372036854775807 9223372036854775807 0; K2 2 10.8.0.8/32 at 2 2 2 9",
            ),
            (
                &[
                    INTERFACE,
                    "K3 (none) [fe80::1%eth0]:51820 192.168.4.7/24 0 0 0 off",
                ],
                "3 known 0",
                "K1 1 10.8.0.5/32 10.8.0.6/32 at 1 9223372036854775807 9223372036854775807 0; K2 2 10.8.0.8/32 at 2 2 2 9; K3 3 10.8.0.2/32 192.168.4.0/24 at 0 0 0 0",
            ),
            (
                &[
                    INTERFACE,
                    "K0 (none) (none) 192.168.4.9/24,10.8.0.6/32 0 0 0 off",
                ],
                "line 2: address_held",
                "K1 1 10.8.0.5/32 10.8.0.6/32 at 1 9223372036854775807 9223372036854775807 0; K2 2 10.8.0.8/32 at 2 2 2 9; K3 3 10.8.0.2/32 192.168.4.0/24 at 0 0 0 0",
            ),
            (
                // a prefix leaves the peer that had it
                &[
                    INTERFACE,
                    "K0 (none) (none) 192.168.4.9/24,192.168.4.0/25 0 0 0 off",
                ],
                "4 known 0",
                "K1 1 10.8.0.5/32 10.8.0.6/32 at 1 9223372036854775807 9223372036854775807 0; K2 2 10.8.0.8/32 at 2 2 2 9; K3 3 10.8.0.2/32 at 0 0 0 0; K0 4 10.8.0.3/32 192.168.4.0/24 192.168.4.0/25 at 0 0 0 0",
            ),
        ],
    );
}
