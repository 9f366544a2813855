//! What is read from good lines.
use crate::tests::{GOOD, K1, K2, K3, S, joined};
use crate::{Dump, InterfaceLine, PeerLine, WrittenCount};
use std::process::Abort;
use wgr_text::{Key, Prefix, read_loose};

/// A peer's line, and what is read from it.
struct Row {
    line: &'static str,
    key: &'static str,
    allowed: &'static [&'static str],
    handshake: (&'static str, u64),
    received: (&'static str, u64),
    sent: (&'static str, u64),
    keepalive: u16,
}

/// The second and the third are those of the good dump.
const ROWS: &[Row] = &[
    Row {
        line: "AQEBAQEBAQEBAQEBAQEBAQEBAQEBAQEBAQEBAQEBAQE=\t(none)\t(none)\t(none)\t0\t0\t0\toff",
        key: K1,
        allowed: &[],
        handshake: ("0", 0),
        received: ("0", 0),
        sent: ("0", 0),
        keepalive: 0,
    },
    Row {
        line: "AgICAgICAgICAgICAgICAgICAgICAgICAgICAgICAgI=\t(none)\t198.51.100.7:40000\t10.8.0.2/32,192.168.4.0/24\t1700000000\t1024\t2048\t25",
        key: K2,
        allowed: &["10.8.0.2/32", "192.168.4.0/24"],
        handshake: ("1700000000", 1_700_000_000),
        received: ("1024", 1024),
        sent: ("2048", 2048),
        keepalive: 25,
    },
    Row {
        line: "AwMDAwMDAwMDAwMDAwMDAwMDAwMDAwMDAwMDAwMDAwM=\tAAAAAAAAAAAAAAAAAAAAAAAAAAAAAAAAAAAAAAAAAAA=\t[2001:db8::1]:51820\tfd00:9::/64\t0\t0\t0\toff",
        key: K3,
        allowed: &["fd00:9::/64"],
        handshake: ("0", 0),
        received: ("0", 0),
        sent: ("0", 0),
        keepalive: 0,
    },
    Row {
        line: "AQEBAQEBAQEBAQEBAQEBAQEBAQEBAQEBAQEBAQEBAQE=\t(none)\t[fe80::1%eth0]:51820\t(none)\t0\t0\t0\toff",
        key: K1,
        allowed: &[],
        handshake: ("0", 0),
        received: ("0", 0),
        sent: ("0", 0),
        keepalive: 0,
    },
    Row {
        line: "AQEBAQEBAQEBAQEBAQEBAQEBAQEBAQEBAQEBAQEBAQE=\t(none)\txxxxxxxxxxxxxxxxxxxxxxxxxxxxxxxxxxxxxxxxxxxxxxxxxxxxxxxxxxxxxxxxxxxxxxxxxxxxxxxxxxxxxxxxxxxxxxxxxxxxxxxxxxxxxxxxxxxxxxxxxxxxxxxxxxxxxxxxxxxxxxxxxxxxxxxxxxxxxxxxxxxxxxxxxxxxxxxxxxxxxxxxxxxxxxxxxxxxxxxxxxxxxxxxxxxxxxxxxxxxxxxxxxxxxxxxxxxxxxxxxxxxxxxxxxxxxxxx\t(none)\t0\t0\t0\toff",
        key: K1,
        allowed: &[],
        handshake: ("0", 0),
        received: ("0", 0),
        sent: ("0", 0),
        keepalive: 0,
    },
    Row {
        line: "AQEBAQEBAQEBAQEBAQEBAQEBAQEBAQEBAQEBAQEBAQE=\tCQkJCQkJCQkJCQkJCQkJCQkJCQkJCQkJCQkJCQkJCQk=\t(none)\t(none)\t0\t0\t0\toff",
        key: K1,
        allowed: &[],
        handshake: ("0", 0),
        received: ("0", 0),
        sent: ("0", 0),
        keepalive: 0,
    },
    Row {
        line: "AQEBAQEBAQEBAQEBAQEBAQEBAQEBAQEBAQEBAQEBAQE=\t(none)\t(none)\t10.8.0.129/25,fd00:9::1/64\t0\t0\t0\toff",
        key: K1,
        allowed: &["10.8.0.128/25", "fd00:9::/64"],
        handshake: ("0", 0),
        received: ("0", 0),
        sent: ("0", 0),
        keepalive: 0,
    },
    Row {
        line: "AQEBAQEBAQEBAQEBAQEBAQEBAQEBAQEBAQEBAQEBAQE=\t(none)\t(none)\t10.8.0.2,fd00::2\t0\t0\t0\toff",
        key: K1,
        allowed: &["10.8.0.2/32", "fd00::2/128"],
        handshake: ("0", 0),
        received: ("0", 0),
        sent: ("0", 0),
        keepalive: 0,
    },
    Row {
        line: "AQEBAQEBAQEBAQEBAQEBAQEBAQEBAQEBAQEBAQEBAQE=\t(none)\t(none)\t0.0.0.0/0,::/0,10.1.2.3/8\t0\t0\t0\toff",
        key: K1,
        allowed: &["0.0.0.0/0", "::/0", "10.0.0.0/8"],
        handshake: ("0", 0),
        received: ("0", 0),
        sent: ("0", 0),
        keepalive: 0,
    },
    Row {
        line: "AQEBAQEBAQEBAQEBAQEBAQEBAQEBAQEBAQEBAQEBAQE=\t(none)\t(none)\t(none)\t9223372036854775807\t9223372036854775808\t18446744073709551615\toff",
        key: K1,
        allowed: &[],
        handshake: ("9223372036854775807", 9_223_372_036_854_775_807),
        received: ("9223372036854775808", 9_223_372_036_854_775_807),
        sent: ("18446744073709551615", 9_223_372_036_854_775_807),
        keepalive: 0,
    },
    Row {
        line: "AQEBAQEBAQEBAQEBAQEBAQEBAQEBAQEBAQEBAQEBAQE=\t(none)\t(none)\t(none)\t99999999999999999999\t18446744073709551616\t9223372036854775806\toff",
        key: K1,
        allowed: &[],
        handshake: ("99999999999999999999", 9_223_372_036_854_775_807),
        received: ("18446744073709551616", 9_223_372_036_854_775_807),
        sent: ("9223372036854775806", 9_223_372_036_854_775_806),
        keepalive: 0,
    },
    Row {
        line: "AQEBAQEBAQEBAQEBAQEBAQEBAQEBAQEBAQEBAQEBAQE=\t(none)\t(none)\t(none)\t00000000000000000000\t00000000000000000007\t007\toff",
        key: K1,
        allowed: &[],
        handshake: ("00000000000000000000", 0),
        received: ("00000000000000000007", 7),
        sent: ("007", 7),
        keepalive: 0,
    },
    Row {
        line: "AQEBAQEBAQEBAQEBAQEBAQEBAQEBAQEBAQEBAQEBAQE=\t(none)\t(none)\t(none)\t0\t0\t0\t0",
        key: K1,
        allowed: &[],
        handshake: ("0", 0),
        received: ("0", 0),
        sent: ("0", 0),
        keepalive: 0,
    },
    Row {
        line: "AQEBAQEBAQEBAQEBAQEBAQEBAQEBAQEBAQEBAQEBAQE=\t(none)\t(none)\t(none)\t0\t0\t0\t65535",
        key: K1,
        allowed: &[],
        handshake: ("0", 0),
        received: ("0", 0),
        sent: ("0", 0),
        keepalive: 65_535,
    },
    Row {
        line: "AQEBAQEBAQEBAQEBAQEBAQEBAQEBAQEBAQEBAQEBAQE=\t(none)\t(none)\t(none)\t0\t0\t0\t00025",
        key: K1,
        allowed: &[],
        handshake: ("0", 0),
        received: ("0", 0),
        sent: ("0", 0),
        keepalive: 25,
    },
];

/// The line of an interface.
const INTERFACE: &str = "(none)\tCQkJCQkJCQkJCQkJCQkJCQkJCQkJCQkJCQkJCQkJCQk=\t51820\toff";

/// Lines of interfaces, with the public key and the port.
const INTERFACES: &[(&str, Option<&str>, u16)] = &[
    (
        "(none)\tCQkJCQkJCQkJCQkJCQkJCQkJCQkJCQkJCQkJCQkJCQk=\t51820\toff",
        Some(S),
        51_820,
    ),
    (
        "AAAAAAAAAAAAAAAAAAAAAAAAAAAAAAAAAAAAAAAAAAA=\tCQkJCQkJCQkJCQkJCQkJCQkJCQkJCQkJCQkJCQkJCQk=\t51820\toff",
        Some(S),
        51_820,
    ),
    ("(none)\t(none)\t51820\toff", None, 51_820),
    (
        "(none)\tCQkJCQkJCQkJCQkJCQkJCQkJCQkJCQkJCQkJCQkJCQk=\t0\toff",
        Some(S),
        0,
    ),
    (
        "(none)\tCQkJCQkJCQkJCQkJCQkJCQkJCQkJCQkJCQkJCQkJCQk=\t65535\toff",
        Some(S),
        65_535,
    ),
    (
        "(none)\tCQkJCQkJCQkJCQkJCQkJCQkJCQkJCQkJCQkJCQkJCQk=\t00001\toff",
        Some(S),
        1,
    ),
    (
        "(none)\tCQkJCQkJCQkJCQkJCQkJCQkJCQkJCQkJCQkJCQkJCQk=\t51820\t0x1f",
        Some(S),
        51_820,
    ),
    (
        "(none)\tCQkJCQkJCQkJCQkJCQkJCQkJCQkJCQkJCQkJCQkJCQk=\t51820\txxxxxxxxxxxxxxxxxxxxxxxxxxxxxxxxxxxxxxxxxxxxxxxxxxxxxxxxxxxxxxxxxxxxxxxxxxxxxxxxxxxxxxxxxxxxxxxxxxxxxxxxxxxxxxxxxxxxxxxxxxxxxxxxxxxxxxxxxxxxxxxxxxxxxxxxxxxxxxxxxxxxxxxxxxxxxxxxxxxxxxxxxxxxxxxxxxxxxxxxxxxxxxxxxxxxxxxxxxxxxxxxxxxxxxxxxxxxxxxxxxxxxxxxxxxxxxxx",
        Some(S),
        51_820,
    ),
    (
        "CQkJCQkJCQkJCQkJCQkJCQkJCQkJCQkJCQkJCQkJCQk=\tAwMDAwMDAwMDAwMDAwMDAwMDAwMDAwMDAwMDAwMDAwM=\t51820\toff",
        Some(K3),
        51_820,
    ),
];

/// The prefix that the text spells, which has no host bits.
fn prefix(text: &str) -> Option<Prefix> {
    let (address, length) = read_loose(text.as_bytes())?;
    Prefix::masked(address, length)
}

fn check_count(rt: &impl Abort, count: &WrittenCount<'_>, want: (&str, u64)) {
    assert_eq!(rt; count.digits(), want.0.as_bytes());
    assert_eq!(rt; count.value().value(), want.1);
}

fn check_allowed(rt: &impl Abort, peer: &PeerLine<'_>, row: &Row) {
    let mut allowed = peer.allowed();
    for want in row.allowed {
        assert!(rt; allowed.next() == prefix(want), "{want}");
    }
    assert!(rt; allowed.next().is_none());
}

fn has_key(peer: &PeerLine<'_>, key: &str) -> bool {
    peer.key_text() == key.as_bytes() && Some(peer.key()) == Key::read(key.as_bytes())
}

fn check_peer(rt: &impl Abort, peer: &PeerLine<'_>, row: &Row) {
    assert!(rt; has_key(peer, row.key));
    check_allowed(rt, peer, row);
    check_count(rt, peer.handshake(), row.handshake);
    check_count(rt, peer.received(), row.received);
    check_count(rt, peer.sent(), row.sent);
    assert_eq!(rt; peer.keepalive(), row.keepalive);
}

/// Whether the lines of the peers are these.
fn check_peers(rt: &impl Abort, dump: &Dump<'_>, rows: &[Row]) {
    let mut lines = dump.lines();
    for row in rows {
        let Some(peer) = lines.next() else {
            panic!(rt; "{} is not read", row.line);
        };
        check_peer(rt, &peer, row);
    }
    assert!(rt; lines.next().is_none());
}

/// Whether the public key, as text and as a value, is this one or none.
fn has_public_key(interface: &InterfaceLine<'_>, want: Option<&str>) -> bool {
    match want {
        Some(key) => {
            interface.public_key_text() == Some(key.as_bytes())
                && interface.public_key() == Key::read(key.as_bytes())
        }
        None => interface.public_key_text().is_none() && interface.public_key().is_none(),
    }
}

fn check_interface(rt: &impl Abort, dump: &Dump<'_>, key: Option<&str>, port: u16) {
    let interface = dump.interface();
    assert_eq!(rt; interface.port(), port);
    assert!(rt; has_public_key(&interface, key));
}

#[test]
fn lines_of_peers_are_read(rt: HostRuntime) {
    for (at, row) in ROWS.iter().enumerate() {
        let text = joined(&rt, &[INTERFACE.as_bytes(), row.line.as_bytes()]);
        let Ok(dump) = Dump::open(&text) else {
            panic!(rt; "{} is not read", row.line);
        };
        check_peers(&rt, &dump, &ROWS[at..at + 1]);
    }
}

#[test]
fn lines_of_interfaces_are_read(rt: HostRuntime) {
    for &(line, key, port) in INTERFACES {
        let text = joined(&rt, &[line.as_bytes()]);
        let Ok(dump) = Dump::open(&text) else {
            panic!(rt; "{line} is not read");
        };
        check_interface(&rt, &dump, key, port);
        check_peers(&rt, &dump, &[]);
    }
}

#[test]
fn the_last_newline_may_be_absent(rt: HostRuntime) {
    let whole = GOOD.as_bytes();
    let Some((_, cut)) = whole.split_last() else {
        panic!(rt; "it is empty");
    };
    for text in [whole, cut] {
        let Ok(dump) = Dump::open(text) else {
            panic!(rt; "it is not read");
        };
        check_interface(&rt, &dump, Some(S), 51820);
        check_peers(&rt, &dump, &ROWS[..3]);
    }
}

/// The lengths at which the good dump, cut there, is one: after a word that may end its line, and
/// after a newline. Line 1 may end in `o` or `of`, which are marks as `off` is, and line 3 in the `2`
/// of `25`.
const LENGTHS: [usize; 11] = [59, 60, 61, 62, 137, 138, 258, 259, 260, 391, 392];

#[test]
fn cuts_are_read_at_ends_of_words(rt: HostRuntime) {
    let whole = GOOD.as_bytes();
    assert_eq!(rt; whole.len(), 392);
    for length in 0..=whole.len() {
        let (cut, _) = whole.split_at(length);
        assert_eq!(rt;
            Dump::open(cut).is_ok(),
            LENGTHS.contains(&length),
            "{length}"
        );
    }
}
