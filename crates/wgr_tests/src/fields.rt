//! Numbers with limits, labels, names and hosts.
use crate::fixtures::{end, host, port};
use std::alloc::{AllocError, AllocGlobal, Global};
use std::process::Abort;
use wgr_peers::{Capacity, Count, Host, Items, Label, LeaseEnd, Name, Port};

#[test]
fn keeps_ports(rt: HostRuntime) {
    for (number, is_port) in [(0, false), (1, true), (65535, true)] {
        assert_eq!(rt;
            Port::new(number).map(Port::number),
            is_port.then_some(number),
            "{number}"
        );
    }
}

#[test]
fn writes_endpoints(rt: HostRuntime) {
    for (name, number, wanted) in [
        ("vpn.example.net", 51820, "vpn.example.net:51820"),
        ("203.0.113.7", 1, "203.0.113.7:1"),
        ("2001:db8::1", 65535, "[2001:db8::1]:65535"),
    ] {
        let endpoint = host(&rt, name).endpoint(rt.alloc(), port(&rt, number));
        assert_eq!(rt; endpoint.expect(&rt, "memory").as_str(), wanted);
    }
}

#[test]
fn keeps_capacities(rt: HostRuntime) {
    for (peers, is_capacity) in [
        (0, false),
        (1, true),
        (4096, true),
        (4097, false),
        (65535, false),
    ] {
        assert_eq!(rt;
            Capacity::new(peers).map(Capacity::peers),
            is_capacity.then_some(peers),
            "{peers}"
        );
    }
}

#[test]
fn keeps_ends(rt: HostRuntime) {
    for (seconds, is_end) in [
        (0, true),
        (9_007_199_254_740_991, true),
        (9_007_199_254_740_992, false),
        (u64::MAX, false),
    ] {
        assert_eq!(rt;
            LeaseEnd::new(seconds).map(LeaseEnd::seconds),
            is_end.then_some(seconds),
            "{seconds}"
        );
    }
}

#[test]
fn leases_are_over_at_their_end(rt: HostRuntime) {
    assert_eq!(rt; LeaseEnd::never().seconds(), 0);
    assert!(rt; !LeaseEnd::never().is_expired(u64::MAX));
    for (now, is_expired) in [(99, false), (100, true), (101, true)] {
        assert_eq!(rt; end(&rt, 100).is_expired(now), is_expired, "at {now}");
    }
}

#[test]
fn keeps_counts(rt: HostRuntime) {
    for (value, kept) in [
        (0, 0),
        (9_223_372_036_854_775_807, 9_223_372_036_854_775_807),
        (9_223_372_036_854_775_808, 9_223_372_036_854_775_807),
        (u64::MAX, 9_223_372_036_854_775_807),
    ] {
        assert_eq!(rt; Count::new(value).value(), kept, "{value}");
    }
}

#[test]
fn keeps_items(rt: HostRuntime) {
    let mut items = Items::new(rt.alloc());
    assert!(rt; items.is_empty());
    items.push(5u32).expect(&rt, "memory");
    items.push(3).expect(&rt, "memory");
    assert!(rt; !items.is_empty());
    assert_eq!(rt; items.as_slice(), [5, 3].as_slice());
    let again = Items::of(items.into_vec());
    assert_eq!(rt; again.as_slice(), [5, 3].as_slice());
}

// Whether the text is a valid label, which is then stored unchanged.
fn reads_label(rt: &(impl Abort + AllocGlobal), text: &[u8]) -> bool {
    match Label::read(rt.alloc(), text).expect(rt, "memory") {
        Some(label) => {
            assert!(rt; label.as_str().as_bytes() == text);
            true
        }
        None => false,
    }
}

#[test]
fn reads_labels(rt: HostRuntime) {
    let long = [b'a'; 65];
    let cases: [(&[u8], bool); 9] = [
        (b"", true),
        (b"lab 3, rack ~", true),
        (&long[..64], true),
        (&long, false),
        (b"a\x1fb", false),
        (b"a\x7fb", false),
        (b"a\tb", false),
        ("caf\u{e9}".as_bytes(), false),
        (b"a\xff", false),
    ];
    for (text, is_read) in cases {
        assert!(rt; reads_label(&rt, text) == is_read, "at {text:?}");
    }
}

// Whether the text is a valid name, which is then stored and copied unchanged.
fn reads_name(rt: &(impl Abort + AllocGlobal), text: &[u8]) -> bool {
    match Name::read(rt.alloc(), text).expect(rt, "memory") {
        Some(name) => {
            let copy = name.copy().expect(rt, "memory");
            assert!(rt; name.as_bytes() == text);
            assert!(rt; copy.as_str() == name.as_str());
            true
        }
        None => false,
    }
}

#[test]
fn reads_names(rt: HostRuntime) {
    let long = [b'a'; 33];
    let cases: [(&[u8], bool); 12] = [
        (b"office", true),
        (b"lab-3", true),
        (b"-", true),
        (b"0", true),
        (&long[..32], true),
        (&long, false),
        (b"", false),
        (b"Office", false),
        (b"a b", false),
        (b"a_b", false),
        ("caf\u{e9}".as_bytes(), false),
        (b"a\xff", false),
    ];
    for (text, is_read) in cases {
        assert!(rt; reads_name(&rt, text) == is_read, "at {text:?}");
    }
}

// `localhost` is always a valid host: no caller needs an answer for `None`.
fn localhost(alloc: Global) -> Result<Host, AllocError> {
    match Host::read(alloc, b"localhost")? {
        Some(host) => Ok(host),
        None => unreachable!(),
    }
}

#[test]
fn reads_a_written_name(rt: HostRuntime) {
    assert_eq!(rt;
        localhost(rt.alloc()).expect(&rt, "memory").as_str(),
        "localhost"
    );
}

// Whether the text is read as this host, or is refused if there is none.
fn reads_host(rt: &(impl Abort + AllocGlobal), text: &[u8], want: Option<&[u8]>) -> bool {
    match Host::read(rt.alloc(), text).expect(rt, "memory") {
        Some(host) => want == Some(host.as_str().as_bytes()),
        None => want.is_none(),
    }
}

#[test]
fn reads_hosts(rt: HostRuntime) {
    let long = [b'A'; 254];
    let lower = [b'a'; 253];
    let cases: [(&[u8], Option<&[u8]>); 19] = [
        (b"vpn.example.net", Some(b"vpn.example.net")),
        (b"VPN.example.NET", Some(b"vpn.example.net")),
        (b"a.", Some(b"a.")),
        (b"-", Some(b"-")),
        (b"1.2.3.4", Some(b"1.2.3.4")),
        (b"01.2.3.456", Some(b"01.2.3.456")),
        (&long[..253], Some(&lower)),
        (&long, None),
        (b"", None),
        (b"2001:DB8::1", Some(b"2001:db8::1")),
        (b"2001:db8:0:0:1:0:0:1", Some(b"2001:db8::1:0:0:1")),
        (b"::ffff:1.2.3.4", Some(b"::ffff:102:304")),
        (b"[::1]", None),
        (b"fe80::1%eth0", None),
        (b"::1/128", None),
        (b"under_score", None),
        (b"a b", None),
        ("caf\u{e9}.net".as_bytes(), None),
        (b"a\xff", None),
    ];
    for (text, want) in cases {
        assert!(rt; reads_host(&rt, text, want), "at {text:?}");
    }
}
