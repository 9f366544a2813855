//! The expected values are those of Python's `ipaddress`, whose addresses of two families are never
//! in one network.
use super::*;
use crate::text::read_loose;
use std::process::Abort;

const SPANS: &[(&str, &str, &str)] = &[
    ("0.0.0.0/0", "0.0.0.0", "255.255.255.255"),
    ("10.0.0.0/8", "10.0.0.0", "10.255.255.255"),
    ("10.8.0.0/24", "10.8.0.0", "10.8.0.255"),
    ("10.8.0.0/25", "10.8.0.0", "10.8.0.127"),
    ("10.8.0.128/25", "10.8.0.128", "10.8.0.255"),
    ("10.8.1.0/24", "10.8.1.0", "10.8.1.255"),
    ("10.8.0.2/32", "10.8.0.2", "10.8.0.2"),
    ("255.255.255.255/32", "255.255.255.255", "255.255.255.255"),
    ("::/0", "::", "ffff:ffff:ffff:ffff:ffff:ffff:ffff:ffff"),
    ("::/128", "::", "::"),
    (
        "fd00::/8",
        "fd00::",
        "fdff:ffff:ffff:ffff:ffff:ffff:ffff:ffff",
    ),
    ("fd00:9::/64", "fd00:9::", "fd00:9::ffff:ffff:ffff:ffff"),
    (
        "fd00:9:0:1::/64",
        "fd00:9:0:1::",
        "fd00:9:0:1:ffff:ffff:ffff:ffff",
    ),
    (
        "ffff:ffff:ffff:ffff:ffff:ffff:ffff:ffff/128",
        "ffff:ffff:ffff:ffff:ffff:ffff:ffff:ffff",
        "ffff:ffff:ffff:ffff:ffff:ffff:ffff:ffff",
    ),
    ("::a08:0/120", "::a08:0", "::a08:ff"),
];

const PAIRS: &[(&str, &str, bool, bool, bool)] = &[
    ("10.0.0.0/8", "10.8.0.0/24", true, false, false),
    ("10.8.0.0/24", "10.8.0.0/24", true, true, false),
    ("10.8.0.0/24", "10.8.0.0/25", true, false, false),
    ("10.8.0.0/24", "10.8.0.128/25", true, false, false),
    ("10.8.0.0/25", "10.8.0.128/25", false, false, true),
    ("10.8.0.0/24", "10.8.1.0/24", false, false, true),
    ("10.8.1.0/24", "10.8.0.0/24", false, false, true),
    ("0.0.0.0/0", "255.255.255.255/32", true, false, false),
    ("0.0.0.0/0", "::/0", false, false, true),
    ("::/96", "0.0.0.0/0", false, false, true),
    ("0.0.0.0/0", "::10.8.0.0/120", false, false, true),
    (
        "::/0",
        "ffff:ffff:ffff:ffff:ffff:ffff:ffff:ffff/128",
        true,
        false,
        false,
    ),
    ("fd00::/8", "fd00:9::/64", true, false, false),
    ("fd00:9::/64", "fd00:9:0:1::/64", false, false, true),
    ("fd00:9:0:1::/64", "fd00:9:0:1::/64", true, true, false),
    ("::/128", "::/0", false, true, false),
    ("::/1", "8000::/1", false, false, true),
    ("10.8.0.2/32", "10.8.0.2/32", true, true, false),
    ("10.8.0.2/32", "10.8.0.3/32", false, false, true),
];

const MEMBERS: &[(&str, &str, bool)] = &[
    ("10.8.0.0/24", "10.8.0.0", true),
    ("10.8.0.0/24", "10.8.0.255", true),
    ("10.8.0.0/24", "10.8.1.0", false),
    ("10.8.0.0/24", "10.7.255.255", false),
    ("10.8.0.0/24", "::10.8.0.1", false),
    ("::/0", "10.8.0.1", false),
    ("0.0.0.0/0", "255.255.255.255", true),
    ("0.0.0.0/0", "::", false),
    ("::/0", "ffff::", true),
    ("fd00:9::/64", "fd00:9::ffff:ffff:ffff:ffff", true),
    ("fd00:9::/64", "fd00:9:0:1::", false),
    ("10.8.0.2/32", "10.8.0.2", true),
    ("10.8.0.2/32", "10.8.0.3", false),
    ("::/127", "::1", true),
    ("::/127", "::2", false),
    ("::/96", "::10.8.0.1", true),
];

fn prefix_of(rt: &impl Abort, text: &str) -> Prefix {
    let Some((address, length)) = read_loose(text.as_bytes()) else {
        panic!(rt; "{text} is not read");
    };
    let Some(prefix) = Prefix::masked(address, length) else {
        panic!(rt; "{text} is too long");
    };
    prefix
}

#[test]
fn spans(rt: HostRuntime) {
    for &(text, lo, hi) in SPANS {
        let span = prefix_of(&rt, text).span();
        assert_eq!(rt; Some(span.lo), Addr::read(lo.as_bytes()), "{text}");
        assert_eq!(rt; Some(span.hi), Addr::read(hi.as_bytes()), "{text}");
    }
}

#[test]
fn pairs(rt: HostRuntime) {
    for &(one, other, covers, covered, disjoint) in PAIRS {
        let (p, q) = (prefix_of(&rt, one), prefix_of(&rt, other));
        assert_eq!(rt; p.covers(&q), covers, "{one} {other}");
        assert_eq!(rt; q.covers(&p), covered, "{one} {other}");
        assert_eq!(rt; p.disjoint(&q), disjoint, "{one} {other}");
        assert_eq!(rt; q.disjoint(&p), disjoint, "{one} {other}");
    }
}

#[test]
fn members(rt: HostRuntime) {
    for &(text, member, is_member) in MEMBERS {
        let Some(address) = Addr::read(member.as_bytes()) else {
            panic!(rt; "{member} is not read");
        };
        assert_eq!(rt;
            prefix_of(&rt, text).contains(&address),
            is_member,
            "{text} {member}"
        );
    }
}

#[test]
fn limits(rt: HostRuntime) {
    assert!(rt; Addr::new(Family::V4, 0xffffffff).is_some());
    assert!(rt; Addr::new(Family::V4, 0x100000000).is_none());
    let Some(last) = Addr::new(Family::V6, u128::MAX) else {
        panic!(rt; "an address of 128 bits");
    };
    let Some(address) = Addr::new(Family::V4, 0x0a080007) else {
        panic!(rt; "an address of 32 bits");
    };
    assert_eq!(rt; (Family::V4.width(), Family::V6.width()), (32, 128));
    assert!(rt; Prefix::masked(address, 33).is_none());
    assert_eq!(rt; Some(Prefix::full(address)), Prefix::masked(address, 32));
    assert_eq!(rt; Some(Prefix::full(last)), Prefix::masked(last, 128));
    for (length, number) in [(0, 0), (8, 0x0a000000), (31, 0x0a080006), (32, 0x0a080007)] {
        let Some(prefix) = Prefix::masked(address, length) else {
            panic!(rt; "a length of {length}");
        };
        assert_eq!(rt; prefix.address().number(), number);
        assert_eq!(rt; prefix.length(), length);
    }
}
