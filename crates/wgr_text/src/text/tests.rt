//! The expected values are those of Python's `ipaddress`, except for the texts that only it accepts.
use super::*;
use std::alloc::AllocGlobal;
use std::process::Abort;

const PREFIXES: &[(&str, &str, u8, &str)] = &[
    ("10.0.0.0/8", "10.0.0.0", 8, "10.0.0.0/8"),
    ("10.8.0.0/24", "10.8.0.0", 24, "10.8.0.0/24"),
    ("192.168.4.7/24", "192.168.4.7", 24, "192.168.4.0/24"),
    ("10.8.0.2/32", "10.8.0.2", 32, "10.8.0.2/32"),
    ("0.0.0.0/0", "0.0.0.0", 0, "0.0.0.0/0"),
    ("255.255.255.255/0", "255.255.255.255", 0, "0.0.0.0/0"),
    ("255.255.255.255/1", "255.255.255.255", 1, "128.0.0.0/1"),
    ("172.31.255.255/12", "172.31.255.255", 12, "172.16.0.0/12"),
    ("10.8.0.129/25", "10.8.0.129", 25, "10.8.0.128/25"),
    ("1.2.3.4", "1.2.3.4", 32, "1.2.3.4/32"),
    ("1.2.3.4/31", "1.2.3.4", 31, "1.2.3.4/31"),
    ("1.2.3.4/9", "1.2.3.4", 9, "1.0.0.0/9"),
    ("::/0", "::", 0, "::/0"),
    ("::/128", "::", 128, "::/128"),
    ("::", "::", 128, "::/128"),
    ("fd00:9::/64", "fd00:9::", 64, "fd00:9::/64"),
    ("2001:db8::1/32", "2001:db8::1", 32, "2001:db8::/32"),
    (
        "2001:db8:ffff::/33",
        "2001:db8:ffff::",
        33,
        "2001:db8:8000::/33",
    ),
    (
        "ffff:ffff:ffff:ffff:ffff:ffff:ffff:ffff/1",
        "ffff:ffff:ffff:ffff:ffff:ffff:ffff:ffff",
        1,
        "8000::/1",
    ),
    (
        "ffff:ffff:ffff:ffff:ffff:ffff:ffff:ffff/127",
        "ffff:ffff:ffff:ffff:ffff:ffff:ffff:ffff",
        127,
        "ffff:ffff:ffff:ffff:ffff:ffff:ffff:fffe/127",
    ),
    ("fd00::1/126", "fd00::1", 126, "fd00::/126"),
    (
        "1:2:3:4:5:6:7:8/100",
        "1:2:3:4:5:6:7:8",
        100,
        "1:2:3:4:5:6::/100",
    ),
    ("1:2:3:4:5:6:7:8/65", "1:2:3:4:5:6:7:8", 65, "1:2:3:4::/65"),
    ("1:2:3:4:5:6:7:8/10", "1:2:3:4:5:6:7:8", 10, "::/10"),
    ("::ffff:10.0.0.1/96", "::ffff:a00:1", 96, "::ffff:0:0/96"),
    (
        "::ffff:10.0.0.1/104",
        "::ffff:a00:1",
        104,
        "::ffff:a00:0/104",
    ),
    (
        "2001:DB8:0:0:1:0:0:1/128",
        "2001:db8::1:0:0:1",
        128,
        "2001:db8::1:0:0:1/128",
    ),
    ("::1", "::1", 128, "::1/128"),
];

const NO_PREFIXES: &[&str] = &[
    "10.0.0.0/33",
    "::/129",
    "1.2.3.4/",
    "/24",
    "/",
    "1.2.3.4//8",
    "1.2.3.4/8/8",
    "1.2.3.4/-1",
    "1.2.3.4/+8",
    "1.2.3.4/ 8",
    "1.2.3.4/8 ",
    "1.2.3.4 /8",
    "1.2.3.4/8x",
    "1.2.3.4/0x8",
    "1.2.3.4/256",
    "1.2.3.4/999999999999999999999",
    "::/1000",
    "::/256",
    "::/-0",
    "1.2.3/8",
    "1:2:3:4:5:6:7:8:9/8",
    "x/8",
    "::/12a",
    "10.0.0.0/3.2",
    "::/::",
    "1:2:3:4:5:6:7::8/64",
    // Python accepts leading zeros in a length, masks in place of one, and zone names.
    "10.0.0.0/08",
    "10.0.0.0/00",
    "1.2.3.4/032",
    "::/00",
    "::/001",
    "::/0128",
    "10.0.0.0/255.0.0.0",
    "10.0.0.0/0.255.255.255",
    "fe80::1%eth0/64",
];

// The prefix that has the address.
fn masked(rt: &impl Abort, address: Addr, length: u8) -> Prefix {
    Prefix::masked(address, length).expect(rt, "a length")
}

fn check_shown(rt: &(impl Abort + AllocGlobal), prefix: &Prefix, shown: &str) {
    let mut out = Vec::new(rt.alloc());
    write_prefix(prefix, &mut out).expect(rt, "memory");
    assert_eq!(rt; out.as_slice(), shown.as_bytes());
}

#[test]
fn prefixes(rt: HostRuntime) {
    for &(text, front, length, shown) in PREFIXES {
        let (address, found) = read_loose(text.as_bytes()).expect(&rt, text);
        assert!(rt; Some(address) == Addr::read(front.as_bytes()), "{text}");
        assert!(rt; found == length, "{text}");
        check_shown(&rt, &masked(&rt, address, found), shown);
    }
}

#[test]
fn no_prefixes(rt: HostRuntime) {
    for text in NO_PREFIXES {
        assert!(rt; read_loose(text.as_bytes()).is_none(), "{text}");
    }
}

fn append(rt: &impl Abort, text: &str, out: &mut Vec<u8>) {
    let (address, length) = read_loose(text.as_bytes()).expect(rt, text);
    write_addr(&address, out).expect(rt, "memory");
    out.push(b' ').expect(rt, "memory");
    write_prefix(&masked(rt, address, length), out).expect(rt, "memory");
    out.push(b' ').expect(rt, "memory");
}

#[test]
fn texts_are_appended(rt: HostRuntime) {
    let mut out = Vec::new(rt.alloc());
    for text in ["10.8.0.2/32", "fd00::2/128"] {
        append(&rt, text, &mut out);
    }
    assert_eq!(rt;
        out.as_slice(),
        b"10.8.0.2 10.8.0.2/32 fd00::2 fd00::2/128 ".as_slice()
    );
}
