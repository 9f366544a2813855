//! Texts that are no dumps, and where they stop being one.
use crate::Dump;
use crate::tests::{joined, put};
use std::alloc::AllocGlobal;
use std::process::Abort;

/// Whole texts, with the line and the field that are reported.
const TEXTS: &[(&str, usize, u8)] = &[
    ("", 1, 1),
    ("\n", 1, 1),
    ("\n\n", 1, 1),
    (
        "(none)\tCQkJCQkJCQkJCQkJCQkJCQkJCQkJCQkJCQkJCQkJCQk=\t51820\toff\nAQEBAQEBAQEBAQEBAQEBAQEBAQEBAQEBAQEBAQEBAQE=\t(none)\t(none)\t(none)\t0\t0\t0\toff\nAgICAgICAgICAgICAgICAgICAgICAgICAgICAgICAgI=\t(none)\t198.51.100.7:40000\t10.8.0.2/32,192.168.4.0/24\t1700000000\t1024\t2048\t25\nAwMDAwMDAwMDAwMDAwMDAwMDAwMDAwMDAwMDAwMDAwM=\tAAAAAAAAAAAAAAAAAAAAAAAAAAAAAAAAAAAAAAAAAAA=\t[2001:db8::1]:51820\tfd00:9::/64\t0\t0\t0\toff\n\n",
        5,
        1,
    ),
    (
        "(none)\tCQkJCQkJCQkJCQkJCQkJCQkJCQkJCQkJCQkJCQkJCQk=\t51820\toff\nAQEBAQEBAQEBAQEBAQEBAQEBAQEBAQEBAQEBAQEBAQE=\t(none)\t(none)\t(none)\t0\t0\t0\toff\nAgICAgICAgICAgICAgICAgICAgICAgICAgICAgICAgI=\t(none)\t198.51.100.7:40000\t10.8.0.2/32,192.168.4.0/24\t1700000000\t1024\t2048\t25\nAwMDAwMDAwMDAwMDAwMDAwMDAwMDAwMDAwMDAwMDAwM=\tAAAAAAAAAAAAAAAAAAAAAAAAAAAAAAAAAAAAAAAAAAA=\t[2001:db8::1]:51820\tfd00:9::/64\t0\t0\t0\toff\n\nAQEBAQEBAQEBAQEBAQEBAQEBAQEBAQEBAQEBAQEBAQE=\t(none)\t(none)\t(none)\t0\t0\t0\toff\n",
        5,
        1,
    ),
    (
        "AwMDAwMDAwMDAwMDAwMDAwMDAwMDAwMDAwMDAwMDAwM=\tAAAAAAAAAAAAAAAAAAAAAAAAAAAAAAAAAAAAAAAAAAA=\t[2001:db8::1]:51820\tfd00:9::/64\t0",
        1,
        3,
    ),
    (
        "(none)\tCQkJCQkJCQkJCQkJCQkJCQkJCQkJCQkJCQkJCQkJCQk=\t51820\toff\nAQEBAQEBAQEBAQEBAQEBAQEBAQEBAQEBAQEBAQEBAQE=\t(none)\t(none)\t(none)\t0\t0\t0\toff\nAgICAgICAgICAgICAgICAgICAgICAgICAgICAgICAgI=\t(none)\t198.51.100.7:40000\t10.8.0.2/32,192.168.4.0/24\t1700000000\t1024\t2048\t25\nAwMDAwMDAwMDAwMDAwMDAwMDAwMDAwMDAwMDAwMDAwM=\tAAAAAAAAAAAAAAAAAAAAAAAAAAAAAAAAAAAAAAAAAAA=\t[2001:db8::1]:51820\tfd00:9::/64\t0\n",
        4,
        6,
    ),
    (
        "(none)\tCQkJCQkJCQkJCQkJCQkJCQkJCQkJCQkJCQkJCQkJCQk=\t51820\toff\nAQEBAQEBAQEBAQEBAQEBAQEBAQEBAQEBAQEBAQEBAQE=\t(none)\t(none)\t(none)\t0\t0\t0\toff\nAgICAgICAgICAgICAgICAgICAgICAgICAgICAgICAgI=\t(none)\t198.51.100.7:40000\t10.8.0.2/32,192.168.4.0/24\t1700000000\t1024\t2048\t25\nAwMDAwMDAwMDAwMDAwMDAwMDAwMDAwMDAwMDAwMDAwM=\tAAAAAAAAAAAAAAAAAAAAAAAAAAAAAAAAAAAAAAAAAAA=\t[2001:db8::1]:51820\tfd00:9::/64\t0",
        4,
        6,
    ),
    (
        "(none)\tCQkJCQkJCQkJCQkJCQkJCQkJCQkJCQkJCQkJCQkJCQk=\t51820\toff\r\nAQEBAQEBAQEBAQEBAQEBAQEBAQEBAQEBAQEBAQEBAQE=\t(none)\t(none)\t(none)\t0\t0\t0\toff\r\nAgICAgICAgICAgICAgICAgICAgICAgICAgICAgICAgI=\t(none)\t198.51.100.7:40000\t10.8.0.2/32,192.168.4.0/24\t1700000000\t1024\t2048\t25\r\nAwMDAwMDAwMDAwMDAwMDAwMDAwMDAwMDAwMDAwMDAwM=\tAAAAAAAAAAAAAAAAAAAAAAAAAAAAAAAAAAAAAAAAAAA=\t[2001:db8::1]:51820\tfd00:9::/64\t0\t0\t0\toff\r\n",
        1,
        4,
    ),
    (
        "(none)\tCQkJCQkJCQkJCQkJCQkJCQkJCQkJCQkJCQkJCQkJCQk=\t51820\toff\nAQEBAQEBAQEBAQEBAQEBAQEBAQEBAQEBAQEBAQEBAQE=\t(none)\t(none)\t(none)\t0\t0\t0\toff\r\nAgICAgICAgICAgICAgICAgICAgICAgICAgICAgICAgI=\t(none)\t198.51.100.7:40000\t10.8.0.2/32,192.168.4.0/24\t1700000000\t1024\t2048\t25\r\nAwMDAwMDAwMDAwMDAwMDAwMDAwMDAwMDAwMDAwMDAwM=\tAAAAAAAAAAAAAAAAAAAAAAAAAAAAAAAAAAAAAAAAAAA=\t[2001:db8::1]:51820\tfd00:9::/64\t0\t0\t0\toff\r\n",
        2,
        8,
    ),
    (
        "(none)\tCQkJCQkJCQkJCQkJCQkJCQkJCQkJCQkJCQkJCQkJCQk=\t51820\toff\toff\nAQEBAQEBAQEBAQEBAQEBAQEBAQEBAQEBAQEBAQEBAQE=\t(none)\t(none)\t(none)\t0\t0\t0\toff\n",
        1,
        5,
    ),
    (
        "(none)\tCQkJCQkJCQkJCQkJCQkJCQkJCQkJCQkJCQkJCQkJCQk=\t51820\toff\nAQEBAQEBAQEBAQEBAQEBAQEBAQEBAQEBAQEBAQEBAQE=\t(none)\t(none)\t(none)\t0\t0\t0\toff\toff\n",
        2,
        9,
    ),
    (
        "AQEBAQEBAQEBAQEBAQEBAQEBAQEBAQEBAQEBAQEBAQE=\t(none)\t(none)\t(none)\t0\t0\t0\toff\n",
        1,
        3,
    ),
    (
        "(none)\tCQkJCQkJCQkJCQkJCQkJCQkJCQkJCQkJCQkJCQkJCQk=\t51820\toff\n(none)\tCQkJCQkJCQkJCQkJCQkJCQkJCQkJCQkJCQkJCQkJCQk=\t51820\toff\n",
        2,
        1,
    ),
    (
        "(none)\tCQkJCQkJCQkJCQkJCQkJCQkJCQkJCQkJCQkJCQkJCQk=\t51820\toff\nAQEBAQEBAQEBAQEBAQEBAQEBAQEBAQEBAQEBAQEBAQE=\t(none)\t(none)\t(none)\t0\t0\t0\toff\nAQEBAQEBAQEBAQEBAQEBAQEBAQEBAQEBAQEBAQEBAQE=\t(none)\t(none)\t(none)\t0\t111111111111111111111\t0\toff\nAQEBAQEBAQEBAQEBAQEBAQEBAQEBAQEBAQEBAQEBAQE=\tx\t(none)\t(none)\t0\t0\t0\toff\n",
        3,
        6,
    ),
];

/// Lines that are no interface's, and the field that is reported.
const INTERFACE_LINES: &[(&str, u8)] = &[
    ("(none)", 2),
    ("(none)\tCQkJCQkJCQkJCQkJCQkJCQkJCQkJCQkJCQkJCQkJCQk=", 3),
    (
        "(none)\tCQkJCQkJCQkJCQkJCQkJCQkJCQkJCQkJCQkJCQkJCQk=\t51820",
        4,
    ),
    ("", 1),
    (
        "(none)\tCQkJCQkJCQkJCQkJCQkJCQkJCQkJCQkJCQkJCQkJCQk=\t51820\toff\toff",
        5,
    ),
    (
        "(none)\tCQkJCQkJCQkJCQkJCQkJCQkJCQkJCQkJCQkJCQkJCQk=\t51820\toff\t",
        5,
    ),
];

/// Lines that are no peer's, and the field that is reported.
const PEER_LINES: &[(&str, u8)] = &[
    ("AQEBAQEBAQEBAQEBAQEBAQEBAQEBAQEBAQEBAQEBAQE=", 2),
    ("AQEBAQEBAQEBAQEBAQEBAQEBAQEBAQEBAQEBAQEBAQE=\t(none)", 3),
    (
        "AQEBAQEBAQEBAQEBAQEBAQEBAQEBAQEBAQEBAQEBAQE=\t(none)\t(none)",
        4,
    ),
    (
        "AQEBAQEBAQEBAQEBAQEBAQEBAQEBAQEBAQEBAQEBAQE=\t(none)\t(none)\t(none)",
        5,
    ),
    (
        "AQEBAQEBAQEBAQEBAQEBAQEBAQEBAQEBAQEBAQEBAQE=\t(none)\t(none)\t(none)\t0",
        6,
    ),
    (
        "AQEBAQEBAQEBAQEBAQEBAQEBAQEBAQEBAQEBAQEBAQE=\t(none)\t(none)\t(none)\t0\t0",
        7,
    ),
    (
        "AQEBAQEBAQEBAQEBAQEBAQEBAQEBAQEBAQEBAQEBAQE=\t(none)\t(none)\t(none)\t0\t0\t0",
        8,
    ),
    ("", 1),
    (
        "AQEBAQEBAQEBAQEBAQEBAQEBAQEBAQEBAQEBAQEBAQE=\t(none)\t(none)\t(none)\t0\t0\t0\toff\toff",
        9,
    ),
    (
        "AQEBAQEBAQEBAQEBAQEBAQEBAQEBAQEBAQEBAQEBAQE=\t(none)\t(none)\t(none)\t0\t0\t0\toff\t",
        9,
    ),
    (
        "AQEBAQEBAQEBAQEBAQEBAQEBAQEBAQEBAQEBAQEBAQE=\tx\t(none)\t(none)\t0\t0\t0\tx",
        2,
    ),
    (
        "AQEBAQEBAQEBAQEBAQEBAQEBAQEBAQEBAQEBAQEBAQE=\t(none)\t(none)\tx\tx\t0\t0\toff",
        4,
    ),
];

/// Texts that are no such field of an interface.
const INTERFACE_FIELDS: &[(u8, &str)] = &[
    (1, ""),
    (2, ""),
    (3, ""),
    (4, ""),
    (1, "off"),
    (1, "none"),
    (1, "(none"),
    (1, "(NONE)"),
    (1, "AQEBAQEBAQEBAQEBAQEBAQEBAQEBAQEBAQEBAQEBAQE"),
    (1, "AQEBAQEBAQEBAQEBAQEBAQEBAQEBAQEBAQEBAQEBAQE=="),
    (1, "AQEBAQEBAQEBAQEBAQEBAQEBAQEBAQEBAQEBAQEBAQF="),
    (1, " AQEBAQEBAQEBAQEBAQEBAQEBAQEBAQEBAQEBAQEBAQE="),
    (1, "AQEBAQEBAQEBAQEBAQEBAQEBAQEBAQEBAQEBAQEBAQE= "),
    (1, "(none) "),
    (2, "off"),
    (2, "none"),
    (2, "(none"),
    (2, "(NONE)"),
    (2, "AQEBAQEBAQEBAQEBAQEBAQEBAQEBAQEBAQEBAQEBAQE"),
    (2, "AQEBAQEBAQEBAQEBAQEBAQEBAQEBAQEBAQEBAQEBAQE=="),
    (2, "AQEBAQEBAQEBAQEBAQEBAQEBAQEBAQEBAQEBAQEBAQF="),
    (2, " AQEBAQEBAQEBAQEBAQEBAQEBAQEBAQEBAQEBAQEBAQE="),
    (2, "AQEBAQEBAQEBAQEBAQEBAQEBAQEBAQEBAQEBAQEBAQE= "),
    (2, "(none) "),
    (3, "(none)"),
    (3, "off"),
    (3, "65536"),
    (3, "99999"),
    (3, "100000"),
    (3, "051820"),
    (3, "-1"),
    (3, "+1"),
    (3, "1.5"),
    (3, " 1"),
    (3, "1 "),
    (3, "0x1"),
    (3, "518 20"),
    (4, "0x 1"),
    (4, " off"),
    (4, "off "),
    (4, "off\r"),
    (4, "\x1f"),
    (
        4,
        "xxxxxxxxxxxxxxxxxxxxxxxxxxxxxxxxxxxxxxxxxxxxxxxxxxxxxxxxxxxxxxxxxxxxxxxxxxxxxxxxxxxxxxxxxxxxxxxxxxxxxxxxxxxxxxxxxxxxxxxxxxxxxxxxxxxxxxxxxxxxxxxxxxxxxxxxxxxxxxxxxxxxxxxxxxxxxxxxxxxxxxxxxxxxxxxxxxxxxxxxxxxxxxxxxxxxxxxxxxxxxxxxxxxxxxxxxxxxxxxxxxxxxxxxxxxxxxxxx",
    ),
];

/// Texts that are no such field of a peer.
const PEER_FIELDS: &[(u8, &str)] = &[
    (1, ""),
    (2, ""),
    (3, ""),
    (4, ""),
    (5, ""),
    (6, ""),
    (7, ""),
    (8, ""),
    (1, "(none)"),
    (1, "off"),
    (1, "AQEBAQEBAQEBAQEBAQEBAQEBAQEBAQEBAQEBAQEBAQE"),
    (1, "AQEBAQEBAQEBAQEBAQEBAQEBAQEBAQEBAQEBAQEBAQE=="),
    (1, "AQEBAQEBAQEBAQEBAQEBAQEBAQEBAQEBAQEBAQEBAQF="),
    (1, "AQEBAQEBAQEBAQEBAQEBAQEBAQEBAQEBAQEBAQEBAQE\r"),
    (1, " QEBAQEBAQEBAQEBAQEBAQEBAQEBAQEBAQEBAQEBAQE="),
    (1, "AQEBAQEBAQEBAQEBAQEB QEBAQEBAQEBAQEBAQEBAQE="),
    (2, "off"),
    (2, "AQEBAQEBAQEBAQEBAQEBAQEBAQEBAQEBAQEBAQEBAQE"),
    (2, "AQEBAQEBAQEBAQEBAQEBAQEBAQEBAQEBAQEBAQEBAQE=="),
    (2, "AQEBAQEBAQEBAQEBAQEBAQEBAQEBAQEBAQEBAQEBAQF="),
    (2, "(none)(none)"),
    (3, " "),
    (3, "198.51.100.7:1 "),
    (3, "a b"),
    (3, "\x1f"),
    (
        3,
        "xxxxxxxxxxxxxxxxxxxxxxxxxxxxxxxxxxxxxxxxxxxxxxxxxxxxxxxxxxxxxxxxxxxxxxxxxxxxxxxxxxxxxxxxxxxxxxxxxxxxxxxxxxxxxxxxxxxxxxxxxxxxxxxxxxxxxxxxxxxxxxxxxxxxxxxxxxxxxxxxxxxxxxxxxxxxxxxxxxxxxxxxxxxxxxxxxxxxxxxxxxxxxxxxxxxxxxxxxxxxxxxxxxxxxxxxxxxxxxxxxxxxxxxxxxxxxxxxx",
    ),
    (4, "off"),
    (4, ","),
    (4, "10.8.0.2/32,"),
    (4, ",10.8.0.2/32"),
    (4, "10.8.0.2/32,,10.8.0.3/32"),
    (4, "10.8.0.2/33"),
    (4, "10.8.0.2/"),
    (4, "/32"),
    (4, "10.8.0/24"),
    (4, "10.8.0.2/032"),
    (4, "10.8.0.2/-1"),
    (4, "fd00::/129"),
    (4, "fd00::1%eth0/64"),
    (4, "10.8.0.2/32 "),
    (4, "10.8.0.2/32, 10.8.0.3/32"),
    (4, "(none),10.8.0.2/32"),
    (4, "10.8.0.2/32,(none)"),
    (4, "(NONE)"),
    (5, "(none)"),
    (5, "off"),
    (5, "-1"),
    (5, "+1"),
    (5, "1.0"),
    (5, " 1"),
    (5, "1 "),
    (5, "000000000000000000000"),
    (5, "100000000000000000000"),
    (5, "0x1"),
    (6, "(none)"),
    (6, "off"),
    (6, "-1"),
    (6, "+1"),
    (6, "1.0"),
    (6, " 1"),
    (6, "1 "),
    (6, "000000000000000000000"),
    (6, "100000000000000000000"),
    (6, "0x1"),
    (7, "(none)"),
    (7, "off"),
    (7, "-1"),
    (7, "+1"),
    (7, "1.0"),
    (7, " 1"),
    (7, "1 "),
    (7, "000000000000000000000"),
    (7, "100000000000000000000"),
    (7, "0x1"),
    (8, "(none)"),
    (8, "OFF"),
    (8, "of"),
    (8, "offs"),
    (8, "off\r"),
    (8, "off "),
    (8, "65536"),
    (8, "99999"),
    (8, "100000"),
    (8, "000000"),
    (8, "-1"),
    (8, "+1"),
    (8, "2 5"),
];

/// The fields of an interface.
const INTERFACE: &[&str] = &[
    "(none)",
    "CQkJCQkJCQkJCQkJCQkJCQkJCQkJCQkJCQkJCQkJCQk=",
    "51820",
    "off",
];

/// The fields of a peer.
const PEER: &[&str] = &[
    "AQEBAQEBAQEBAQEBAQEBAQEBAQEBAQEBAQEBAQEBAQE=",
    "(none)",
    "(none)",
    "(none)",
    "0",
    "0",
    "0",
    "off",
];

/// The fields with this text in place of the field of this number.
fn replaced(rt: &(impl Abort + AllocGlobal), fields: &[&str], number: u8, text: &str) -> Vec<u8> {
    let mut line = Vec::new(rt.alloc());
    for (place, field) in fields.iter().enumerate() {
        if place > 0 {
            put(rt, "\t", &mut line);
        }
        let is_it = place.saturating_add(1) == usize::from(number);
        put(rt, if is_it { text } else { field }, &mut line);
    }
    line
}

/// The line and the field at which the text stops being a dump, if it does.
fn fault(text: &[u8]) -> Option<(usize, u8)> {
    let bad = Dump::open(text).err()?;
    Some((bad.line, bad.field))
}

#[test]
fn the_first_bad_field_of_a_text_is_told(rt: HostRuntime) {
    for &(text, line, field) in TEXTS {
        assert_eq!(rt; fault(text.as_bytes()), Some((line, field)), "{text}");
    }
}

/// The fault of a dump with this line of an interface.
fn interface_fault(rt: &(impl Abort + AllocGlobal), line: &[u8]) -> Option<(usize, u8)> {
    fault(&joined(rt, &[line, &replaced(rt, PEER, 0, "")]))
}

/// The fault of a dump with this line of a peer between two good ones.
fn peer_fault(rt: &(impl Abort + AllocGlobal), line: &[u8]) -> Option<(usize, u8)> {
    let interface = replaced(rt, INTERFACE, 0, "");
    let peer = replaced(rt, PEER, 0, "");
    fault(&joined(rt, &[&interface, &peer, line, &peer]))
}

#[test]
fn bad_lines_are_told(rt: HostRuntime) {
    for &(bad, field) in INTERFACE_LINES {
        let told = interface_fault(&rt, bad.as_bytes());
        assert_eq!(rt; told, Some((1, field)), "{bad}");
    }
    for &(bad, field) in PEER_LINES {
        let told = peer_fault(&rt, bad.as_bytes());
        assert_eq!(rt; told, Some((3, field)), "{bad}");
    }
}

#[test]
fn bad_fields_are_told(rt: HostRuntime) {
    for &(field, bad) in INTERFACE_FIELDS {
        let told = interface_fault(&rt, &replaced(&rt, INTERFACE, field, bad));
        assert_eq!(rt; told, Some((1, field)), "{bad}");
    }
    for &(field, bad) in PEER_FIELDS {
        let told = peer_fault(&rt, &replaced(&rt, PEER, field, bad));
        assert_eq!(rt; told, Some((3, field)), "{bad}");
    }
}
