//! The fields of good lines, and tables of bad ones. The values follow from wg(8); no row is what
//! this crate has printed.
mod bad_lines;
mod good_lines;

use std::alloc::AllocGlobal;
use std::process::Abort;

/// Texts of keys: 32 bytes 1, 2, 3, or 9.
const K1: &str = "AQEBAQEBAQEBAQEBAQEBAQEBAQEBAQEBAQEBAQEBAQE=";

const K2: &str = "AgICAgICAgICAgICAgICAgICAgICAgICAgICAgICAgI=";

const K3: &str = "AwMDAwMDAwMDAwMDAwMDAwMDAwMDAwMDAwMDAwMDAwM=";

const S: &str = "CQkJCQkJCQkJCQkJCQkJCQkJCQkJCQkJCQkJCQkJCQk=";

/// An interface of which no private key is shown, with a peer that never spoke, one with an IPv4
/// endpoint, and one with an IPv6 endpoint and a preshared key.
const GOOD: &str =
    "(none)\tCQkJCQkJCQkJCQkJCQkJCQkJCQkJCQkJCQkJCQkJCQk=\t51820\toff\nAQEBAQEBAQEBAQEBAQEBAQEBAQEBAQEBAQEBAQEBAQE=\t(none)\t(none)\t(none)\t0\t0\t0\toff\nAgICAgICAgICAgICAgICAgICAgICAgICAgICAgICAgI=\t(none)\t198.51.100.7:40000\t10.8.0.2/32,192.168.4.0/24\t1700000000\t1024\t2048\t25\nAwMDAwMDAwMDAwMDAwMDAwMDAwMDAwMDAwMDAwMDAwM=\tAAAAAAAAAAAAAAAAAAAAAAAAAAAAAAAAAAAAAAAAAAA=\t[2001:db8::1]:51820\tfd00:9::/64\t0\t0\t0\toff\n";

/// Appends the text.
fn put(rt: &impl Abort, text: &str, line: &mut Vec<u8>) {
    line.extend_from_slice(text.as_bytes()).expect(rt, "memory");
}

/// The text with these lines, each of them ended.
fn joined(rt: &(impl Abort + AllocGlobal), lines: &[&[u8]]) -> Vec<u8> {
    let mut text = Vec::new(rt.alloc());
    for line in lines {
        text.extend_from_slice(line).expect(rt, "memory");
        put(rt, "\n", &mut text);
    }
    text
}
