//! Runs of addresses, and the lowest free address.
use crate::fixtures::{address, pool};
use std::alloc::AllocGlobal;
use std::process::Abort;
use wgr_pool::{AddressSet, Pool, SortedSpans, lowest_free};
use wgr_text::{Addr, Span, read_loose};

#[test]
fn pools_give_addresses(rt: HostRuntime) {
    for (text, first, last) in [
        ("10.0.0.0/8", "10.0.0.2", "10.255.255.254"),
        ("10.8.0.4/30", "10.8.0.6", "10.8.0.6"),
        ("fd00::/48", "fd00::2", "fd00::ffff:ffff:ffff:ffff:ffff"),
        ("fd00::/126", "fd00::2", "fd00::3"),
    ] {
        let Span { lo, hi } = pool(&rt, text).assignable();
        assert!(rt;
            lo == address(&rt, first) && hi == address(&rt, last),
            "{text}"
        );
    }
}

#[test]
fn refuses_pools(rt: HostRuntime) {
    for text in [
        "10.0.0.0/7",
        "10.8.0.4/31",
        "10.8.0.1/24",
        "fd00::/47",
        "fd00::2/127",
        "fd00::1/64",
    ] {
        let (address, length) = read_loose(text.as_bytes()).expect(&rt, "a prefix");
        assert!(rt; Pool::new(address, length).is_err(), "{text}");
    }
}

// The lowest free address if these are held.
fn lowest(rt: &(impl Abort + AllocGlobal), pool: &Pool, set: &AddressSet) -> Option<Addr> {
    lowest_free(pool, &mut SortedSpans::new(set.spans())).expect(rt, "an answer")
}

// Whether the address that was found is this one, or none was found for `none`.
fn is_lowest(rt: &(impl Abort + AllocGlobal), found: Option<Addr>, text: &str) -> bool {
    match found {
        Some(found) => found == address(rt, text),
        None => text == "none",
    }
}

fn put(rt: &(impl Abort + AllocGlobal), set: &mut AddressSet, text: &str) {
    let given = address(rt, text);
    set.insert(given).expect(rt, "memory");
    assert!(rt; set.contains(&given), "{text}");
}

#[test]
fn keeps_addresses(rt: HostRuntime) {
    let mut set = AddressSet::new(rt.alloc());
    let pool = pool(&rt, "10.8.0.0/29");
    // Each address, how many runs there are with it, and the lowest that is free then.
    for (text, runs, free) in [
        ("10.8.0.4", 1, "10.8.0.2"),
        ("10.8.0.2", 2, "10.8.0.3"),
        ("10.8.0.2", 2, "10.8.0.3"),
        ("10.9.0.2", 3, "10.8.0.3"),
        ("10.8.0.3", 2, "10.8.0.5"),
        ("10.8.0.6", 3, "10.8.0.5"),
        ("10.8.0.5", 2, "none"),
    ] {
        put(&rt, &mut set, text);
        assert!(rt; set.spans().len() == runs, "{text}");
        assert!(rt; is_lowest(&rt, lowest(&rt, &pool, &set), free), "{text}");
    }
    check_span(&rt, &set, "10.8.0.2", "10.8.0.6");
    assert!(rt; !set.contains(&address(&rt, "10.8.0.7")));
}

// The first run has these ends.
fn check_span(rt: &(impl Abort + AllocGlobal), set: &AddressSet, first: &str, last: &str) {
    let whole = Span {
        lo: address(rt, first),
        hi: address(rt, last),
    };
    assert!(rt; set.spans().first() == Some(&whole));
}

// Out of order, of both families, and one of them twice.
fn mixed(rt: &(impl Abort + AllocGlobal)) -> AddressSet {
    let mut addresses = Vec::new(rt.alloc());
    for text in [
        "fd00::2", "10.8.0.6", "10.8.0.2", "10.8.0.3", "10.8.0.2", "10.8.0.4",
    ] {
        addresses.push(address(rt, text)).expect(rt, "memory");
    }
    AddressSet::collect(rt.alloc(), addresses).expect(rt, "memory")
}

#[test]
fn collects_addresses(rt: HostRuntime) {
    let set = mixed(&rt);
    check_span(&rt, &set, "10.8.0.2", "10.8.0.4");
    assert_eq!(rt; set.spans().len(), 3);
    for text in ["10.8.0.3", "10.8.0.6", "fd00::2"] {
        assert!(rt; set.contains(&address(&rt, text)), "{text}");
    }
    assert!(rt; !set.contains(&address(&rt, "10.8.0.5")));
}
