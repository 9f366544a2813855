//! Configuration files byte by byte. The expected ones are written by hand, from wg(8) and wg-quick(8).
mod peers;
mod servers;

use crate::fixtures::{add_route, empty, host, join, network, prefix};
use crate::shown::Shown;
use std::alloc::AllocGlobal;
use std::process::Abort;
use wgr_conf::{Form, peer_file, server_file};
use wgr_core::Network;

// Peer 1 with 10.8.0.2, and peer 2 with 10.8.0.3, keepalives and these routes.
fn office(rt: &(impl Abort + AllocGlobal), name: &str, routes: &[&str]) -> Network {
    let mut parts = empty(rt, "10.8.0.0/24");
    parts.host = host(rt, name);
    join(rt, &mut parts, "10.8.0.2", 0, 0);
    join(rt, &mut parts, "10.8.0.3", 0, 25);
    for route in routes {
        add_route(rt, &mut parts, prefix(rt, route), 2);
    }
    network(rt, parts)
}

fn server_text(
    rt: &(impl Abort + AllocGlobal),
    network: &Network,
    now: u64,
    form: Form,
) -> Vec<u8> {
    server_file(rt.alloc(), network, now, form).expect(rt, "memory")
}

fn no_file(rt: &(impl Abort + AllocGlobal)) -> Vec<u8> {
    let mut text = Shown::new(rt);
    text.put("no file");
    text.into_text()
}

// The file of the peer of this number, or `no file`.
fn peer_text(
    rt: &(impl Abort + AllocGlobal),
    network: &Network,
    now: u64,
    number: u32,
    form: Form,
) -> Vec<u8> {
    match peer_file(rt.alloc(), network, now, number, form).expect(rt, "memory") {
        Some(text) => text,
        None => no_file(rt),
    }
}

// The moment, the number of a peer or none for the server, the file's form, and the parts of its text.
type Row<'a> = (u64, Option<u32>, Form, &'a [&'a str]);

// Whether the text is these parts, one after the other.
fn is_written(text: &[u8], parts: &[&str]) -> bool {
    let mut rest = text;
    for part in parts {
        match rest.strip_prefix(part.as_bytes()) {
            Some(more) => rest = more,
            None => return false,
        }
    }
    rest.is_empty()
}

fn check(rt: &(impl Abort + AllocGlobal), network: &Network, files: &[Row<'_>]) {
    for &(now, number, form, want) in files {
        let text = match number {
            Some(number) => peer_text(rt, network, now, number, form),
            None => server_text(rt, network, now, form),
        };
        assert!(rt; is_written(&text, want), "{number:?} at {now}");
    }
}
