//! All entries, and what stays in memory.
use super::lines::{Row, check, empty, end, office};
use super::{BAD, FOUND};
use crate::{Answer, Office};
use sqlite::MemStore;
use std::alloc::AllocGlobal;
use std::process::Abort;
use wgr_register::Census;

/// After these `office` has two peers and a route, and `lab` of another tenant has none.
const ENTRIES: &[Row<'static>] = &[
    ("tenant bolt", "", "done"),
    ("network bolt lab 10.9.0.0/24 lab", "", "done"),
    (
        "7 POST abc /networks/office/peers {\"key\":\"@\"}",
        FOUND,
        r#"{"address":"10.8.0.2/32","end":0,"keepalive":0,"key":"@","label":"","number":1,"routes":[],"status":null}"#,
    ),
    (
        "7 POST abc /networks/office/peers {\"key\":\"&\"}",
        FOUND,
        r#"{"address":"10.8.0.3/32","end":0,"keepalive":0,"key":"&","label":"","number":2,"routes":[],"status":null}"#,
    ),
    (
        "7 POST abc /networks/office/peers/2/routes {\"prefix\":\"192.168.4.0/24\"}",
        FOUND,
        r#"{"address":"10.8.0.3/32","end":0,"keepalive":0,"key":"&","label":"","number":2,"routes":["192.168.4.0/24"],"status":null}"#,
    ),
];

fn census(rt: &(impl Abort + AllocGlobal), office: &mut Office<MemStore>) -> Census {
    office.census(rt.alloc()).expect(rt, "a census")
}

/// Whether the census has a network of this name with so many peers and routes.
fn has(census: &Census, name: &str, peers: usize, routes: usize) -> bool {
    census.networks.iter().any(|network| {
        network.network_entry.name.as_str() == name
            && network.peers == peers
            && network.routes == routes
    })
}

#[test]
fn entries_are_counted(rt: HostRuntime) {
    let mut nobody = empty(&rt);
    let census_of_none = census(&rt, &mut nobody);
    assert!(rt; census_of_none.tenants.is_empty());
    assert!(rt; census_of_none.tokens.is_empty());
    assert!(rt; census_of_none.networks.is_empty());
    end(nobody);
    let mut office = office(&rt);
    check(&rt, &mut office, ENTRIES);
    let all = census(&rt, &mut office);
    assert_eq!(rt; all.tenants.len(), 2);
    assert_eq!(rt; all.tokens.len(), 1);
    assert_eq!(rt; all.networks.len(), 2);
    assert!(rt; has(&all, "office", 2, 1));
    assert!(rt; has(&all, "lab", 0, 0));
    // A reading drops nothing that is in memory.
    assert_eq!(rt; office.loaded(), 1);
    assert_eq!(rt; office.cached(), 0);
    end(office);
}

fn number(answer: &Answer) -> Option<u16> {
    Some(answer.status()?.number())
}

#[test]
fn answers_have_a_status(rt: HostRuntime) {
    assert_eq!(rt; number(&Answer::Unavailable), Some(503));
    let mut office = office(&rt);
    assert_eq!(rt; number(&office.answer(rt.alloc(), 7, b"")), Some(400));
    end(office);
}
