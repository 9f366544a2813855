//! A network in the tables of a database: the rows after each change, and what is loaded from rows. Rows
//! are shown as `rows.rt` says.
mod statements;

use self::statements::{ALLOWED, NETWORKS, NEXT, OTHERS, PEER, PEERS, TABLES};
use crate::disks::in_memory;
use crate::fixtures::{add_route, capacity, empty, end, join, network, prefix};
use crate::network::{command, is_same, make};
use crate::rows::rows;
use sqlite::{Connection, MemStore};
use std::alloc::AllocGlobal;
use std::process::Abort;
use wgr_core::{Change, Count, Label, Network, Parts, Status};
use wgr_tables::{Cause, Fault, NetworkChange, load_network};

// What the peers of the network 3 have, after a command at a moment.
const LINES: [Line<'_>; 11] = [
    (
        0,
        "add 1",
        "3145729 32*1  0 0 - - -",
        "4 16:10.8.0.2 32 16:10.8.0.2 3145729 address",
    ),
    (
        0,
        "add 2 10.8.0.5 100",
        "3145729 32*1  0 0 - - -; 3145730 32*2  100 0 - - -",
        "4 16:10.8.0.2 32 16:10.8.0.2 3145729 address; 4 16:10.8.0.5 32 16:10.8.0.5 3145730 address",
    ),
    (
        0,
        "move 1 10.8.0.4",
        "3145729 32*1  0 0 - - -; 3145730 32*2  100 0 - - -",
        "4 16:10.8.0.4 32 16:10.8.0.4 3145729 address; 4 16:10.8.0.5 32 16:10.8.0.5 3145730 address",
    ),
    (
        0,
        "route 1 192.168.4.7/24",
        "3145729 32*1  0 0 - - -; 3145730 32*2  100 0 - - -",
        "4 16:10.8.0.4 32 16:10.8.0.4 3145729 address; 4 16:10.8.0.5 32 16:10.8.0.5 3145730 address; 4 16:192.168.4.0 24 16:192.168.4.255 3145729 route",
    ),
    (
        0,
        "route 2 192.168.4.0/24",
        "3145729 32*1  0 0 - - -; 3145730 32*2  100 0 - - -",
        "4 16:10.8.0.4 32 16:10.8.0.4 3145729 address; 4 16:10.8.0.5 32 16:10.8.0.5 3145730 address; 4 16:192.168.4.0 24 16:192.168.4.255 3145730 route",
    ),
    (
        0,
        "renew 2 200",
        "3145729 32*1  0 0 - - -; 3145730 32*2  200 0 - - -",
        "4 16:10.8.0.4 32 16:10.8.0.4 3145729 address; 4 16:10.8.0.5 32 16:10.8.0.5 3145730 address; 4 16:192.168.4.0 24 16:192.168.4.255 3145730 route",
    ),
    (
        0,
        "route 1 fd00:9::/64",
        "3145729 32*1  0 0 - - -; 3145730 32*2  200 0 - - -",
        "4 16:10.8.0.4 32 16:10.8.0.4 3145729 address; 4 16:10.8.0.5 32 16:10.8.0.5 3145730 address; 4 16:192.168.4.0 24 16:192.168.4.255 3145730 route; 6 16:253.0.0.9.0.0.0.0.0.0.0.0.0.0.0.0 64 16:253.0.0.9.0.0.0.0.255.255.255.255.255.255.255.255 3145729 route",
    ),
    (
        0,
        "unroute 192.168.4.0/24",
        "3145729 32*1  0 0 - - -; 3145730 32*2  200 0 - - -",
        "4 16:10.8.0.4 32 16:10.8.0.4 3145729 address; 4 16:10.8.0.5 32 16:10.8.0.5 3145730 address; 6 16:253.0.0.9.0.0.0.0.0.0.0.0.0.0.0.0 64 16:253.0.0.9.0.0.0.0.255.255.255.255.255.255.255.255 3145729 route",
    ),
    // a known peer gets the status alone
    (
        0,
        "adopt 9|2 7 25|3 8 25 10.8.0.2/32 10.0.0.0/8",
        "3145729 32*1  0 0 - - -; 3145730 32*2  200 0 7 0 0; 3145731 32*3  0 25 8 0 0",
        "4 16:10.0.0.0 8 16:10.255.255.255 3145731 route; 4 16:10.8.0.2 32 16:10.8.0.2 3145731 address; 4 16:10.8.0.4 32 16:10.8.0.4 3145729 address; 4 16:10.8.0.5 32 16:10.8.0.5 3145730 address; 6 16:253.0.0.9.0.0.0.0.0.0.0.0.0.0.0.0 64 16:253.0.0.9.0.0.0.0.255.255.255.255.255.255.255.255 3145729 route",
    ),
    // a peer's routes are removed with it
    (
        0,
        "revoke 1",
        "3145730 32*2  200 0 7 0 0; 3145731 32*3  0 25 8 0 0",
        "4 16:10.0.0.0 8 16:10.255.255.255 3145731 route; 4 16:10.8.0.2 32 16:10.8.0.2 3145731 address; 4 16:10.8.0.5 32 16:10.8.0.5 3145730 address",
    ),
    // an expired peer is removed with the next change
    (
        200,
        "add 4",
        "3145731 32*3  0 25 8 0 0; 3145732 32*4  0 0 - - -",
        "4 16:10.0.0.0 8 16:10.255.255.255 3145731 route; 4 16:10.8.0.2 32 16:10.8.0.2 3145731 address; 4 16:10.8.0.3 32 16:10.8.0.3 3145732 address",
    ),
];

fn do_all(rt: &(impl Abort + AllocGlobal), conn: &mut Connection<MemStore>, text: &str) {
    conn.execute_batch(text).expect(rt, "a statement");
}

fn database(rt: &(impl Abort + AllocGlobal)) -> Connection<MemStore> {
    let mut conn = in_memory(rt);
    do_all(rt, &mut conn, TABLES);
    do_all(rt, &mut conn, NETWORKS);
    conn
}

fn load(
    rt: &(impl Abort + AllocGlobal),
    conn: &mut Connection<MemStore>,
    id: u32,
) -> Result<Option<Network>, Fault> {
    assert!(rt; conn.is_autocommit());
    load_network(rt.alloc(), conn, id)
}

fn commit(
    rt: &(impl Abort + AllocGlobal),
    conn: &mut Connection<MemStore>,
    change: &Change,
) -> Result<(), Fault> {
    assert!(rt; conn.is_autocommit());
    wgr_tables::commit(conn, &NetworkChange { network: 3, change })
}

// Whether the network is loaded as this one.
fn is_loaded(
    rt: &(impl Abort + AllocGlobal),
    conn: &mut Connection<MemStore>,
    network: &Network,
) -> bool {
    let loaded = load(rt, conn, 3).expect(rt, "rows").expect(rt, "a network");
    is_same(&loaded, network)
}

// Makes the change that a command asks for, in the database and of the network.
fn change(
    rt: &(impl Abort + AllocGlobal),
    conn: &mut Connection<MemStore>,
    network: &mut Network,
    now: u64,
    line: &str,
) {
    let (name, rest) = line.split_once(' ').unwrap_or((line, ""));
    let command = command(rt, name, rest);
    match network.act(rt.alloc(), now, &command) {
        Ok((_, given)) => {
            if let Some(change) = given {
                commit(rt, conn, &change).expect(rt, "a commit");
                make(rt, network, change);
            }
        }
        Err(_) => panic!(rt; "a refusal"),
    }
}

fn office(rt: &(impl Abort + AllocGlobal)) -> Parts {
    let mut parts = empty(rt, "10.8.0.0/29");
    parts.capacity = capacity(rt, 5);
    parts
}

// A moment, a command, and the rows of peers and of what is allowed, before those of the network 4.
type Line<'a> = (u64, &'a str, &'a str, &'a str);

fn check(
    rt: &(impl Abort + AllocGlobal),
    conn: &mut Connection<MemStore>,
    network: &mut Network,
    line: &Line<'_>,
) {
    let (now, command, peers, allowed) = *line;
    change(rt, conn, network, now, command);
    assert_eq!(rt;
        rows(rt, conn, PEERS).as_slice(),
        peers.as_bytes(),
        "{command}"
    );
    assert_eq!(rt;
        rows(rt, conn, ALLOWED).as_slice(),
        allowed.as_bytes(),
        "{command}"
    );
    assert!(rt; is_loaded(rt, conn, network), "{command}");
}

fn is_shown(
    rt: &(impl Abort + AllocGlobal),
    conn: &mut Connection<MemStore>,
    query: &str,
    want: &str,
) -> bool {
    rows(rt, conn, query).as_slice() == want.as_bytes()
}

#[test]
fn changes_are_written(rt: HostRuntime) {
    let mut conn = database(&rt);
    let mut network = network(&rt, office(&rt));
    for line in &LINES {
        check(&rt, &mut conn, &mut network, line);
    }
    assert!(rt;
        is_shown(
            &rt,
            &mut conn,
            NEXT,
            "3 7 office 51820 5 5; 4 7 lab 51821 5 2"
        )
    );
    assert!(rt;
        is_shown(
            &rt,
            &mut conn,
            OTHERS,
            "4194305 32*1 0 16:10.9.0.2 32 16:10.9.0.2 4194305 address; 4194305 32*1 0 16:192.168.4.0 24 16:192.168.4.255 4194305 route"
        )
    );
}

// The network of the rows of `PEER`.
fn with_peer(rt: &(impl Abort + AllocGlobal)) -> Network {
    let mut parts = office(rt);
    join(rt, &mut parts, "10.8.0.2", 100, 25);
    for text in ["fd00:9::/64", "192.168.4.0/24"] {
        add_route(rt, &mut parts, prefix(rt, text), 1);
    }
    if let Some(peer) = parts.peers.last_mut() {
        peer.label = Label::read(rt.alloc(), b"Printer")
            .expect(rt, "memory")
            .expect(rt, "a label");
        peer.status = Some(Status {
            handshake: Count::new(7),
            received: Count::new(8),
            sent: Count::new(9_223_372_036_854_775_807),
        });
    }
    network(rt, parts)
}

#[test]
fn rows_are_loaded(rt: HostRuntime) {
    let mut conn = database(&rt);
    do_all(&rt, &mut conn, PEER);
    assert!(rt; is_loaded(&rt, &mut conn, &with_peer(&rt)));
    assert!(rt; matches!(load(&rt, &mut conn, 5), Ok(None)));
}

// Whether the network 3 isn't loaded once the statement is done.
fn is_foreign(rt: &(impl Abort + AllocGlobal), statement: &str) -> bool {
    let mut conn = database(rt);
    do_all(rt, &mut conn, PEER);
    do_all(rt, &mut conn, statement);
    matches!(load(rt, &mut conn, 3), Err(Fault::Store(Cause::Damaged)))
}

#[test]
fn foreign_rows_are_faults(rt: HostRuntime) {
    for statement in [
        "DELETE FROM allowed WHERE kind = 'address'",
        "DELETE FROM peer",
        "UPDATE allowed SET hi = x'00' WHERE network = 3",
        "UPDATE allowed SET length = 31 WHERE kind = 'address'",
        "UPDATE allowed SET family = 5 WHERE kind = 'route'",
        "UPDATE allowed SET peer = 4194305 WHERE kind = 'route'",
        "UPDATE peer SET key = x'01' WHERE network = 3",
        "UPDATE peer SET sent = NULL",
        "UPDATE peer SET until = 9007199254740992",
        "UPDATE peer SET label = 'Dr\n'",
        "UPDATE network SET host = 'VPN.example.net' WHERE id = 3",
        "UPDATE network SET next = 1",
        "UPDATE network SET length = 31",
        "UPDATE network SET capacity = 0",
    ] {
        assert!(rt; is_foreign(&rt, statement), "{statement}");
    }
}

// The answer to the change of a command.
fn written(
    rt: &(impl Abort + AllocGlobal),
    conn: &mut Connection<MemStore>,
    network: &Network,
    line: &str,
) -> Result<(), Fault> {
    let (name, rest) = line.split_once(' ').unwrap_or((line, ""));
    let command = command(rt, name, rest);
    match network.act(rt.alloc(), 0, &command) {
        Ok((_, given)) => commit(rt, conn, &given.expect(rt, "a change")),
        Err(_) => panic!(rt; "a refusal"),
    }
}

#[test]
fn a_failed_change_leaves_the_rows(rt: HostRuntime) {
    let mut conn = database(&rt);
    let foreign =
        "INSERT INTO allowed (network, family, lo, length, hi, peer, kind) VALUES (3, 4, x'0000000000000000000000000a080002', 32, x'0000000000000000000000000a080002', 1, 'address')";
    do_all(&rt, &mut conn, foreign);
    let network = network(&rt, office(&rt));
    assert!(rt; written(&rt, &mut conn, &network, "add 1") == Err(Fault::Store(Cause::Other)));
    assert!(rt; is_shown(&rt, &mut conn, PEERS, ""));
    assert!(rt;
        is_shown(
            &rt,
            &mut conn,
            ALLOWED,
            "4 16:10.8.0.2 32 16:10.8.0.2 1 address"
        )
    );
    assert!(rt;
        is_shown(
            &rt,
            &mut conn,
            NEXT,
            "3 7 office 51820 5 1; 4 7 lab 51821 5 2"
        )
    );
}
