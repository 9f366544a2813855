//! Orders and requests as lines of words. An order is `tenant NAME`, `grant TENANT TOKEN`, `grant-read TENANT TOKEN`,
//! `end-token TOKEN`, `network TENANT NAME POOL HOST` or `end-network TENANT NAME`; a request is `MOMENT METHOD TOKEN TARGET BODY`.
use super::{NOBODY, joined, reply, text_of};
use crate::{Answer, Event, Office};
use sqlite::{Connection, MemStore};
use std::alloc::AllocGlobal;
use std::process::Abort;
use std::str::Split;
use wgr_core::{Capacity, Host, Name, Port};
use wgr_orders::{Order, Right, Settings};
use wgr_register::{OpenFault, Register};
use wgr_request::token_digest;
use wgr_text::{Key, read_loose};

/// A line, the status of the reply (empty for an order), and the body or the order's result.
pub(super) type Row<'t> = (&'t str, &'t str, &'t str);

fn word<'t>(words: &mut Split<'t, char>) -> &'t str {
    words.next().unwrap_or("")
}

fn name(rt: &(impl Abort + AllocGlobal), text: &str) -> Name {
    Name::read(rt.alloc(), text.as_bytes())
        .expect(rt, "memory")
        .expect(rt, "a name")
}

fn digest(rt: &impl Abort, token: &str) -> [u8; 32] {
    token_digest(token.as_bytes()).expect(rt, "a token")
}

fn settings(rt: &(impl Abort + AllocGlobal), pool: &str, host: &str) -> Settings {
    let (address, length) = read_loose(pool.as_bytes()).expect(rt, "a prefix");
    let host = Host::read(rt.alloc(), host.as_bytes()).expect(rt, "memory");
    Settings {
        address,
        length,
        host: host.expect(rt, "a host"),
        port: Port::new(51820).expect(rt, "a port"),
        server: Key([9; 32]),
        capacity: Capacity::new(4096).expect(rt, "a capacity"),
    }
}

fn order(
    rt: &(impl Abort + AllocGlobal),
    kind: &str,
    first: &str,
    words: &mut Split<'_, char>,
) -> Order {
    match kind {
        "tenant" => Order::AddTenant {
            name: name(rt, first),
        },
        "grant" => Order::Grant {
            tenant: name(rt, first),
            digest: digest(rt, word(words)),
            right: Right::Full,
        },
        "grant-read" => Order::Grant {
            tenant: name(rt, first),
            digest: digest(rt, word(words)),
            right: Right::Read,
        },
        "end-token" => Order::EndToken {
            digest: digest(rt, first),
        },
        "network" => Order::AddNetwork {
            tenant: name(rt, first),
            name: name(rt, word(words)),
            settings: settings(rt, word(words), word(words)),
        },
        "end-network" => Order::EndNetwork {
            tenant: name(rt, first),
            name: name(rt, word(words)),
        },
        _ => panic!(rt; "no such order"),
    }
}

/// A message of this method, target and body, with a token.
pub(super) fn message(
    rt: &(impl Abort + AllocGlobal),
    method: &str,
    token: &str,
    target: &str,
    body: &[u8],
) -> Vec<u8> {
    let length = body.len();
    let head = format!(in rt.alloc();
        "{method} {target} HTTP/1.1\r\nAuthorization: Bearer {token}\r\nContent-Length: {length}\r\n\r\n"
    ).expect(rt, "memory");
    joined(rt, &head, body)
}

fn asked(rt: &(impl Abort + AllocGlobal), method: &str, words: &mut Split<'_, char>) -> Vec<u8> {
    let token = word(words);
    let target = word(words);
    let body = text_of(rt, word(words).as_bytes());
    message(rt, method, token, target, &body)
}

pub(super) fn event(rt: &(impl Abort + AllocGlobal), line: &str) -> Event {
    let mut words = line.split(' ');
    let kind = word(&mut words);
    let first = word(&mut words);
    match kind.parse::<u64>() {
        Ok(now) => Event::Ask {
            now,
            bytes: asked(rt, first, &mut words),
        },
        Err(_) => Event::Order(order(rt, kind, first, &mut words)),
    }
}

/// The whole reply with this status and body; for an order, its result alone.
pub(super) fn wanted(rt: &(impl Abort + AllocGlobal), status: &str, body: &str) -> Vec<u8> {
    match status {
        "" => text_of(rt, body.as_bytes()),
        NOBODY => reply(rt, status, "WWW-Authenticate: Bearer\r\n", body),
        _ => reply(rt, status, "", body),
    }
}

/// The bytes of an answer; for an order, `done` or the refusal.
pub(super) fn given(rt: &(impl Abort + AllocGlobal), answer: &Answer) -> Vec<u8> {
    let mut text = Vec::new(rt.alloc());
    match answer {
        Answer::Reply(reply) => text.extend_from_slice(&reply.bytes).expect(rt, "memory"),
        Answer::Order(Ok(_)) => text.extend_from_slice(b"done").expect(rt, "memory"),
        Answer::Order(Err(why)) => {
            let why = why.to_string(rt.alloc()).expect(rt, "memory");
            text.extend_from_slice(why.as_bytes()).expect(rt, "memory");
        }
        Answer::Unavailable => panic!(rt; "unavailable"),
    }
    text
}

/// An office over a register without entries.
pub(super) fn empty(rt: &(impl Abort + AllocGlobal)) -> Office<MemStore> {
    let conn = Connection::open_in_memory(rt.alloc()).expect(rt, "memory");
    assert!(rt; conn.is_autocommit());
    let register = match Register::create(conn) {
        Ok(register) => register,
        Err(
            OpenFault {
                fault: _fault,
                connection: _conn,
            },
        ) => panic!(rt; "no register"),
    };
    match Office::new(rt.alloc(), register) {
        Ok(office) => office,
        Err(register) => {
            let _conn = register.into_connection();
            panic!(rt; "no office")
        }
    }
}

const ACME: &[Row<'static>] = &[
    ("tenant acme", "", "done"),
    ("grant acme abc", "", "done"),
    (
        "network acme office 10.8.0.0/24 vpn.example.net",
        "",
        "done",
    ),
];

/// An office over a register where the tenant `acme`, whose token is `abc`, has the network `office`.
pub(super) fn office(rt: &(impl Abort + AllocGlobal)) -> Office<MemStore> {
    let mut office = empty(rt);
    check(rt, &mut office, ACME);
    office
}

fn events(rt: &(impl Abort + AllocGlobal), rows: &[Row<'_>]) -> Vec<Event> {
    let mut events = Vec::new(rt.alloc());
    for row in rows {
        events.push(event(rt, row.0)).expect(rt, "memory");
    }
    events
}

/// Runs the lines as one list.
pub(super) fn check(
    rt: &(impl Abort + AllocGlobal),
    office: &mut Office<MemStore>,
    rows: &[Row<'_>],
) {
    let events = events(rt, rows);
    let answers = office.run(rt.alloc(), &events).expect(rt, "memory");
    assert_eq!(rt; answers.len(), rows.len());
    for at in 0..rows.len() {
        let (line, status, body) = rows[at];
        let answer = answers.get(at).expect(rt, "an answer");
        assert_eq!(rt;
            given(rt, answer).as_slice(),
            wanted(rt, status, body).as_slice(),
            "{line}"
        );
    }
}

pub(super) fn end(office: Office<MemStore>) {
    let _conn = office.into_register().into_connection();
}
