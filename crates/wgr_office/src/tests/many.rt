//! Long lists.
use super::lines::{Row, check, end, event, given, message, office, wanted};
use super::{CONFLICT, FOUND, NOBODY};
use crate::{Answer, Event};
use std::alloc::AllocGlobal;
use std::process::Abort;
use wgr_text::{Key, write_key};

/// The text of a key.
fn key_text(rt: &(impl Abort + AllocGlobal), key: [u8; 32]) -> String {
    let mut text = Vec::new(rt.alloc());
    write_key(&Key(key), &mut text).expect(rt, "memory");
    String::from_utf8(text).expect(rt, "a text")
}

/// The text of the key of 31 bytes 0xAA and the number of a round.
fn round_key(rt: &(impl Abort + AllocGlobal), round: u8) -> String {
    let mut key = [0xAA; 32];
    key[31] = round;
    key_text(rt, key)
}

/// A request for a new peer with this key.
fn add(rt: &(impl Abort + AllocGlobal), token: &str, key: &str) -> Event {
    let body = format!(in rt.alloc(); "{{\"key\":\"{key}\"}}").expect(rt, "memory");
    Event::Ask {
        now: 7,
        bytes: message(rt, "POST", token, "/networks/office/peers", body.as_bytes()),
    }
}

/// Each round adds a peer, sends a request with an unknown token, and orders a tenant that already exists.
fn rounds(rt: &(impl Abort + AllocGlobal)) -> Vec<Event> {
    let mut events = Vec::new(rt.alloc());
    for round in 1..255 {
        let key = round_key(rt, round);
        events.push(add(rt, "abc", &key)).expect(rt, "memory");
        let list = event(rt, "7 GET zzz /networks/office/peers");
        events.push(list).expect(rt, "memory");
        events.push(event(rt, "tenant acme")).expect(rt, "memory");
    }
    events
}

/// The body of the reply to a new peer of a round.
fn new_peer(rt: &(impl Abort + AllocGlobal), round: u8) -> String {
    let key = round_key(rt, round);
    let last = u16::from(round) + 1;
    format!(in rt.alloc();
        "{{\"address\":\"10.8.0.{last}/32\",\"end\":0,\"keepalive\":0,\"key\":\"{key}\",\"label\":\"\",\"number\":{round},\"routes\":[],\"status\":null}}"
    ).expect(rt, "memory")
}

/// The reply to the first request of a round: the last round finds no address left.
fn added(rt: &(impl Abort + AllocGlobal), round: u8) -> Vec<u8> {
    if round == 254 {
        wanted(rt, CONFLICT, r#"{"error":"pool_full"}"#)
    } else {
        wanted(rt, FOUND, &new_peer(rt, round))
    }
}

fn is_given(rt: &(impl Abort + AllocGlobal), answer: Option<&Answer>, wanted: &[u8]) {
    let answer = answer.expect(rt, "an answer");
    assert_eq!(rt; given(rt, answer).as_slice(), wanted);
}

#[test]
fn a_pool_is_filled_in_rounds(rt: HostRuntime) {
    let mut office = office(&rt);
    let answers = office.run(rt.alloc(), &rounds(&rt)).expect(&rt, "memory");
    assert_eq!(rt; answers.len(), 762);
    let unknown = wanted(&rt, NOBODY, r#"{"error":"unknown_token"}"#);
    let mut answers = answers.iter();
    for round in 1..255 {
        is_given(&rt, answers.next(), &added(&rt, round));
        is_given(&rt, answers.next(), &unknown);
        is_given(&rt, answers.next(), b"name_held");
    }
    end(office);
}

/// Another tenant with a network of the same name.
const BOLT: &[Row<'static>] = &[
    ("tenant bolt", "", "done"),
    ("grant bolt def", "", "done"),
    ("network bolt office 10.9.0.0/24 bolt", "", "done"),
];

/// A tenant's requests and their replies, which don't depend on other tenants.
const OWN: &[Row<'static>] = &[
    (
        "7 POST abc /networks/office/peers {\"key\":\"@\"}",
        FOUND,
        r#"{"address":"10.8.0.2/32","end":0,"keepalive":0,"key":"@","label":"","number":1,"routes":[],"status":null}"#,
    ),
    (
        "7 POST abc /networks/office/peers {\"key\":\"&\"}",
        FOUND,
        r#"{"address":"10.8.0.3/32","end":0,"keepalive":0,"key":"&","label":"","number":2,"routes":[],"status":null}"#,
    ),
    (
        "7 POST abc /networks/office/peers/1/routes {\"prefix\":\"192.168.4.0/24\"}",
        FOUND,
        r#"{"address":"10.8.0.2/32","end":0,"keepalive":0,"key":"@","label":"","number":1,"routes":["192.168.4.0/24"],"status":null}"#,
    ),
    (
        "7 DELETE abc /networks/office/peers/2",
        FOUND,
        r#"{"revoked":2}"#,
    ),
    (
        "7 GET abc /networks/office/peers",
        FOUND,
        r#"{"peers":[{"address":"10.8.0.2/32","end":0,"keepalive":0,"key":"@","label":"","number":1,"routes":["192.168.4.0/24"],"status":null}]}"#,
    ),
];

/// The tenant's requests, with twenty of the other's before each.
fn mixed(rt: &(impl Abort + AllocGlobal)) -> Vec<Event> {
    let mut events = Vec::new(rt.alloc());
    for theirs in 0..100 {
        let key = key_text(rt, [theirs + 1; 32]);
        events.push(add(rt, "def", &key)).expect(rt, "memory");
        if theirs % 20 == 19 {
            let own = OWN.get(usize::from(theirs / 20)).expect(rt, "a row");
            events.push(event(rt, own.0)).expect(rt, "memory");
        }
    }
    events
}

#[test]
fn two_worlds(rt: HostRuntime) {
    let mut alone = office(&rt);
    check(&rt, &mut alone, OWN);
    end(alone);
    let mut among = office(&rt);
    check(&rt, &mut among, BOLT);
    let answers = among.run(rt.alloc(), &mixed(&rt)).expect(&rt, "memory");
    let mut answers = answers.iter();
    for &(_, status, body) in OWN {
        is_given(&rt, answers.nth(20), &wanted(&rt, status, body));
    }
    end(among);
}
