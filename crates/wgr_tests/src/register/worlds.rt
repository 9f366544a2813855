//! Several tenants in one register, and lists of events.
use super::stored::{self, take};
use super::{check, event, name, put_shown, shown};
use crate::disks::{in_memory, in_new_files};
use crate::fixtures::crowd;
use crate::network::Step;
use crate::shown::Shown;
use crate::size::adoption;
use sqlite::{Alter, Connection};
use std::alloc::AllocGlobal;
use std::process::Abort;
use wgr_core::{Command, Label, LeaseEnd};
use wgr_plain::{Answer, Event, Register};
use wgr_text::Key;

/// Office, a network of acme's, whose token is of ones.
pub(super) const OFFICE: [Step<'static>; 3] = [
    (0, "tenant acme", "done"),
    (0, "grant acme 1", "done"),
    (
        0,
        "network acme office 10.8.0.0/24 vpn.example.net 51820",
        "done",
    ),
];

/// The same of bolt's, whose token is of twos.
pub(super) const BOLT: [Step<'static>; 3] = [
    (0, "tenant bolt", "done"),
    (0, "grant bolt 2", "done"),
    (
        0,
        "network bolt office 10.9.0.0/24 vpn.example.net 51821",
        "done",
    ),
];

#[test]
fn another_tenants_network_is_unknown(rt: HostRuntime) {
    stored::check(
        &rt,
        &[
            &OFFICE,
            &[
                (0, "list 1 lab", "no_such_network"),
                (0, "tenant bolt", "done"),
                (0, "grant bolt 2", "done"),
                (
                    0,
                    "network bolt lab 10.9.0.0/24 vpn.example.net 51821",
                    "done",
                ),
                (0, "list 1 lab", "no_such_network"),
                (0, "list 2 lab", ""),
                (0, "list 3 lab", "unknown_token"),
            ],
        ],
    );
}

// Acme's requests and their answers, which don't depend on other tenants.
const ASKED: [Step<'static>; 6] = [
    (10, "add 1 office 1 - 100", "1 10.8.0.2/32"),
    (20, "add 1 office 2", "2 10.8.0.3/32"),
    (20, "add 1 office 2", "key_held 2"),
    (99, "list 1 office", "1 10.8.0.2/32; 2 10.8.0.3/32"),
    (100, "add 1 office 3", "3 10.8.0.2/32"),
    (99, "list 1 office", "2 10.8.0.3/32; 3 10.8.0.2/32"),
];

// A new peer, with this key, of the network `office` of the tenant whose token repeats the byte.
fn add(
    rt: &(impl Abort + AllocGlobal),
    register: &mut Register,
    token: u8,
    key: [u8; 32],
) -> Vec<u8> {
    let command = Command::Add {
        key: Key(key),
        label: Label::empty(rt.alloc()),
        address: None,
        until: LeaseEnd::never(),
        keepalive: 0,
    };
    ask(rt, register, token, &command)
}

// What the network `office` of the tenant whose token repeats the byte answers.
fn ask(
    rt: &(impl Abort + AllocGlobal),
    register: &mut Register,
    token: u8,
    command: &Command,
) -> Vec<u8> {
    let office = name(rt, "office");
    let answer = register
        .ask(rt.alloc(), &[token; 32], &office, 0, command)
        .expect(rt, "memory");
    shown(rt, &answer)
}

// Lets 100 peers join the network `office` of bolt's, but for the one that has the server's key.
fn crowd_office<S: Alter + Drop>(
    rt: &(impl Abort + AllocGlobal),
    stored: &mut wgr_register::Register<S>,
    plain: &mut Register,
) {
    for key in 1..=101u8 {
        let mut line = Shown::new(rt);
        line.put("add 2 office ");
        line.put_number(u64::from(key));
        let line = line.into_text();
        take(
            rt,
            stored,
            plain,
            0,
            str::from_utf8(line.as_slice()).expect(rt, "a text"),
        );
    }
}

// What bolt asks after each request of acme's.
const BESIDE: [Step<'static>; 3] = [
    (1000, "list 2 lab", "no_such_network"),
    (1000, "add 2 office 1", "key_held 1"),
    (
        1000,
        "route 2 office 1 10.8.0.0/24",
        "1 10.9.0.2/32 10.8.0.0/24",
    ),
];

// Acme gets the same answers if there is bolt, who has a network of the same name, with the same keys.
fn check_beside<S: Alter + Drop>(rt: &(impl Abort + AllocGlobal), conn: Connection<S>) {
    let mut stored = stored::empty(rt, conn);
    let mut plain = Register::new(rt.alloc());
    stored::run(rt, &mut stored, &mut plain, &BOLT);
    crowd_office(rt, &mut stored, &mut plain);
    stored::run(rt, &mut stored, &mut plain, &OFFICE);
    for step in ASKED {
        stored::run(rt, &mut stored, &mut plain, &[step]);
        stored::run(rt, &mut stored, &mut plain, &BESIDE);
    }
    let _conn = stored.into_connection();
}

#[test]
fn two_worlds_are_alike(rt: HostRuntime) {
    stored::check(&rt, &[&OFFICE, &ASKED]);
    check_beside(&rt, in_memory(&rt));
    check_beside(&rt, in_new_files(&rt));
}

// Office assigns the addresses from 10.8.0.2 to 10.8.0.254, and then refuses.
fn given(rt: &(impl Abort + AllocGlobal), last: u8) -> Vec<u8> {
    let mut shown = Shown::new(rt);
    if last == 254 {
        shown.put("pool_full");
    } else {
        shown.put_number(u64::from(last));
        shown.put(" 10.8.0.");
        shown.put_number(u64::from(last) + 1);
        shown.put("/32");
    }
    shown.into_text()
}

#[test]
fn a_long_list_of_events(rt: HostRuntime) {
    let mut register = Register::new(rt.alloc());
    check(&rt, &mut register, &OFFICE);
    for last in 1..=254u8 {
        let mut key = [0xaa; 32];
        key[31] = last;
        assert_eq!(rt;
            add(&rt, &mut register, 1, key).as_slice(),
            given(&rt, last).as_slice()
        );
        check(
            &rt,
            &mut register,
            &[
                (0, "list 7 office", "unknown_token"),
                (0, "tenant acme", "name_held"),
            ],
        );
    }
}

#[test]
fn an_ask_among_2000_peers(rt: HostRuntime) {
    let mut register = Register::new(rt.alloc());
    check(&rt, &mut register, &OFFICE[..2]);
    check(
        &rt,
        &mut register,
        &[(
            0,
            "network acme office 10.100.0.0/16 vpn.example.net 51820",
            "done",
        )],
    );
    let command = adoption(&rt, &crowd(&rt, 2000).peers);
    let adopted = ask(&rt, &mut register, 1, &command);
    assert!(rt; adopted.ends_with(b" 1999 2000 known 0"));
    assert_eq!(rt;
        add(&rt, &mut register, 1, [8; 32]).as_slice(),
        b"2001 10.100.0.2/32".as_slice()
    );
}

fn put_answer(
    rt: &(impl Abort + AllocGlobal),
    answer: &Option<Answer>,
    text: &mut Shown<'_, impl Abort + AllocGlobal>,
) {
    match answer {
        Some(answer) => put_shown(rt, answer, text),
        None => panic!(rt; "no answer"),
    }
    text.put(".");
}

// The answers to a list of events, each followed by a dot.
fn told(rt: &(impl Abort + AllocGlobal), register: &mut Register, events: &[Event]) -> Vec<u8> {
    let answers = register.run(rt.alloc(), events).expect(rt, "memory");
    let mut text = Shown::new(rt);
    for answer in &answers {
        put_answer(rt, answer, &mut text);
    }
    text.into_text()
}

#[test]
fn ended_tokens_open_nothing(rt: HostRuntime) {
    let mut register = Register::new(rt.alloc());
    assert!(rt; told(&rt, &mut register, &[]).is_empty());
    check(&rt, &mut register, &OFFICE);
    let mut events = Vec::new(rt.alloc());
    for line in ["list 1 office", "end-token 1", "list 1 office"] {
        events.push(event(&rt, 0, line)).expect(&rt, "memory");
    }
    assert_eq!(rt;
        told(&rt, &mut register, &events).as_slice(),
        b".done.unknown_token.".as_slice()
    );
}
