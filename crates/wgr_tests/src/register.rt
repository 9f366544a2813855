//! The register of many tenants: the results of events, one after the other. Events are lines of words,
//! so that a test is a table:
//!
//! - `tenant NAME`, `grant TENANT TOKEN [RIGHT]`, `end-token TOKEN`, `network TENANT NAME POOL HOST PORT
//!   CAPACITY`, where the capacity may be left out, and `end-network TENANT NAME`;
//! - `networks TOKEN`;
//! - `list TOKEN NETWORK` and each other command as `network.rt` writes it, with `TOKEN NETWORK`
//!   after its first word;
//!
//! where `TOKEN` is the byte that a digest repeats. Answers are written as `shown.rt` says, and
//! networks are answered by their names.
mod answered;
mod files;
mod migrated;
mod opened;
mod orders;
mod random;
mod rights;
mod stored;
mod worlds;

use crate::fixtures::{byte, capacity, host, key, number, port};
use crate::network::{Step, command};
use crate::shown::Shown;
use std::alloc::AllocGlobal;
use std::process::Abort;
use std::str::Split;
use wgr_core::{Name, Network};
use wgr_orders::{Order, OrderRefusal, Right, Settings};
use wgr_plain::{Answer, Event, Register};
use wgr_text::read_loose;

type Words<'a> = Split<'a, char>;

fn word<'a>(words: &mut Words<'a>) -> &'a str {
    words.next().unwrap_or("")
}

fn name(rt: &(impl Abort + AllocGlobal), text: &str) -> Name {
    Name::read(rt.alloc(), text.as_bytes())
        .expect(rt, "memory")
        .expect(rt, "a name")
}

fn next_name(rt: &(impl Abort + AllocGlobal), words: &mut Words<'_>) -> Name {
    name(rt, word(words))
}

fn digest(rt: &(impl Abort + AllocGlobal), text: &str) -> [u8; 32] {
    [byte(rt, text); 32]
}

// How many peers a network may have, 4,096 if no word gives it.
fn room(rt: &(impl Abort + AllocGlobal), text: &str) -> u16 {
    if text.is_empty() {
        return 4096;
    }
    u16::try_from(number(rt, text)).expect(rt, "a capacity")
}

fn settings(rt: &(impl Abort + AllocGlobal), words: &mut Words<'_>) -> Settings {
    let (address, length) = read_loose(word(words).as_bytes()).expect(rt, "a prefix");
    let host = host(rt, word(words));
    let number = u16::try_from(number(rt, word(words))).expect(rt, "a port");
    let room = room(rt, word(words));
    Settings {
        address,
        length,
        host,
        port: port(rt, number),
        server: key(9),
        capacity: capacity(rt, room),
    }
}

// The right that a word names, the full one where there is none.
fn right(rt: &impl Abort, text: &str) -> Right {
    match text {
        "" | "full" => Right::Full,
        "read" => Right::Read,
        _ => panic!(rt; "no such right"),
    }
}

fn order(rt: &(impl Abort + AllocGlobal), kind: &str, rest: &str) -> Order {
    let mut words = rest.split(' ');
    match kind {
        "tenant" => Order::AddTenant {
            name: next_name(rt, &mut words),
        },
        "grant" => Order::Grant {
            tenant: next_name(rt, &mut words),
            digest: digest(rt, word(&mut words)),
            right: right(rt, word(&mut words)),
        },
        "end-token" => Order::EndToken {
            digest: digest(rt, word(&mut words)),
        },
        "network" => Order::AddNetwork {
            tenant: next_name(rt, &mut words),
            name: next_name(rt, &mut words),
            settings: settings(rt, &mut words),
        },
        "end-network" => Order::EndNetwork {
            tenant: next_name(rt, &mut words),
            name: next_name(rt, &mut words),
        },
        _ => panic!(rt; "no such order"),
    }
}

// The first word of a text, and the rest of it.
fn first_word(text: &str) -> (&str, &str) {
    text.split_once(' ').unwrap_or((text, ""))
}

// A command to a network, whose first word is followed by the token and the network.
fn ask(rt: &(impl Abort + AllocGlobal), now: u64, kind: &str, rest: &str) -> Event {
    let (token, rest) = first_word(rest);
    let (network, rest) = first_word(rest);
    Event::Ask {
        digest: digest(rt, token),
        name: name(rt, network),
        now,
        command: command(rt, kind, rest),
    }
}

fn event(rt: &(impl Abort + AllocGlobal), now: u64, line: &str) -> Event {
    let (kind, rest) = first_word(line);
    match kind {
        "networks" => Event::Networks {
            digest: digest(rt, rest),
        },
        "tenant" | "grant" | "end-token" | "network" | "end-network" => {
            Event::Order(order(rt, kind, rest))
        }
        _ => ask(rt, now, kind, rest),
    }
}

fn put_names(networks: &[(Name, Network)], text: &mut Shown<'_, impl Abort + AllocGlobal>) {
    for entry in networks {
        text.separate(" ");
        text.put(entry.0.as_str());
    }
}

fn put_refused(
    rt: &(impl Abort + AllocGlobal),
    why: &OrderRefusal,
    text: &mut Shown<'_, impl Abort + AllocGlobal>,
) {
    let why = why.to_string(rt.alloc()).expect(rt, "memory");
    text.put(&why);
}

fn put_shown(
    rt: &(impl Abort + AllocGlobal),
    answer: &Answer,
    text: &mut Shown<'_, impl Abort + AllocGlobal>,
) {
    match answer {
        Answer::Replied(reply, _) => text.put_reply(reply),
        Answer::Declined(why) => text.put_refusal(why),
        Answer::Listed(networks) => put_names(networks.as_slice(), text),
        Answer::UnknownToken => text.put("unknown_token"),
        Answer::ReadOnly => text.put("read_only"),
        Answer::NoSuchNetwork => text.put("no_such_network"),
        Answer::Done => text.put("done"),
        Answer::Refused(why) => put_refused(rt, why, text),
    }
}

fn shown(rt: &(impl Abort + AllocGlobal), answer: &Answer) -> Vec<u8> {
    let mut text = Shown::new(rt);
    put_shown(rt, answer, &mut text);
    text.into_text()
}

// The answer to the event of a line.
fn said(rt: &(impl Abort + AllocGlobal), register: &mut Register, now: u64, line: &str) -> Vec<u8> {
    let event = event(rt, now, line);
    let answer = register.answer(rt.alloc(), &event).expect(rt, "memory");
    shown(rt, &answer)
}

// Applies the events of the lines, each at its moment.
fn check(rt: &(impl Abort + AllocGlobal), register: &mut Register, script: &[Step<'_>]) {
    for (now, line, want) in script {
        let said = said(rt, register, *now, line);
        assert_eq!(rt; said.as_slice(), want.as_bytes(), "{line}");
    }
}
