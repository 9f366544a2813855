//! Commands on one network, each with its moment and what it answers. Scripts are lines of words, so
//! that a test is a table:
//!
//! - `add KEY [ADDRESS] [END]`, `move NUMBER [ADDRESS]`, `revoke NUMBER`, `route NUMBER PREFIX`,
//!   `unroute PREFIX`, `renew NUMBER END`, `list` and `owner ADDRESS`, where `KEY` is the byte that
//!   a key repeats and `-` an address that is not named;
//! - `server FORM` and `file NUMBER FORM`;
//! - `adopt KEY|LINE|..`, where `KEY` is the interface's or `-` for none, and a line is
//!   `KEY HANDSHAKE KEEPALIVE [PREFIX ..]`.
//!
//! Answers are written as `shown.rt` says.
ghost use Rattle.wgr_core.specs.Change.{Fits};

mod adopt;
mod commands;
mod expired;
mod fields;
mod files;
mod parts;
mod refusals;

use crate::fixtures::{address, byte, end, key, network, number, peer_number, prefix};
use crate::shown::Shown;
use std::alloc::AllocGlobal;
use std::process::Abort;
use std::str::Split;
use wgr_core::{
    ActFault, Change, Command, Count, Form, Items, Label, Network, Parts, Peer, Reply, SeenPeer,
    Status,
};
use wgr_text::{Addr, Prefix};

type Words<'a> = Split<'a, char>;

// The next word, or an empty one.
fn word<'a>(words: &mut Words<'a>) -> &'a str {
    words.next().unwrap_or("")
}

// The address of a word, or none where it is `-` or empty.
fn named(rt: &(impl Abort + AllocGlobal), text: &str) -> Option<Addr> {
    match text {
        "" | "-" => None,
        text => Some(address(rt, text)),
    }
}

fn add(rt: &(impl Abort + AllocGlobal), words: &mut Words<'_>) -> Command {
    let byte = byte(rt, word(words));
    let address = named(rt, word(words));
    let until = word(words);
    Command::Add {
        key: key(byte),
        label: Label::empty(rt.alloc()),
        address,
        until: end(
            rt,
            if until.is_empty() {
                0
            } else {
                number(rt, until)
            },
        ),
        keepalive: 0,
    }
}

fn form(text: &str) -> Form {
    if text == "wg" { Form::Wg } else { Form::Quick }
}

/// The command of a word and of those that follow it.
pub(crate) fn command(rt: &(impl Abort + AllocGlobal), name: &str, rest: &str) -> Command {
    let mut words = rest.split(' ');
    match name {
        "add" => add(rt, &mut words),
        "list" => Command::List,
        "adopt" => adoption(rt, rest),
        "unroute" => Command::Unroute {
            prefix: prefix(rt, word(&mut words)),
        },
        "owner" => Command::Owner {
            address: address(rt, word(&mut words)),
        },
        "server" => Command::ServerFile {
            form: form(word(&mut words)),
        },
        _ => numbered(
            rt,
            name,
            peer_number(rt, word(&mut words)),
            word(&mut words),
        ),
    }
}

// A command about the peer of a number.
fn numbered(rt: &(impl Abort + AllocGlobal), name: &str, number: u32, text: &str) -> Command {
    match name {
        "move" => Command::Move {
            number,
            address: named(rt, text),
        },
        "revoke" => Command::Revoke { number },
        "route" => Command::Route {
            number,
            prefix: prefix(rt, text),
        },
        "renew" => Command::Renew {
            number,
            until: end(rt, crate::fixtures::number(rt, text)),
        },
        "file" => Command::PeerFile {
            number,
            form: form(text),
        },
        _ => panic!(rt; "no such command"),
    }
}

fn allowed(rt: &(impl Abort + AllocGlobal), words: &mut Words<'_>) -> Items<Prefix> {
    let mut allowed = Items::new(rt.alloc());
    for word in words {
        allowed.push(prefix(rt, word)).expect(rt, "memory");
    }
    allowed
}

fn seen_peer(rt: &(impl Abort + AllocGlobal), line: &str) -> SeenPeer {
    let mut words = line.split(' ');
    let byte = byte(rt, word(&mut words));
    let handshake = number(rt, word(&mut words));
    let keepalive = u16::try_from(number(rt, word(&mut words))).expect(rt, "an interval");
    SeenPeer {
        key: key(byte),
        allowed: allowed(rt, &mut words),
        status: Status {
            handshake: Count::new(handshake),
            received: Count::new(0),
            sent: Count::new(0),
        },
        keepalive,
    }
}

// What the interface's key and the lines ask for; bars separate them.
fn adoption(rt: &(impl Abort + AllocGlobal), text: &str) -> Command {
    let mut parts = text.split('|');
    let server = match word(&mut parts) {
        "-" => None,
        text => Some(key(byte(rt, text))),
    };
    let mut lines = Items::new(rt.alloc());
    for line in parts {
        lines.push(seen_peer(rt, line)).expect(rt, "memory");
    }
    Command::Adopt { server, lines }
}

fn is_same_peer(one: &Peer, other: &Peer) -> bool {
    one.number == other.number
        && one.key == other.key
        && one.label.as_str() == other.label.as_str()
        && one.keepalive == other.keepalive
        && one.address == other.address
        && one.until == other.until
        && one.status == other.status
}

fn has_settings_of(one: &Network, other: &Network) -> bool {
    one.pool().prefix() == other.pool().prefix()
        && one.host().as_str() == other.host().as_str()
        && one.port() == other.port()
        && one.server_key() == other.server_key()
        && one.capacity() == other.capacity()
}

/// Whether both networks have the same settings, peers and routes.
pub(crate) fn is_same(one: &Network, other: &Network) -> bool {
    let (peers, others) = (one.peers(), other.peers());
    has_settings_of(one, other)
        && one.next() == other.next()
        && one.routes() == other.routes()
        && peers.len() == others.len()
        && peers
            .iter()
            .zip(others)
            .all(|(peer, other)| is_same_peer(peer, other))
}

/// Makes the change both ways.
pub(crate) fn make(rt: &(impl Abort + AllocGlobal), network: &mut Network, change: Change)
    requires { Fits change network.old }
{
    let copy = change.apply(rt.alloc(), network).expect(rt, "memory");
    network.apply(rt.alloc(), change).expect(rt, "memory");
    assert!(rt; is_same(&copy, network));
}

fn replied(rt: &(impl Abort + AllocGlobal), reply: &Reply) -> Vec<u8> {
    let mut shown = Shown::new(rt);
    shown.put_reply(reply);
    shown.into_text()
}

fn refused(rt: &(impl Abort + AllocGlobal), fault: &ActFault) -> Vec<u8> {
    let mut shown = Shown::new(rt);
    match fault {
        ActFault::Refused(why) => shown.put_refusal(why),
        ActFault::NoMemory => panic!(rt; "no memory"),
    }
    shown.into_text()
}

/// What the network answers; a change is made both ways.
pub(crate) fn answer(
    rt: &(impl Abort + AllocGlobal),
    network: &mut Network,
    now: u64,
    command: &Command,
) -> Vec<u8> {
    match network.act(rt.alloc(), now, command) {
        Ok((reply, given)) => {
            if let Some(change) = given {
                make(rt, network, change);
            }
            replied(rt, &reply)
        }
        Err(fault) => refused(rt, &fault),
    }
}

/// A line of a script: the moment, the command, and what it answers.
pub(crate) type Step<'a> = (u64, &'a str, &'a str);

/// The answer to a line.
pub(crate) fn said(
    rt: &(impl Abort + AllocGlobal),
    network: &mut Network,
    now: u64,
    line: &str,
) -> Vec<u8> {
    let (name, rest) = line.split_once(' ').unwrap_or((line, ""));
    let command = command(rt, name, rest);
    answer(rt, network, now, &command)
}

/// Runs the lines on the network.
pub(crate) fn run(rt: &(impl Abort + AllocGlobal), network: &mut Network, script: &[Step<'_>]) {
    for (now, line, want) in script {
        let said = said(rt, network, *now, line);
        assert_eq!(rt; said.as_slice(), want.as_bytes(), "{line}");
    }
}

/// Runs the lines on the network of these parts.
pub(crate) fn check(rt: &(impl Abort + AllocGlobal), parts: Parts, script: &[Step<'_>]) {
    run(rt, &mut network(rt, parts), script);
}
