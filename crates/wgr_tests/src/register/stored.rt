//! The register in a database, compared with the plain one. Both answer each event alike, and
//! an accepted request returns the same.
use super::{event, put_refused, put_shown, shown};
use crate::disks::{in_memory, in_new_files};
use crate::network::Step;
use crate::shown::Shown;
use sqlite::{Alter, Connection};
use std::alloc::{AllocError, AllocGlobal, Global};
use std::process::Abort;
use wgr_conf::{peer_file, server_file};
use wgr_core::{Command, Name, Network, Reply};
use wgr_orders::Order;
use wgr_plain::{Answer, Event};
use wgr_register::{AskFault, Given, OpenFault, OrderFault, Register, RegisterFault, Render};

/// The plain register's answer to an event.
#[derive(Drop)]
pub(super) struct Meant {
    /// The answer, as `shown.rt` writes it.
    pub(super) shown: Vec<u8>,
    // What is returned, if a request is accepted.
    given: Option<Vec<u8>>,
}

impl Meant {
    /// A request that is accepted and gives this text.
    pub(super) fn giving(rt: &(impl Abort + AllocGlobal), want: &str) -> Meant {
        let mut text = Shown::new(rt);
        text.put(want);
        Meant {
            shown: Vec::new(rt.alloc()),
            given: Some(text.into_text()),
        }
    }

    /// What the register in a database reports: for an accepted request, that it returned a text.
    pub(super) fn told(&self) -> &[u8] {
        match &self.given {
            Some(_) => b"done",
            None => self.shown.as_slice(),
        }
    }
}

// The networks with their pools, endpoints and capacities.
fn put_networks(networks: &[(Name, Network)], text: &mut Shown<'_, impl Abort + AllocGlobal>) {
    for entry in networks {
        text.separate("; ");
        text.put(entry.0.as_str());
        text.put_prefix(&entry.1.pool().prefix());
        text.put(" ");
        text.put(entry.1.host().as_str());
        text.put(" ");
        text.put_number(u64::from(entry.1.port().number()));
        text.put(" ");
        text.put_number(u64::from(entry.1.capacity().peers()));
    }
}

// What a command's reply returns: a file if it allows one.
fn given_reply(
    rt: &(impl Abort + AllocGlobal),
    reply: &Reply,
    network: &Network,
    now: u64,
) -> Vec<u8> {
    match reply {
        Reply::Server(form) => { server_file(rt.alloc(), network, now, *form).expect(rt, "memory") }
        Reply::File { number, form } => peer_file(rt.alloc(), network, now, *number, *form)
            .expect(rt, "memory")
            .expect(rt, "a peer"),
        _ => {
            let mut text = Shown::new(rt);
            text.put_reply(reply);
            text.into_text()
        }
    }
}

fn given_by(rt: &(impl Abort + AllocGlobal), answer: &Answer, now: u64) -> Option<Vec<u8>> {
    match answer {
        Answer::Replied(reply, network) => Some(given_reply(rt, reply, network, now)),
        Answer::Listed(networks) => {
            let mut text = Shown::new(rt);
            put_networks(networks.as_slice(), &mut text);
            Some(text.into_text())
        }
        _ => None,
    }
}

fn moment(event: &Event) -> u64 {
    match event {
        Event::Ask { now, .. } => *now,
        _ => 0,
    }
}

/// The plain register's answer to the event.
pub(super) fn answer_meant(
    rt: &(impl Abort + AllocGlobal),
    plain: &mut wgr_plain::Register,
    event: &Event,
) -> Meant {
    let answer = plain.answer(rt.alloc(), event).expect(rt, "memory");
    Meant {
        shown: shown(rt, &answer),
        given: given_by(rt, &answer, moment(event)),
    }
}

// Ends the test unless what is returned is what the plain register returns.
#[derive(Drop)]
struct Wanted<'a, R> {
    rt: &'a R,
    meant: &'a Meant,
}

impl<'a, R: Abort + AllocGlobal> Render for Wanted<'a, R> {
    ghost use Rattle.std.specs.Prelude.{codes};

    ghost shown = { λ _. codes "done" };

    fn given(&self, alloc: Global, given: Given<'_>) -> Result<Vec<u8>, AllocError> {
        check_given(self.rt, self.meant, given);
        let mut text = Vec::new(alloc);
        text.extend_from_slice(b"done")?;
        Ok(text)
    }
}

fn check_given(rt: &(impl Abort + AllocGlobal), meant: &Meant, given: Given<'_>) {
    let mut text = Shown::new(rt);
    match given {
        Given::Reply(reply) => text.put_reply(reply),
        Given::File(file) => text.put_bytes(file),
        Given::Networks(networks) => put_networks(networks, &mut text),
    }
    match &meant.given {
        Some(want) => assert_eq!(rt; text.into_text().as_slice(), want.as_slice()),
        None => panic!(rt; "an accepted request"),
    }
}

fn put_order<S: Alter + Drop>(
    rt: &(impl Abort + AllocGlobal),
    register: &mut Register<S>,
    order: &Order,
    text: &mut Shown<'_, impl Abort + AllocGlobal>,
) {
    match register.operate(rt.alloc(), order) {
        Ok(_) => text.put("done"),
        Err(OrderFault::Refused(why)) => put_refused(rt, &why, text),
        Err(OrderFault::Fault(_)) => text.put("fault"),
    }
}

fn put_asked(
    rt: &impl Abort,
    asked: &Result<Vec<u8>, AskFault>,
    text: &mut Shown<'_, impl Abort + AllocGlobal>,
) {
    match asked {
        Ok(given) => text.put_bytes(given.as_slice()),
        Err(AskFault::Refused(why)) => text.put_refusal(why),
        Err(AskFault::UnknownToken) => text.put("unknown_token"),
        Err(AskFault::ReadOnly) => text.put("read_only"),
        Err(AskFault::NoSuchNetwork) => text.put("no_such_network"),
        Err(AskFault::Fault(_)) => text.put("fault"),
    }
}

fn put_ask<S: Alter, R: Render>(
    rt: &(impl Abort + AllocGlobal),
    register: &mut Register<S>,
    digest: &[u8; 32],
    name: &Name,
    now: u64,
    command: &Command,
    render: &R,
    text: &mut Shown<'_, impl Abort + AllocGlobal>,
) {
    let asked = register.ask(rt.alloc(), digest, name.as_bytes(), now, command, render);
    put_asked(rt, &asked, text);
}

fn put_list<S: Alter, R: Render>(
    rt: &(impl Abort + AllocGlobal),
    register: &mut Register<S>,
    digest: &[u8; 32],
    render: &R,
    text: &mut Shown<'_, impl Abort + AllocGlobal>,
) {
    let asked = register.networks(rt.alloc(), digest, render);
    put_asked(rt, &asked, text);
}

/// The answer to the event of the register in a database: `fault` if memory or the store fails.
/// The test ends unless what is returned is as expected.
pub(super) fn told<S: Alter + Drop>(
    rt: &(impl Abort + AllocGlobal),
    register: &mut Register<S>,
    event: &Event,
    meant: &Meant,
) -> Vec<u8> {
    let render = Wanted { rt, meant };
    let mut text = Shown::new(rt);
    match event {
        Event::Order(order) => put_order(rt, register, order, &mut text),
        Event::Ask {
            digest,
            name,
            now,
            command,
        } => put_ask(
            rt, register, digest, name, *now, command, &render, &mut text,
        ),
        Event::Networks { digest } => put_list(rt, register, digest, &render, &mut text),
    }
    text.into_text()
}

/// Applies the event to both registers, and returns its answer.
pub(super) fn take<S: Alter + Drop>(
    rt: &(impl Abort + AllocGlobal),
    register: &mut Register<S>,
    plain: &mut wgr_plain::Register,
    now: u64,
    line: &str,
) -> Vec<u8> {
    let event = event(rt, now, line);
    let meant = answer_meant(rt, plain, &event);
    let told = told(rt, register, &event, &meant);
    assert_eq!(rt; told.as_slice(), meant.told(), "{line}");
    meant.shown
}

// Applies the event of the line, at its moment, to both registers.
fn take_step<S: Alter + Drop>(
    rt: &(impl Abort + AllocGlobal),
    register: &mut Register<S>,
    plain: &mut wgr_plain::Register,
    step: &Step<'_>,
) {
    let (now, line, want) = step;
    let shown = take(rt, register, plain, *now, line);
    assert_eq!(rt; shown.as_slice(), want.as_bytes(), "{line}");
}

/// Applies the events of the lines to both registers.
pub(super) fn run<S: Alter + Drop>(
    rt: &(impl Abort + AllocGlobal),
    register: &mut Register<S>,
    plain: &mut wgr_plain::Register,
    script: &[Step<'_>],
) {
    for step in script {
        take_step(rt, register, plain, step);
    }
}

/// Makes a register of the connection, or reports why none was made.
pub(super) fn created<S: Alter + Drop>(
    rt: &impl Abort,
    conn: Connection<S>,
) -> Result<Register<S>, RegisterFault> {
    assert!(rt; conn.is_autocommit());
    match Register::create(conn) {
        Ok(register) => Ok(register),
        Err(
            OpenFault {
                fault,
                connection: _conn,
            },
        ) => Err(fault),
    }
}

/// Opens the register of the connection, or reports why there is none.
pub(super) fn opened<S: Alter + Drop>(
    rt: &(impl Abort + AllocGlobal),
    conn: Connection<S>,
) -> Result<Register<S>, RegisterFault> {
    assert!(rt; conn.is_autocommit());
    match Register::open(rt.alloc(), conn) {
        Ok(register) => Ok(register),
        Err(
            OpenFault {
                fault,
                connection: _conn,
            },
        ) => Err(fault),
    }
}

/// A register without entries.
pub(super) fn empty<S: Alter + Drop>(rt: &impl Abort, conn: Connection<S>) -> Register<S> {
    created(rt, conn).expect(rt, "a register")
}

fn check_on<S: Alter + Drop>(
    rt: &(impl Abort + AllocGlobal),
    conn: Connection<S>,
    scripts: &[&[Step<'_>]],
) {
    let mut register = empty(rt, conn);
    let mut plain = wgr_plain::Register::new(rt.alloc());
    for script in scripts {
        run(rt, &mut register, &mut plain, script);
    }
    let _conn = register.into_connection();
}

// Applies the events of the lines to both registers. Before each, the one in a database is opened anew, so no
// network is in memory.
fn run_anew<S: Alter + Drop>(
    rt: &(impl Abort + AllocGlobal),
    mut register: Register<S>,
    plain: &mut wgr_plain::Register,
    script: &[Step<'_>],
) -> Register<S> {
    for step in script {
        register = opened(rt, register.into_connection()).expect(rt, "a register");
        take_step(rt, &mut register, plain, step);
    }
    register
}

fn check_anew<S: Alter + Drop>(
    rt: &(impl Abort + AllocGlobal),
    conn: Connection<S>,
    scripts: &[&[Step<'_>]],
) {
    let mut register = empty(rt, conn);
    let mut plain = wgr_plain::Register::new(rt.alloc());
    for script in scripts {
        register = run_anew(rt, register, &mut plain, script);
    }
    let _conn = register.into_connection();
}

/// Runs the scripts, one after the other, on registers without entries: plain, in memory and in files. One in
/// memory is opened anew before each event, so that new peers and owners are answered by rows.
pub(super) fn check(rt: &(impl Abort + AllocGlobal), scripts: &[&[Step<'_>]]) {
    check_on(rt, in_memory(rt), scripts);
    check_on(rt, in_new_files(rt), scripts);
    check_anew(rt, in_memory(rt), scripts);
}

/// Networks `office` and `kit` of acme's, whose token is of ones, and `office` and `lab` of bolt's.
pub(super) const NETWORKS: [Step<'static>; 8] = [
    (0, "tenant acme", "done"),
    (0, "tenant bolt", "done"),
    (0, "grant acme 1", "done"),
    (0, "grant bolt 2", "done"),
    (0, "network acme office 10.8.0.0/24 h 1", "done"),
    (0, "network bolt office 10.9.0.0/24 h 2", "done"),
    (0, "network bolt lab 10.10.0.0/24 h 3", "done"),
    (0, "network acme kit 10.11.0.0/24 h 4", "done"),
];
