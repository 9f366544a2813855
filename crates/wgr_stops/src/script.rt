//! The steps, done on a register.
use crate::steps::{Asked, FILE, STEPS, Step};
use sqlite::Alter;
use std::alloc::{AllocError, AllocGlobal, Global};
use std::process::Abort;
use wgr_core::{Capacity, Command, Form, Host, Label, LeaseEnd, Name, Port};
use wgr_dump::Dump;
use wgr_orders::Settings;
use wgr_register::{AskFault, Given, Order, OrderFault, Register, Render};
use wgr_request::adoption_of;
use wgr_text::{Key, Prefix, read_loose};

// Ends the test where a file or a list isn't that of acme's.
#[derive(Drop)]
struct Acme<'a, R> {
    rt: &'a R,
}

impl<'a, R: Abort> Render for Acme<'a, R> {
    ghost use Rattle.std.specs.Prelude.{[]};

    ghost shown = { λ _. [] };

    fn given(&self, alloc: Global, given: Given<'_>) -> Result<Vec<u8>, AllocError> {
        check_given(self.rt, given);
        Ok(Vec::new(alloc))
    }
}

fn check_given(rt: &impl Abort, given: Given<'_>) {
    match given {
        Given::Reply(_) => {}
        Given::File(file) => assert_eq!(rt; file, FILE.as_bytes()),
        Given::Networks(networks) => {
            assert_eq!(rt; networks.len(), 1);
            for entry in networks {
                assert_eq!(rt; entry.0.as_str(), "office");
            }
        }
    }
}

fn name(rt: &(impl Abort + AllocGlobal), text: &str) -> Name {
    Name::read(rt.alloc(), text.as_bytes())
        .expect(rt, "memory")
        .expect(rt, "a name")
}

fn host(rt: &(impl Abort + AllocGlobal), text: &str) -> Host {
    Host::read(rt.alloc(), text.as_bytes())
        .expect(rt, "memory")
        .expect(rt, "a host")
}

// A network with this pool. Its endpoint has a host of its own, of the network's name.
fn settings(rt: &(impl Abort + AllocGlobal), name: &str, pool: &str) -> Settings {
    let (address, length) = read_loose(pool.as_bytes()).expect(rt, "a prefix");
    Settings {
        address,
        length,
        host: host(rt, name),
        port: Port::new(51820).expect(rt, "a port"),
        server: Key([9; 32]),
        capacity: Capacity::new(16).expect(rt, "a capacity"),
    }
}

fn order(rt: &(impl Abort + AllocGlobal), step: &Step) -> Order {
    match step {
        Step::Tenant(tenant) => Order::AddTenant {
            name: name(rt, tenant),
        },
        Step::Grant(tenant, token, right) => Order::Grant {
            tenant: name(rt, tenant),
            digest: [*token; 32],
            right: *right,
        },
        Step::EndToken(token) => Order::EndToken {
            digest: [*token; 32],
        },
        Step::Network(tenant, network, pool) => Order::AddNetwork {
            tenant: name(rt, tenant),
            name: name(rt, network),
            settings: settings(rt, network, pool),
        },
        Step::End(tenant, network) => Order::EndNetwork {
            tenant: name(rt, tenant),
            name: name(rt, network),
        },
        Step::Ask(_, _, _) | Step::List(_) => panic!(rt; "no order"),
    }
}

// The command by which the peers of the dump are adopted.
fn taking(rt: &(impl Abort + AllocGlobal), dump: &str) -> Command {
    match Dump::open(dump.as_bytes()) {
        Ok(dump) => adoption_of(rt.alloc(), &dump).expect(rt, "memory"),
        Err(_) => panic!(rt; "no dump"),
    }
}

fn prefix(rt: &impl Abort, text: &str) -> Prefix {
    let (address, length) = read_loose(text.as_bytes()).expect(rt, "a prefix");
    Prefix::masked(address, length).expect(rt, "a mask")
}

fn command(rt: &(impl Abort + AllocGlobal), asked: &Asked) -> Command {
    match asked {
        Asked::Take(dump) => taking(rt, dump),
        Asked::Add(byte) => Command::Add {
            key: Key([*byte; 32]),
            label: Label::empty(rt.alloc()),
            address: None,
            until: LeaseEnd::never(),
            keepalive: 0,
        },
        Asked::Route(number, text) => Command::Route {
            number: *number,
            prefix: prefix(rt, text),
        },
        Asked::Revoke(number) => Command::Revoke { number: *number },
        Asked::File => Command::ServerFile { form: Form::Wg },
    }
}

// Whether a request is answered and not ended by a fault.
fn is_answered(rt: &impl Abort, asked: &Result<Vec<u8>, AskFault>) -> bool {
    match asked {
        Ok(_) => true,
        Err(AskFault::Fault(_)) => false,
        Err(_) => panic!(rt; "a request is refused"),
    }
}

fn is_ordered<S: Alter>(
    rt: &(impl Abort + AllocGlobal),
    register: &mut Register<S>,
    order: &Order,
) -> bool {
    match register.operate(rt.alloc(), order) {
        Ok(_) => true,
        Err(OrderFault::Fault(_)) => false,
        Err(OrderFault::Refused(_)) => panic!(rt; "an order is refused"),
    }
}

fn is_asked<S: Alter>(
    rt: &(impl Abort + AllocGlobal),
    register: &mut Register<S>,
    token: u8,
    network: &str,
    command: &Command,
) -> bool {
    let asked = register.ask(
        rt.alloc(),
        &[token; 32],
        network.as_bytes(),
        0,
        command,
        &Acme { rt },
    );
    is_answered(rt, &asked)
}

fn is_listed<S: Alter>(
    rt: &(impl Abort + AllocGlobal),
    register: &mut Register<S>,
    token: u8,
) -> bool {
    let asked = register.networks(rt.alloc(), &[token; 32], &Acme { rt });
    is_answered(rt, &asked)
}

/// Whether the step is done, and not ended by a fault. A wrong value returned to acme ends the test,
/// and so does a refusal.
pub(crate) fn is_done<S: Alter>(
    rt: &(impl Abort + AllocGlobal),
    register: &mut Register<S>,
    step: &Step,
) -> bool {
    match step {
        Step::Ask(token, network, asked) => {
            is_asked(rt, register, *token, network, &command(rt, asked))
        }
        Step::List(token) => is_listed(rt, register, *token),
        _ => is_ordered(rt, register, &order(rt, step)),
    }
}

/// Does the steps from this place on, until one is ended by a fault; the place of that one.
pub(crate) fn take_from<S: Alter>(
    rt: &(impl Abort + AllocGlobal),
    register: &mut Register<S>,
    first: usize,
) -> usize {
    for (at, step) in STEPS.iter().enumerate() {
        if at >= first && !is_done(rt, register, step) {
            return at;
        }
    }
    STEPS.len()
}
