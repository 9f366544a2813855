//! Tenants' requests, from their bytes to the bytes of the replies.
ghost use Rattle.std.specs.Prelude.{◌≡◌, ◌≤◌, ℕ, List, length, true, IfErr, IfOk, OnErr, OnOk};
ghost use Rattle.std.specs.declared.vec.Vec.{Vec};
ghost use Rattle.std.specs.declared.alloc.Global.{Global};
ghost use Rattle.sqlite.specs.Effect.{Database};
ghost use Rattle.sqlite.specs.State.{HasCleanDisk};
ghost use Rattle.sqlite.specs.Held.{state};
ghost use Rattle.wgr_model.specs.Steps.{Event, IsProper};
ghost use Rattle.wgr_office.specs.Between.{HasPassed, IsCall, Keeps};
ghost use Rattle.wgr_office.specs.Events.{HasRun, IsOrderAnswer};
ghost use Rattle.wgr_office.specs.declared.answer.Answer as given;
ghost use Rattle.wgr_office.specs.declared.run.Event.TheVariants as events;
ghost use Rattle.wgr_office.specs.Pages.{IsAnsweredAs, Responds, event_of};
ghost use Rattle.wgr_columns.specs.Decode.{tables_of};
ghost use Rattle.wgr_orders.specs.Orders.{order_event};
ghost use Rattle.wgr_register.specs.Causes.{IfOrderFault, OrderStops};
ghost use Rattle.wgr_register.specs.Census.{IsCensus};
ghost use Rattle.wgr_register.specs.Recent.{max_recent};
ghost use Rattle.wgr_register.specs.Standing.{IsAtRest, StandsAt};
ghost use Rattle.wgr_request.specs.Request.{request_view};
ghost use Rattle.wgr_sql.specs.Causes.{HasCause, HasCauseOr};
ghost use Rattle.wgr_sql.specs.declared.fault.Cause.TheVariants.{Other};
ghost use Rattle.wgr_sql.specs.declared.fault.Fault.TheVariants.{Store};

use crate::answer::{Answer, ended, made};
use crate::pages::Pages;
use crate::run;
use sqlite::Alter;
use std::alloc::{AllocError, Global};
use std::marker::Model;
use wgr_register::{Census, Done, Fault, Order, OrderFault, Register};
use wgr_reply::{Response, write_response};
use wgr_request::{Paths, Request, request_of};

/// Answers tenants' requests from a register.
pub struct Office<S: Alter> {
    register: Register<S>,
    paths: Paths,
}

impl<S: Alter> Model for Office<S> {
    ghost use Rattle.sqlite.specs.Held.{Held, held_code};

    ghost Value = { Held S };

    ghost coded = { held_code S.code };

    ghost view = { λ o. o.register };
}

impl<S: Alter> Office<S> {
    /// The office of a register, which is returned if there is no memory.
    pub fn new(alloc: Global, register: Register<S>) -> Result<Office<S>, Register<S>>
        ensures ok { IfOk result (λ office. office ≡ register) }
        ensures err { IfErr result (λ kept. kept ≡ register) }
    {
        match Paths::new(alloc) {
            Ok(paths) => Ok(Office { register, paths }),
            Err(_) => Err(register),
        }
    }

    /// Does nothing. No register is in the middle of a change: while its disk is clean, it is at some rows.
    pub fn rules_hold(&self)
        ensures { IsAtRest S.Store self.now }
    {
        self.register.rules_hold();
    }

    /// The register, unchanged.
    pub fn into_register(self) -> Register<S>
        ensures { result ≡ self }
    {
        let Office {
            register,
            paths: _paths,
        } = self;
        register
    }

    /// Answers the message at the front of the bytes, at this moment (seconds since 1970-01-01).
    pub fn answer(&mut self, alloc: Global, now: u64, bytes: &[u8]) -> Answer
        ensures clean { HasCleanDisk (state S.Store self.new) → HasCleanDisk (state S.Store self.old) }
        ensures answered { (db : Database) (late : List Event) → StandsAt S.Store self.old db late → IsAnsweredAs S.Store self.new db late now bytes.now result }
    {
        match request_of(alloc, &self.paths, bytes) {
            Ok(request) => respond(alloc, &mut self.register, now, request),
            Err(_) => Answer::Unavailable,
        }
    }

    /// Carries out an operator's order, or refuses it, as [`run`](Office::run) does an event. A fault is lack of
    /// memory, or it has a cause: in the store, or a statement that the rows refuse.
    pub fn operate(&mut self, alloc: Global, order: &Order) -> Result<Done, OrderFault>
        ensures call { (answer : given.Answer) → IsOrderAnswer result answer → IsCall S.Store self.old self.new (events.Order order.now) answer }
        ensures stops { (db : Database) (late : List Event) → StandsAt S.Store self.old db late → IfOrderFault (HasCauseOr (OrderStops (tables_of db) (order_event order.now)) (state S.Store self.old) (state S.Store self.new)) result }
    {
        order.forms_hold();
        self.register.operate(alloc, order)
    }

    /// Whether the store has failed for good, so that all answers are `Unavailable` until the register is
    /// opened anew. To be asked after such an answer: the networks in memory are loaded anew.
    pub fn is_shut(&mut self) -> bool
        ensures keeps { Keeps S.Store self.old self.new }
        ensures cause { (db : Database) (late : List Event) → StandsAt S.Store self.old db late → result ≡ true → HasCause (state S.Store self.old) (state S.Store self.new) (Store Other) }
    {
        self.register.is_shut()
    }

    /// All tenants, tokens and networks, each in any order, and how many peers and routes each network has.
    /// A fault is lack of memory, or it has a cause.
    pub fn census(&mut self, alloc: Global) -> Result<Census, Fault>
        ensures keeps { Keeps S.Store self.old self.new }
        ensures listed { (db : Database) (late : List Event) → StandsAt S.Store self.old db late → HasCleanDisk (state S.Store self.new) → IfOk result (IsCensus (tables_of db)) }
        ensures cause { IfErr result (HasCause (state S.Store self.old) (state S.Store self.new)) }
    {
        self.register.census(alloc)
    }

    /// How many networks stay in memory now.
    pub fn loaded(&self) -> usize
        ensures at_most { result ≤ max_recent }
    {
        self.register.loaded()
    }

    /// How many servers' files stay in memory now.
    pub fn cached(&self) -> usize
        ensures at_most { result ≤ max_recent }
    {
        self.register.cached()
    }

    /// Answers all events in order. If there is no memory for the answers, no event is
    /// done.
    ///
    /// Each tenant gets the answers, byte for byte, and finally has the tokens and networks that its own
    /// requests and the accepted orders about it give on its own rows alone, leaving out requests answered
    /// `Unavailable`; and no two peers, in any networks, have the same address.
    pub fn run(&mut self, alloc: Global, events: &[run::Event]) -> Result<Vec<Answer>, AllocError>
        ensures each { IfOk result (λ answers. length answers.items ≡ length events.now) }
        ensures clean { HasCleanDisk (state S.Store self.new) → HasCleanDisk (state S.Store self.old) }
        ensures run { IfOk result (λ answers. (db : Database) (late : List Event) → StandsAt S.Store self.old db late → HasCleanDisk (state S.Store self.new) → HasRun S.Store self.new db late events.now answers.items) }
        ensures isolated { IfOk result (λ answers. HasCleanDisk (state S.Store self.new) → (db : Database) × (late : List Event) × StandsAt S.Store self.old db late × HasRun S.Store self.new db late events.now answers.items) }
        // Also between the events: the connection after each event, and the rows at which the register is then.
        ensures between { IfOk result (λ answers. (db : Database) (late : List Event) → StandsAt S.Store self.old db late → HasCleanDisk (state S.Store self.new) → HasPassed S.Store self.old self.new db late events.now answers.items) }
        ensures undone { OnErr result (self.new ≡ self.old) }
    {
        self.register.rules_hold();
        run::run(alloc, self, events)
    }
}

// The answer to what is asked at this moment.
fn respond<S: Alter>(
    alloc: Global,
    register: &mut Register<S>,
    now: u64,
    request: Request<'_>,
) -> Answer
    ensures clean { HasCleanDisk (state S.Store register.new) → HasCleanDisk (state S.Store register.old) }
    ensures proper { IsProper (event_of now (request_view request.entry)) }
    ensures responds { (db : Database) (late : List Event) → StandsAt S.Store register.old db late → Responds S.Store register.new db late now (request_view request.entry) result }
{
    match request {
        Request::Refused { why, .. } => made(write_response(alloc, Response::Fault(why))),
        Request::Networks { digest } => ended(alloc, register.networks(alloc, &digest, &Pages)),
        Request::Ask {
            digest,
            name,
            command,
        } => {
            command.forms_hold();
            ended(
                alloc,
                register.ask(alloc, &digest, name, now, &command, &Pages),
            )
        }
    }
}
