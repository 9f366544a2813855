//! Runs lists of events.
ghost use Rattle.std.specs.Prelude.{◌≡◌, List, length, IfOk, OnErr};
ghost use Rattle.sqlite.specs.Effect.{Database};
ghost use Rattle.sqlite.specs.State.{HasCleanDisk};
ghost use Rattle.sqlite.specs.Held.{state};
ghost use Rattle.wgr_model.specs.Steps as model;
ghost use Rattle.wgr_office.specs.Between.{HasPassed};
ghost use Rattle.wgr_office.specs.Events.{HasRun, IsEventServed, IsOrderAnswer};
ghost use Rattle.wgr_register.specs.Standing.{StandsAt};

use crate::answer::Answer;
use crate::office::Office;
use sqlite::Alter;
use std::alloc::{AllocError, Global};
use wgr_model::laws::rows_are_isolated;
use wgr_register::{Done, Order, OrderFault};

/// An event for a register.
#[derive(Drop)]
pub enum Event {
    /// A tenant's request: a message, and the moment at which it arrived (seconds since 1970-01-01).
    Ask { now: u64, bytes: Vec<u8> },
    /// An order of the operator.
    Order(Order),
}

// Answers all events in order; if there is no memory for the answers, no event is done.
pub(crate) fn run<S: Alter>(
    alloc: Global,
    office: &mut Office<S>,
    events: &[Event],
) -> Result<Vec<Answer>, AllocError>
    ensures each { IfOk result (λ answers. length answers.items ≡ length events.now) }
    ensures clean { HasCleanDisk (state S.Store office.new) → HasCleanDisk (state S.Store office.old) }
    ensures run { IfOk result (λ answers. (db : Database) (late : List model.Event) → StandsAt S.Store office.old db late → HasCleanDisk (state S.Store office.new) → HasRun S.Store office.new db late events.now answers.items) }
    ensures between { IfOk result (λ answers. (db : Database) (late : List model.Event) → StandsAt S.Store office.old db late → HasCleanDisk (state S.Store office.new) → HasPassed S.Store office.old office.new db late events.now answers.items) }
    ensures undone { OnErr result (office.new ≡ office.old) }
{
    let mut answers = Vec::with_capacity(alloc, events.len())?;
    for event in events {
        let answer = serve(alloc, office, event);
        answers.push(answer)?;
    }
    rows_are_isolated();
    Ok(answers)
}

// Answers one event.
fn serve<S: Alter>(alloc: Global, office: &mut Office<S>, event: &Event) -> Answer
    ensures clean { HasCleanDisk (state S.Store office.new) → HasCleanDisk (state S.Store office.old) }
    ensures served { (db : Database) (late : List model.Event) → StandsAt S.Store office.old db late → HasCleanDisk (state S.Store office.new) → IsEventServed S.Store office.new db late event.now result }
{
    match event {
        Event::Ask { now, bytes } => office.answer(alloc, *now, bytes.as_slice()),
        Event::Order(order) => settled(office.operate(alloc, order)),
    }
}

// The answer for the result of an order.
fn settled(ended: Result<Done, OrderFault>) -> Answer
    ensures { IsOrderAnswer ended result }
{
    match ended {
        Ok(done) => Answer::Order(Ok(done)),
        Err(OrderFault::Refused(why)) => Answer::Order(Err(why)),
        Err(OrderFault::Fault(_)) => Answer::Unavailable,
    }
}
