//! Lists of events.
ghost use Rattle.std.specs.Prelude.{◌≡◌, List, length, IfOk, OnErr};
ghost use Rattle.std.specs.Option.{option_map};
ghost use Rattle.wgr_plain.specs.Calls.{AreAnswered, answer_of, model_event};
ghost use Rattle.wgr_model.specs.Laws.{IsIsolated};
ghost use Rattle.wgr_model.specs.Runs.{IsRun, IsServed, Served};
ghost use Rattle.wgr_model.specs.Steps.{IsStep};

use crate::answer::Answer;
use crate::register::Register;
use std::alloc::{AllocError, Global};
use wgr_core::{Command, Name};
use wgr_orders::Order;

/// An event for a register. A digest is the SHA-256 of a token.
#[derive(Drop)]
pub enum Event {
    /// A command, at a moment, to the network of a name that the tenant of the token has.
    Ask {
        digest: [u8; 32],
        name: Name,
        now: u64,
        command: Command,
    },
    /// The networks of the tenant of the token.
    Networks {
        digest: [u8; 32],
    },
    /// An order of the operator.
    Order(Order),
}

impl Register {
    /// Takes all events in turn and answers each in its place. If memory runs out for one, its
    /// answer is `None`, and the register is as before it; where there is no memory for
    /// the answers no event is done.
    ///
    /// Each tenant has the answers and the networks that it would have alone.
    pub fn run(
        &mut self,
        alloc: Global,
        events: &[Event],
    ) -> Result<Vec<Option<Answer>>, AllocError>
        ensures each { IfOk result (λ answers. length answers.items ≡ length events.now) }
        ensures run { IfOk result (λ answers. (es : List Served) × AreAnswered events.now answers.items es × IsRun self.old es self.new) }
        ensures isolated { IfOk result (λ answers. (es : List Served) × AreAnswered events.now answers.items es × IsIsolated self.old es self.new) }
        ensures undone { OnErr result (self.new ≡ self.old) }
    {
        self.rules_hold();
        let mut answers = Vec::with_capacity(alloc, events.len())?;
        for event in events {
            event.forms_hold();
            let answer = self.serve(alloc, event);
            answers.push(answer)?;
        }
        Ok(answers)
    }

    // The answer to one event, or none if memory runs out.
    fn serve(&mut self, alloc: Global, event: &Event) -> Option<Answer>
        ensures { IsServed self.old (model_event event.now) (option_map answer_of result) self.new }
    {
        match self.answer(alloc, event) {
            Ok(answer) => Some(answer),
            Err(_) => None,
        }
    }

    /// Takes one event; if memory runs out, the register is as before.
    pub fn answer(&mut self, alloc: Global, event: &Event) -> Result<Answer, AllocError>
        ensures step { IfOk result (λ answer. IsStep self.old (model_event event.now) (answer_of answer) self.new) }
        ensures undone { OnErr result (self.new ≡ self.old) }
    {
        match event {
            Event::Ask {
                digest,
                name,
                now,
                command,
            } => self.ask(alloc, digest, name, *now, command),
            Event::Networks { digest } => self.networks(alloc, digest),
            Event::Order(order) => self.operate(alloc, order),
        }
    }
}
