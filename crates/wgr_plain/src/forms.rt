//! What the types of an event guarantee, stated for a proof.
ghost use Rattle.wgr_model.specs.Steps.{IsProper};
ghost use Rattle.wgr_plain.specs.Calls.{model_event};

use crate::run::Event;

impl Event {
    // Does nothing. Each field has the form that its type guarantees.
    pub(crate) fn forms_hold(&self)
        ensures { IsProper (model_event self.now) }
    {
        match self {
            Event::Ask { command, .. } => command.forms_hold(),
            Event::Networks { .. } => {}
            Event::Order(order) => order.forms_hold(),
        }
    }
}
