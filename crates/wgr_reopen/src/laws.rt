//! What was acknowledged stays. Each function does nothing: its contract is the law.
ghost use Rattle.wgr_reopen.specs.Laws.{AnsweredStays, DoneStays};

use sqlite::Alter;
use wgr_register::{Register, Render};

/// An order that was done is in whatever a stop leaves then.
pub fn done_stays<S: Alter>(register: &Register<S>)
    ensures { DoneStays S.Store register.now }
{
    let _register = register;
}

/// What an answered request changed is in whatever a stop leaves then.
pub fn answered_stays<S: Alter, R: Render>(register: &Register<S>, render: &R)
    ensures { AnsweredStays S.Store R.shown register.now }
{
    let _register = register;
    let _render = render;
}
