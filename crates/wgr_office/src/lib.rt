//! Answers tenants' requests from a register: from the bytes of a request to the bytes of its reply.
//!
//! An [`Office`] parses a request with `wgr_request`, asks the register, and makes the reply with
//! `wgr_reply`.
#![tactic(auto)]

mod answer;
mod laws;
mod office;
mod pages;
mod run;
mod serve;
#[cfg(test)]
mod tests;

pub use answer::Answer;
pub use laws::{
    a_stop_in_a_run_leaves_what_was_acknowledged, secrets_are_unanswered, worlds_are_alike,
};
pub use office::Office;
pub use run::Event;
pub use serve::ServeFault;
