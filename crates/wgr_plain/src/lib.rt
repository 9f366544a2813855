//! A plain register in memory: lists of tenants, tokens and networks, and a walk for each lookup.
//! It shows that the definitions of `wgr_model` can be met, and tests compare the register with it.
#![tactic(auto)]

mod answer;
mod ask;
mod forms;
mod listing;
mod look;
mod operate;
mod register;
mod run;

pub use answer::Answer;
pub use register::Register;
pub use run::Event;
