//! The command line of `wgr`, read by `clap`.
#![tactic(auto)]

mod commands;
mod help;
mod invocation;
mod laws;
mod sending;
mod values;

pub use invocation::{Invocation, read_words};
