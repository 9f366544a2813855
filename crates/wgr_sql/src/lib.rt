//! Statements on a SQLite database and their effects, in terms that name no table.
//!
//! [`query`] reads in its own transaction, [`execute`] writes in its caller's. The definitions say
//! what a step of a transaction leaves, and which database a connection is at, also after a fault
//! shut its store; the lemmas say what each kind of statement does to the rows of one table, and what
//! a commit and a rollback do to a connection.
#![tactic(auto)]

mod fault;
mod statement;

pub use fault::{Cause, Fault, fault_of};
pub use statement::{execute, only, query};
