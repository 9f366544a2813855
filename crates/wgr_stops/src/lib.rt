//! Tests of a register that stops at a call on one of its files, and is opened again.
//!
//! The machine stops: each call from then on fails, and of what wasn't synced all is lost, or nothing.
//! A torn write isn't tried here.
#![tactic(auto)]

#[cfg(test)]
mod disks;
#[cfg(test)]
mod migrated;
#[cfg(test)]
mod reopened;
#[cfg(test)]
mod rows;
#[cfg(test)]
mod script;
#[cfg(test)]
mod steps;
#[cfg(test)]
mod stops;
