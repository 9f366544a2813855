//! Readers and writers that record a failure.
//!
//! The readers and writers of std say which bytes they took, and nothing about a call that failed.
//! Those of this crate also say whether a call has failed, so that a contract can promise that a
//! device error is returned only if there was one. A [`Device`] wraps one of std's.
#![tactic(auto)]

mod device;
mod whole;

pub use device::{Device, DeviceError, Read, Write};
pub use whole::{ReadFault, WriteFault, read_to_end, write_all};

#[cfg(test)]
mod tests;
