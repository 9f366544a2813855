//! The answers to requests, as bytes: the mirror of `wgr_request`.
//!
//! [`write_response`] makes the bytes of a reply, and [`unavailable`] has those of the one reply that
//! takes no memory. The body of a reply is JSON (RFC 8259), written by `wgr_json`, or the text of a file.
//! The members of each object are in the byte order of their names.
#![tactic(auto)]

mod bodies;
pub mod laws;
mod network;
mod peer;
mod refused;
mod response;
#[cfg(test)]
mod tests;

pub use response::{HttpReply, Response, unavailable, write_response};
