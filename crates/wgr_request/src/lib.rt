//! Request messages as what they ask of the register.
//!
//! [`request_of`] joins the readers below it: from the bytes of a message to a [`Request`], which is a
//! command on a network, the list of networks, or a [`RequestFault`] that the bytes alone show.
//! [`Paths::resolve`] says what is served at a path and by which methods, and [`token_digest`] gives
//! the digest by which a token is known.
#![tactic(auto)]

mod adoption;
mod bodies;
mod commands;
mod digest;
mod fault;
mod fields;
pub mod laws;
mod paths;
mod request;
mod target;
#[cfg(test)]
mod tests;

pub use adoption::adoption_of;
pub use bodies::{BodyFault, read_add, read_move, read_renew, read_route, read_unroute};
pub use commands::{read_adoption, read_owner};
pub use digest::token_digest;
pub use fault::{RequestFault, RequestField};
pub use paths::{Methods, Paths};
pub use request::{Request, request_of};
pub use target::Target;
