//! Serves connections of tenants and of the operator, and answers lists of requests, through an office, one
//! after the other.
#![tactic(auto)]

mod batch;
mod connections;
mod copies;
mod desk;
mod doors;
mod laws;
mod limit;
mod lines;
mod names;
mod network;
mod new_file;
mod parts;
mod readings;
mod report;
mod silent;
mod socket;
mod sockets;
mod stream;
mod taken;
#[cfg(test)]
mod tests;
mod texts;
mod watch;

pub use batch::{BatchFault, answer_all};
pub use connections::{Ending, serve_connections};
pub use copies::{Archive, CopyFault, FileCopies};
pub use desk::Desk;
pub use laws::{connections_are_apart, each_reply_is_counted};
pub use lines::{LineEnd, carry_out_line, write_line_end};
pub use network::{Arrival, Door, Missed, Network, Pace};
pub use readings::ReadingEnd;
pub use sockets::{Sockets, seconds_now};
pub use stream::Stream;
pub use texts::carry_out_text;
