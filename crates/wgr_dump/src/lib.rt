//! The text of `wg show <interface> dump` (wg(8)), read line by line.
//!
//! [`Dump::open`] checks a whole text in one pass. What it returns are slices of the text, and
//! values that are read when a line is reached, so no call allocates memory. Private and preshared
//! keys, firewall marks and endpoints have to be of their form, and are in no result.
//!
//! Contracts mention the values that will be read, and not bytes: each type keeps a ghost proof that
//! its text spells one value.
#![tactic(auto)]

mod allowed;
mod dump;
mod fields;
mod interface;
pub mod laws;
mod lines;
mod numbers;
mod peer_line;
mod remaining_parts;
mod taking;
mod written_count;

pub use allowed::Allowed;
pub use dump::{BadDump, Dump};
pub use interface::InterfaceLine;
pub use lines::Lines;
pub use peer_line::PeerLine;
pub use written_count::WrittenCount;

#[cfg(test)]
mod tests;
