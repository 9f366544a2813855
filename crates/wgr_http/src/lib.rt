//! Request messages and replies of HTTP/1.1 as bytes (RFC 9112).
//!
//! [`Message::read`] says what the message at the front of some bytes is, or its first fault.
//! [`read_message`] takes from a reader as many bytes as decide that, and [`write_reply`] makes the
//! bytes of a reply. What the targets and bodies mean is left to the crates above.
#![tactic(auto)]

mod field_lines;
mod head;
pub mod laws;
mod length;
mod message;
mod reading;
mod reply;
mod status_code;
mod text;
mod token;
mod unfinished;

pub use message::{Message, MessageFault};
pub use reading::read_message;
pub use reply::{Kind, write_reply};
pub use status_code::StatusCode;
pub use token::is_token;

#[cfg(test)]
mod tests;
