//! JSON (RFC 8259) of values, and the texts of keys and prefixes.
//!
//! A value says by [`ToJson`] what JSON it is, and [`to_json`] writes its text in one pass, without blanks.
#![tactic(auto)]

mod json;
mod list;
mod member;
#[cfg(test)]
mod tests;
mod text;

pub use json::{ToJson, to_json};
pub use list::List;
pub use member::{send_member, send_number, send_text};
pub use text::text_of_prefix;
