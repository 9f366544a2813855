//! Addresses, prefixes and keys of WireGuard networks, and their texts.
//!
//! IPv4 (RFC 4632) and IPv6 (RFC 4291) are two families of one [`Addr`]; a [`Prefix`] is the set
//! of the addresses that agree in its first bits. Each reader returns `Some` exactly for the texts
//! that spell a value, and allocates no memory.
#![tactic(auto)]

mod addr;
mod byte;
mod key;
pub mod laws;
mod lines;
mod prefix;
mod text;

pub use addr::{Addr, Family};
pub use byte::are_bytes;
pub use key::{Key, write_key};
pub use lines::{TextLines, first_line, newline};
pub use prefix::{Prefix, Span};
pub use text::{prefix_text, read_loose, write_addr, write_prefix};
