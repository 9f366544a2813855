//! What is known of a network that isn't in memory: until when no lease ends, and below which address
//! none is free.
#![tactic(auto)]

mod outline;

pub use outline::Outline;
