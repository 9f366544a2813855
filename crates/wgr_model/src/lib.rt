//! The register of many tenants as a model: what one tenant sees of it, what each event does to
//! it, and what follows for every list of events. Its only code is a limit of entries and the test
//! of what a token allows.
#![tactic(auto)]

pub mod laws;
mod right;

pub use right::Right;

/// The most tenants that a register has; also the most tokens, and the most networks.
pub const MAX_ENTRIES: usize = 65_536;
