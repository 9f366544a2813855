//! The configuration files of a network, as wg(8) and wg-quick(8) read them: the server's, and each
//! peer's. None has a private key; its owner adds `PrivateKey` below `[Interface]`.
#![tactic(auto)]

pub mod laws;
mod lines;
mod peer;
mod server;

pub use peer::peer_file;
pub use server::server_file;
pub use wgr_core::Form;
