//! What an operator may order.
ghost use Rattle.std.specs.Prelude.{◌≡◌, false, true, IfNone, IfSome};
ghost use Rattle.wgr_model.specs.Consistent.{is_pool};

use std::marker::Model;
use wgr_core::{Capacity, Host, Name, Pool, Port};
use wgr_model::Right;
use wgr_text::{Addr, Key};

/// The settings of a new network, which an operator chooses.
#[derive(Debug, Drop)]
pub struct Settings {
    /// The pool's first address.
    pub address: Addr,
    /// The pool's length.
    pub length: u8,
    /// The endpoint's host.
    pub host: Host,
    /// The endpoint's port.
    pub port: Port,
    /// The server's public key.
    pub server: Key,
    /// How many peers the network may have.
    pub capacity: Capacity,
}

impl Model for Settings {
    ghost use Rattle.wgr_model.specs.Steps.{Settings};

    ghost Value = { Settings };

    ghost view = { λ s. record { pool = record { address = s.address; length = s.length }; host = s.host; port = s.port; server = s.server; capacity = s.capacity } };
}

impl Settings {
    // The pool, where the address and the length make one.
    pub(crate) fn pool(&self) -> Option<Pool>
        ensures none { IfNone result (is_pool self.now.pool ≡ false) }
        ensures some { IfSome result (λ pool. (is_pool self.now.pool ≡ true) × (pool ≡ self.now.pool)) }
    {
        match Pool::new(self.address, self.length) {
            Ok(pool) => Some(pool),
            Err(_) => None,
        }
    }
}

/// An operator's order on a register. A digest is the SHA-256 of a token.
#[derive(Debug, Drop)]
pub enum Order {
    /// A new tenant.
    AddTenant {
        name: Name,
    },
    /// A token for a tenant, with this right.
    Grant {
        tenant: Name,
        digest: [u8; 32],
        right: Right,
    },
    /// The token is removed, and its right with it.
    EndToken {
        digest: [u8; 32],
    },
    /// A new network of a tenant, without peers.
    AddNetwork {
        tenant: Name,
        name: Name,
        settings: Settings,
    },
    /// The network is removed, with its peers and routes.
    EndNetwork {
        tenant: Name,
        name: Name,
    },
}
