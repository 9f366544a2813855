//! A register in memory: lists of tenants, tokens, the tokens that only read, and networks.
ghost use Rattle.std.specs.Prelude.{◌≡◌};
ghost use Rattle.wgr_model.specs.Register.{empty_register};
ghost use Rattle.wgr_model.specs.Consistent.{IsConsistent};

use std::alloc::Global;
use std::marker::Model;
use wgr_orders::{NetworkEntry, Tenant};

// The digest of a token, and the id of the tenant that the token names.
#[derive(Drop)]
pub(crate) struct Token {
    pub(crate) digest: [u8; 32],
    pub(crate) tenant: u32,
}

impl Model for Token {
    ghost use Rattle.wgr_model.specs.Register.{Token};

    ghost Value = { Token };

    ghost view = { λ t. record { digest = t.digest; tenant = t.tenant } };
}

/// A register in memory, plain and slow: four lists, and a walk for each lookup. A network is
/// kept as one value, where tables have rows; the laws say which rows represent it.
#[derive(Drop)]
pub struct Register {
    pub(crate) tenants: Vec<Tenant>,
    pub(crate) tokens: Vec<Token>,
    pub(crate) readers: Vec<[u8; 32]>,
    pub(crate) networks: Vec<NetworkEntry>,
}

impl Model for Register {
    ghost use Rattle.wgr_model.specs.Consistent.{IsConsistent};
    ghost use Rattle.wgr_model.specs.Register.{Register};

    ghost Value = { Register };

    ghost view = { λ r. record { tenants = r.tenants.items; tokens = r.tokens.items; readers = r.readers.items; networks = r.networks.items } };

    ghost invariant = { λ r. IsConsistent (record { tenants = r.tenants.items; tokens = r.tokens.items; readers = r.readers.items; networks = r.networks.items }) };
}

impl Register {
    /// A register without entries.
    pub fn new(alloc: Global) -> Register
        ensures value { result ≡ empty_register }
        ensures consistent { IsConsistent result }
    {
        Register {
            tenants: Vec::new(alloc),
            tokens: Vec::new(alloc),
            readers: Vec::new(alloc),
            networks: Vec::new(alloc),
        }
    }

    /// Does nothing. Every register is consistent.
    pub fn rules_hold(&self)
        ensures { IsConsistent self.now }
    {
        let _tenants = &self.tenants;
    }
}
