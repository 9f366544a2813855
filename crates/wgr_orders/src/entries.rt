//! The entries of a register: tenants, tokens and networks.
use std::marker::Model;
use wgr_core::{Name, Network};

/// A tenant, with its id.
#[derive(Drop)]
pub struct Tenant {
    pub id: u32,
    pub name: Name,
}

impl Model for Tenant {
    ghost use Rattle.wgr_model.specs.Register.{Tenant};

    ghost Value = { Tenant };

    ghost view = { λ t. record { id = t.id; name = t.name } };
}

/// A token, as the SHA-256 by which it is known, and its tenant's id.
#[derive(Drop)]
pub struct Token {
    pub digest: [u8; 32],
    pub tenant: u32,
}

impl Model for Token {
    ghost use Rattle.wgr_model.specs.Register.{Token};

    ghost Value = { Token };

    ghost view = { λ t. record { digest = t.digest; tenant = t.tenant } };
}

/// A network, with its own id, its tenant's id and its name.
#[derive(Drop)]
pub struct NetworkEntry {
    pub id: u32,
    pub tenant: u32,
    pub name: Name,
    pub network: Network,
}

impl Model for NetworkEntry {
    ghost use Rattle.wgr_model.specs.Register.{NetworkEntry};

    ghost Value = { NetworkEntry };

    ghost view = { λ h. record { id = h.id; tenant = h.tenant; name = h.name; network = h.network } };
}
