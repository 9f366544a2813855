//! Tenants, tokens, and networks as they were added, read from their rows.
ghost use Rattle.std.specs.Prelude.{◌≡◌, IfErr, IfOk, OnErr};
ghost use Rattle.wgr_model.specs.Consistent.{IsTenant};
ghost use Rattle.wgr_model.specs.Register.{Tenant, Token};
ghost use Rattle.wgr_model.specs.Rows.{NetworkRow};
ghost use Rattle.wgr_model.specs.Steps.{new_network};
ghost use Rattle.wgr_sql.specs.Faults.{IsStore};
ghost use Rattle.wgr_columns.specs.Decode.{network_in, tenant_in, token_in};
ghost use Rattle.wgr_entries.specs.Kept.{IsKeptToken, stored_token};
ghost use Rattle.wgr_entries.specs.Lookups.{settled};
ghost use Rattle.wgr_columns.specs.Stored.{IsKeptNetwork, stored_network, stored_tenant};

use sqlite::Row;
use std::alloc::Global;
use wgr_columns::{
    NetworkRow, NetworkSettings, digest_at, name_at, read_network, tenant, token, word_at,
};
use wgr_core::Network;
use wgr_orders::{NetworkEntry, Tenant, Token};
use wgr_sql::Fault;

/// The tenant whose row this is.
pub fn read_tenant(alloc: Global, row: &Row) -> Result<Tenant, Fault>
    ensures value { IfOk result (λ tenant. tenant ≡ tenant_in row.now) }
    ensures only { IfErr result (λ e. IsStore e → (x : Tenant) → IsTenant x → row.now ≡ stored_tenant x → ⊥) }
{
    let id = word_at(row, tenant::ID).ok_or(Fault::DAMAGED)?;
    let name = name_at(alloc, row, tenant::NAME)?.ok_or(Fault::DAMAGED)?;
    Ok(Tenant { id, name })
}

/// The token whose row this is.
pub fn read_token(row: &Row) -> Result<Token, Fault>
    ensures value { IfOk result (λ token. token ≡ token_in row.now) }
    ensures only { OnErr result ((x : Token) → IsKeptToken x → row.now ≡ stored_token x → ⊥) }
{
    let digest = digest_at(row, token::DIGEST).ok_or(Fault::DAMAGED)?;
    let tenant = word_at(row, token::TENANT).ok_or(Fault::DAMAGED)?;
    Ok(Token { digest, tenant })
}

/// The network whose row this is, as it was added: without peers, and with the first number as next.
pub fn read_settled(alloc: Global, row: &Row) -> Result<NetworkEntry, Fault>
    ensures value { IfOk result (λ network_entry. network_entry ≡ settled (network_in row.now)) }
    ensures only { IfErr result (λ e. IsStore e → (w : NetworkRow) → IsKeptNetwork w → row.now ≡ stored_network w → ⊥) }
{
    let NetworkRow {
        id,
        tenant,
        name,
        settings,
    } = read_network(alloc, row)?;
    Ok(NetworkEntry {
        id,
        tenant,
        name,
        network: new_network(alloc, settings),
    })
}

// A network with these settings, as it was added: without peers, and with the first number as next.
fn new_network(alloc: Global, settings: NetworkSettings) -> Network
    ensures { result ≡ new_network (record { pool = settings.pool; host = settings.host; port = settings.port; server = settings.server; capacity = settings.capacity }) }
{
    let NetworkSettings {
        pool,
        host,
        port,
        server,
        capacity,
        ..
    } = settings;
    Network::new(alloc, pool, host, port, server, capacity)
}
