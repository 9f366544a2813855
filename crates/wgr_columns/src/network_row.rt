//! A network, read from its row.
ghost use Rattle.std.specs.Prelude.{◌≡◌, IfErr, IfOk};
ghost use Rattle.wgr_model.specs.Rows.{NetworkRow};
ghost use Rattle.wgr_sql.specs.Faults.{IsStore};
ghost use Rattle.wgr_columns.specs.Decode.{network_in};
ghost use Rattle.wgr_columns.specs.Settings.{row_settings};
ghost use Rattle.wgr_columns.specs.Stored.{AreSettings, IsKeptNetwork, stored_network};

use crate::address::pool_in;
use crate::blob::key_at;
use crate::columns::network;
use crate::number::{capacity_at, port_at, word_at};
use crate::text::{host_at, name_at};
use sqlite::Row;
use std::alloc::Global;
use std::marker::Model;
use wgr_peers::{Capacity, Host, Name, Port};
use wgr_pool::Pool;
use wgr_sql::Fault;
use wgr_text::Key;

/// What is settled of a network, and the number that its next peer gets.
#[derive(Drop)]
pub struct NetworkSettings {
    /// The pool from which addresses are given.
    pub pool: Pool,
    /// The endpoint's host.
    pub host: Host,
    /// The endpoint's port.
    pub port: Port,
    /// The server's public key.
    pub server: Key,
    /// How many peers the network may have.
    pub capacity: Capacity,
    /// The number that the next peer gets.
    pub next: u32,
}

/// A row of `network`.
#[derive(Drop)]
pub struct NetworkRow {
    /// The network's id.
    pub id: u32,
    /// The id of the tenant whose network it is.
    pub tenant: u32,
    /// The network's name.
    pub name: Name,
    /// The network's settings.
    pub settings: NetworkSettings,
}

impl Model for NetworkRow {
    ghost use Rattle.wgr_model.specs.Rows.{NetworkRow};

    ghost Value = { NetworkRow };

    ghost view = { λ r. record { id = r.id; tenant = r.tenant; name = r.name; pool = r.settings.pool; host = r.settings.host; port = r.settings.port; server = r.settings.server; capacity = r.settings.capacity; next = r.settings.next } };
}

/// The settings in a network's row, whatever its ids and its name. A row in which they aren't those of
/// a network is a fault of the store.
pub fn read_settings(alloc: Global, row: &Row) -> Result<NetworkSettings, Fault>
    ensures value { IfOk result (λ settings. settings ≡ row_settings (network_in row.now)) }
    ensures only { IfErr result (λ why. IsStore why → (w : NetworkRow) → AreSettings w → row.now ≡ stored_network w → ⊥) }
{
    let pool = pool_in(row).ok_or(Fault::DAMAGED)?;
    let host = host_at(alloc, row, network::HOST)?.ok_or(Fault::DAMAGED)?;
    let port = port_at(row, network::PORT).ok_or(Fault::DAMAGED)?;
    let server = key_at(row, network::SERVER).ok_or(Fault::DAMAGED)?;
    let capacity = capacity_at(row, network::CAPACITY).ok_or(Fault::DAMAGED)?;
    let next = word_at(row, network::NEXT).ok_or(Fault::DAMAGED)?;
    Ok(NetworkSettings {
        pool,
        host,
        port,
        server,
        capacity,
        next,
    })
}

/// The network's row as a value. One that the register doesn't store is a fault of the store.
pub fn read_network(alloc: Global, row: &Row) -> Result<NetworkRow, Fault>
    ensures value { IfOk result (λ read. read ≡ network_in row.now) }
    ensures only { IfErr result (λ why. IsStore why → (w : NetworkRow) → IsKeptNetwork w → row.now ≡ stored_network w → ⊥) }
{
    let id = word_at(row, network::ID).ok_or(Fault::DAMAGED)?;
    let tenant = word_at(row, network::TENANT).ok_or(Fault::DAMAGED)?;
    let name = name_at(alloc, row, network::NAME)?.ok_or(Fault::DAMAGED)?;
    let settings = read_settings(alloc, row)?;
    Ok(NetworkRow {
        id,
        tenant,
        name,
        settings,
    })
}
