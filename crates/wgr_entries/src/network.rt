//! Networks that are added or deleted.
ghost use Rattle.std.specs.Prelude.{◌≡◌};
ghost use Rattle.sqlite.specs.State.{HasCleanDisk, Survives};
ghost use Rattle.sqlite.specs.Held.{state};
ghost use Rattle.wgr_model.specs.Rows.{AreKeyed};
ghost use Rattle.wgr_entries.specs.OrderSteps.{NetworkAllowedGoes, NetworkRowGoes, NetworkPeersGo, new_row};
ghost use Rattle.wgr_tables.specs.Writes.{NetworkGained, NetworkLost};
ghost use Rattle.wgr_entries.specs.Stops.{NetworkAllowedStays, NetworkRowStays, NetworkStays, NetworkStaysOut, PeersStay};
ghost use Rattle.wgr_tables.specs.Stops.{FailsBy};
ghost use Rattle.wgr_tables.specs.Standing.{StepsOn};

use sqlite::types::ValueRef;
use sqlite::{Alter, Transaction};
use wgr_columns::{bytes_of, family_value, number_value};
use wgr_orders::Settings;
use wgr_peers::Name;
use wgr_sql::{Fault, execute};
use wgr_tables::Writing;

/// A new network without peers, whose first peer will have the number 1. If a network has the id or the
/// host and port already, or the tenant has a network of this name, it is a fault of the store.
#[derive(Drop)]
pub struct NewNetwork<'a> {
    /// Its id.
    pub id: u32,
    /// The id of its tenant.
    pub tenant: u32,
    /// Its name.
    pub name: &'a Name,
    /// Its settings.
    pub settings: &'a Settings,
}

impl Writing for NewNetwork<'_> {
    ghost writes = { λ x t one. one ≡ NetworkGained (new_row x.id x.tenant x.name.now x.settings.now) };

    ghost stops = { λ x. NetworkStaysOut (new_row x.id x.tenant x.name.now x.settings.now) };

    fn run<S: Alter>(&self, tx: &mut Transaction<'_, S>) -> Result<usize, Fault> {
        let settings = self.settings;
        let lo = bytes_of(settings.address.number());
        execute(
            tx,
            "INSERT INTO network (id, tenant, name, family, lo, length, host, port, server, capacity, next) VALUES (?1, ?2, ?3, ?4, ?5, ?6, ?7, ?8, ?9, ?10, 1)",
            &[
                number_value(self.id),
                number_value(self.tenant),
                ValueRef::Text(self.name.as_str().as_bytes()),
                family_value(settings.address.family()),
                ValueRef::Blob(&lo),
                number_value(u32::from(settings.length)),
                ValueRef::Text(settings.host.as_str().as_bytes()),
                number_value(u32::from(settings.port.number())),
                ValueRef::Blob(&settings.server.0),
                number_value(u32::from(settings.capacity.peers())),
            ],
        )
    }
}

// Deletes the rows of all allowed prefixes in a network.
fn drop_allowed<S: Alter>(tx: &mut Transaction<'_, S>, network: u32) -> Result<usize, Fault>
    ensures same_reference { tx.new.conn.ghost_name ≡ tx.old.conn.ghost_name }
    ensures step { HasCleanDisk (state S.Store tx.new.conn.now) → StepsOn (NetworkAllowedGoes network) (state S.Store tx.old.conn.now) (state S.Store tx.new.conn.now) result }
    ensures survives { Survives (state S.Store tx.old.conn.now) (state S.Store tx.new.conn.now) (λ _. ⊥) }
    ensures cause { FailsBy (NetworkAllowedStays network) (state S.Store tx.old.conn.now) (state S.Store tx.new.conn.now) result }
{
    execute(
        tx,
        "DELETE FROM allowed WHERE network = ?1",
        &[number_value(network)],
    )
}

// Deletes the rows of all peers of a network.
fn drop_peers<S: Alter>(tx: &mut Transaction<'_, S>, network: u32) -> Result<usize, Fault>
    ensures same_reference { tx.new.conn.ghost_name ≡ tx.old.conn.ghost_name }
    ensures step { HasCleanDisk (state S.Store tx.new.conn.now) → StepsOn (NetworkPeersGo network) (state S.Store tx.old.conn.now) (state S.Store tx.new.conn.now) result }
    ensures survives { Survives (state S.Store tx.old.conn.now) (state S.Store tx.new.conn.now) (λ _. ⊥) }
    ensures cause { FailsBy (PeersStay network) (state S.Store tx.old.conn.now) (state S.Store tx.new.conn.now) result }
{
    execute(
        tx,
        "DELETE FROM peer WHERE network = ?1",
        &[number_value(network)],
    )
}

// Deletes the row of a network.
fn drop_network_row<S: Alter>(tx: &mut Transaction<'_, S>, network: u32) -> Result<usize, Fault>
    ensures same_reference { tx.new.conn.ghost_name ≡ tx.old.conn.ghost_name }
    ensures step { HasCleanDisk (state S.Store tx.new.conn.now) → StepsOn (NetworkRowGoes network) (state S.Store tx.old.conn.now) (state S.Store tx.new.conn.now) result }
    ensures survives { Survives (state S.Store tx.old.conn.now) (state S.Store tx.new.conn.now) (λ _. ⊥) }
    ensures cause { FailsBy (NetworkRowStays network) (state S.Store tx.old.conn.now) (state S.Store tx.new.conn.now) result }
{
    execute(
        tx,
        "DELETE FROM network WHERE id = ?1",
        &[number_value(network)],
    )
}

/// A network that is deleted, with its row, its peers and its allowed prefixes.
#[derive(Drop)]
pub struct EndedNetwork {
    /// Its id.
    pub network: u32,
}

impl Writing for EndedNetwork {
    ghost writes = { λ x t one. AreKeyed t × (one ≡ NetworkLost x.network) };

    ghost stops = { λ x. NetworkStays x.network };

    fn run<S: Alter>(&self, tx: &mut Transaction<'_, S>) -> Result<usize, Fault> {
        drop_allowed(tx, self.network)?;
        drop_peers(tx, self.network)?;
        drop_network_row(tx, self.network)
    }
}
