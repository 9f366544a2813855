//! Tenants that are added.
ghost use Rattle.std.specs.Prelude.{◌≡◌};
ghost use Rattle.wgr_tables.specs.Writes.{TenantGained};
ghost use Rattle.wgr_entries.specs.Stops.{TenantStaysOut};

use sqlite::types::ValueRef;
use sqlite::{Alter, Transaction};
use wgr_columns::number_value;
use wgr_peers::Name;
use wgr_sql::{Fault, execute};
use wgr_tables::Writing;

/// A new tenant. An id or a name that a tenant has already is a fault of the store.
#[derive(Drop)]
pub struct NewTenant<'a> {
    /// Its id.
    pub id: u32,
    /// Its name.
    pub name: &'a Name,
}

impl Writing for NewTenant<'_> {
    ghost writes = { λ x t one. one ≡ TenantGained (record { id = x.id; name = x.name.now }) };

    ghost stops = { λ x. TenantStaysOut (record { id = x.id; name = x.name.now }) };

    fn run<S: Alter>(&self, tx: &mut Transaction<'_, S>) -> Result<usize, Fault> {
        execute(
            tx,
            "INSERT INTO tenant (id, name) VALUES (?1, ?2)",
            &[
                number_value(self.id),
                ValueRef::Text(self.name.as_str().as_bytes()),
            ],
        )
    }
}
