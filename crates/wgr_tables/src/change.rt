//! A change of a network, which one commit writes.
ghost use Rattle.std.specs.Prelude.{◌≡◌};
ghost use Rattle.sqlite.specs.State.{HasCleanDisk, Survives};
ghost use Rattle.sqlite.specs.Held.{state};
ghost use Rattle.wgr_tables.specs.Stops.{ChangeStops, FailsBy, NextStays};
ghost use Rattle.wgr_tables.specs.TableSteps.{NextSets};
ghost use Rattle.wgr_tables.specs.Writes.{IsReplacement};
ghost use Rattle.wgr_tables.specs.Standing.{StepsOn};

use crate::enter::put_peers;
use crate::leave::remove_peers;
use crate::route::{drop_routes, put_routes};
use crate::writing::Writing;
use sqlite::{Alter, Transaction};
use wgr_columns::number_value;
use wgr_core::Change;
use wgr_sql::{Fault, execute};

// Sets the next number of a network.
fn set_next<S: Alter>(tx: &mut Transaction<'_, S>, network: u32, next: u32) -> Result<usize, Fault>
    ensures same_reference { tx.new.conn.ghost_name ≡ tx.old.conn.ghost_name }
    ensures step { HasCleanDisk (state S.Store tx.new.conn.now) → StepsOn (NextSets network next) (state S.Store tx.old.conn.now) (state S.Store tx.new.conn.now) result }
    ensures survives { Survives (state S.Store tx.old.conn.now) (state S.Store tx.new.conn.now) (λ _. ⊥) }
    ensures cause { FailsBy (NextStays network next) (state S.Store tx.old.conn.now) (state S.Store tx.new.conn.now) result }
{
    execute(
        tx,
        "UPDATE network SET next = ?2 WHERE id = ?1",
        &[number_value(network), number_value(next)],
    )
}

/// A change of the network whose row has this id.
#[derive(Drop)]
pub struct NetworkChange<'a> {
    /// The network's id.
    pub network: u32,
    /// What changes.
    pub change: &'a Change,
}

impl Writing for NetworkChange<'_> {
    ghost writes = { λ x. IsReplacement x.network x.change.now };

    ghost stops = { λ x. ChangeStops x.network x.change.now };

    // Peers are removed before others take their keys, and routes and addresses are deleted before others
    // take theirs.
    fn run<S: Alter>(&self, tx: &mut Transaction<'_, S>) -> Result<usize, Fault> {
        remove_peers(tx, self.network, self.change.removed.as_slice())?;
        drop_routes(tx, self.network, self.change.routes_gone.as_slice())?;
        put_peers(tx, self.network, self.change.peers.as_slice())?;
        put_routes(tx, self.network, self.change.routes_put.as_slice())?;
        set_next(tx, self.network, self.change.next)
    }
}
