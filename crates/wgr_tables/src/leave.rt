//! Peers that are removed from a network.
ghost use Rattle.std.specs.Prelude.{◌≡◌};
ghost use Rattle.sqlite.specs.State.{HasCleanDisk, Survives};
ghost use Rattle.sqlite.specs.Held.{state};
ghost use Rattle.wgr_model.specs.Rows.{peer_id};
ghost use Rattle.wgr_sql.specs.Steps.{Each};
ghost use Rattle.wgr_tables.specs.Stops.{AllowedStays, FailsBy, OneOfEach, PeerRowStays, PeerStays};
ghost use Rattle.wgr_tables.specs.TableSteps.{PeerGoes, AllowedGoes, PeerLeaves, is_of_peer};
ghost use Rattle.wgr_tables.specs.Standing.{StepsOn, StepsFrom};

use sqlite::{Alter, Transaction};
use wgr_columns::{number_value, peer_id_value};
use wgr_sql::{Fault, execute};

/// Deletes the row of a peer.
pub(crate) fn drop_peer_row<S: Alter>(
    tx: &mut Transaction<'_, S>,
    network: u32,
    number: u32,
) -> Result<usize, Fault>
    ensures same_reference { tx.new.conn.ghost_name ≡ tx.old.conn.ghost_name }
    ensures step { HasCleanDisk (state S.Store tx.new.conn.now) → StepsOn (PeerGoes network (peer_id network number)) (state S.Store tx.old.conn.now) (state S.Store tx.new.conn.now) result }
    ensures survives { Survives (state S.Store tx.old.conn.now) (state S.Store tx.new.conn.now) (λ _. ⊥) }
    ensures cause { FailsBy (PeerRowStays network (peer_id network number)) (state S.Store tx.old.conn.now) (state S.Store tx.new.conn.now) result }
{
    execute(
        tx,
        "DELETE FROM peer WHERE network = ?1 AND id = ?2",
        &[number_value(network), peer_id_value(network, number)],
    )
}

// Deletes the prefixes that lead to a peer.
fn drop_allowed_rows<S: Alter>(
    tx: &mut Transaction<'_, S>,
    network: u32,
    number: u32,
) -> Result<usize, Fault>
    ensures same_reference { tx.new.conn.ghost_name ≡ tx.old.conn.ghost_name }
    ensures step { HasCleanDisk (state S.Store tx.new.conn.now) → StepsOn (AllowedGoes (is_of_peer network (peer_id network number))) (state S.Store tx.old.conn.now) (state S.Store tx.new.conn.now) result }
    ensures survives { Survives (state S.Store tx.old.conn.now) (state S.Store tx.new.conn.now) (λ _. ⊥) }
    ensures cause { FailsBy (AllowedStays network (peer_id network number)) (state S.Store tx.old.conn.now) (state S.Store tx.new.conn.now) result }
{
    execute(
        tx,
        "DELETE FROM allowed WHERE network = ?1 AND peer = ?2",
        &[number_value(network), peer_id_value(network, number)],
    )
}

// Removes a peer.
fn remove_peer<S: Alter>(
    tx: &mut Transaction<'_, S>,
    network: u32,
    number: u32,
) -> Result<usize, Fault>
    ensures same_reference { tx.new.conn.ghost_name ≡ tx.old.conn.ghost_name }
    ensures step { HasCleanDisk (state S.Store tx.new.conn.now) → StepsOn (PeerLeaves network number) (state S.Store tx.old.conn.now) (state S.Store tx.new.conn.now) result }
    ensures survives { Survives (state S.Store tx.old.conn.now) (state S.Store tx.new.conn.now) (λ _. ⊥) }
    ensures cause { FailsBy (PeerStays network number) (state S.Store tx.old.conn.now) (state S.Store tx.new.conn.now) result }
{
    drop_peer_row(tx, network, number)?;
    drop_allowed_rows(tx, network, number)
}

/// Removes each of these peers.
pub(crate) fn remove_peers<S: Alter>(
    tx: &mut Transaction<'_, S>,
    network: u32,
    numbers: &[u32],
) -> Result<(), Fault>
    ensures same_reference { tx.new.conn.ghost_name ≡ tx.old.conn.ghost_name }
    ensures step { HasCleanDisk (state S.Store tx.new.conn.now) → StepsFrom (Each (PeerLeaves network) numbers.now) (state S.Store tx.old.conn.now) (state S.Store tx.new.conn.now) result }
    ensures survives { Survives (state S.Store tx.old.conn.now) (state S.Store tx.new.conn.now) (λ _. ⊥) }
    ensures cause { FailsBy (OneOfEach (PeerLeaves network) (PeerStays network) numbers.now) (state S.Store tx.old.conn.now) (state S.Store tx.new.conn.now) result }
{
    for number in numbers {
        remove_peer(tx, network, *number)?;
    }
    Ok(())
}
