//! Peers with consecutive numbers. All their rows are deleted by one statement for each table,
//! instead of one for each peer.
ghost use Rattle.std.specs.Prelude.{◌≡◌, ◌+◌, ◌<◌, ℕ, get_or, length, IfSome, IsTrue};
ghost use Rattle.sqlite.specs.State.{HasCleanDisk, Survives};
ghost use Rattle.sqlite.specs.Held.{state};
ghost use Rattle.wgr_model.specs.Rows.{peer_id};
ghost use Rattle.wgr_peers.specs.declared.peer.Peer.{Peer};
ghost use Rattle.wgr_tables.specs.Stops.{AddressRangeStays, FailsBy, PeerRangeStays, RangeStays};
ghost use Rattle.wgr_tables.specs.TableSteps.{AllowedGoes, AreFrom, PeersGo, RangeGoes, is_address_within};
ghost use Rattle.wgr_tables.specs.Standing.{StepsOn};

use sqlite::{Alter, Transaction};
use wgr_columns::{number_value, peer_id_value};
use wgr_peers::Peer;
use wgr_sql::{Fault, execute};

// Whether each number is one more than the one before it.
fn follow_one_another(peers: &[Peer]) -> bool
    ensures { IsTrue result → (k : ℕ) (d : Peer) → k + 1 < length peers.now → (get_or peers.now (k + 1) d).number ≡ (get_or peers.now k d).number + 1 }
{
    peers.is_sorted_by(|one, other| u64::from(other.number) == u64::from(one.number) + 1)
}

/// The first and the last number of these peers, if there are at least two and no number between
/// them is left out: a range over a gap would delete the rows of a peer that stays.
pub(crate) fn range_of(peers: &[Peer]) -> Option<(u32, u32)>
    ensures { IfSome result (λ ends. AreFrom ends.0 peers.now × (ends.1 + 1 ≡ ends.0 + length peers.now)) }
{
    if peers.len() < 2 || !follow_one_another(peers) {
        return None;
    }
    Some((peers[0].number, peers[peers.len() - 1].number))
}

// Deletes the rows of the peers with these numbers.
fn drop_peer_range<S: Alter>(
    tx: &mut Transaction<'_, S>,
    network: u32,
    first: u32,
    last: u32,
) -> Result<usize, Fault>
    ensures same_reference { tx.new.conn.ghost_name ≡ tx.old.conn.ghost_name }
    ensures step { HasCleanDisk (state S.Store tx.new.conn.now) → StepsOn (PeersGo network (peer_id network first) (peer_id network last)) (state S.Store tx.old.conn.now) (state S.Store tx.new.conn.now) result }
    ensures survives { Survives (state S.Store tx.old.conn.now) (state S.Store tx.new.conn.now) (λ _. ⊥) }
    ensures cause { FailsBy (PeerRangeStays network (peer_id network first) (peer_id network last)) (state S.Store tx.old.conn.now) (state S.Store tx.new.conn.now) result }
{
    execute(
        tx,
        "DELETE FROM peer WHERE network = ?1 AND id >= ?2 AND id <= ?3",
        &[
            number_value(network),
            peer_id_value(network, first),
            peer_id_value(network, last),
        ],
    )
}

// Deletes the rows of their addresses.
fn drop_address_range<S: Alter>(
    tx: &mut Transaction<'_, S>,
    network: u32,
    first: u32,
    last: u32,
) -> Result<usize, Fault>
    ensures same_reference { tx.new.conn.ghost_name ≡ tx.old.conn.ghost_name }
    ensures step { HasCleanDisk (state S.Store tx.new.conn.now) → StepsOn (AllowedGoes (is_address_within network (peer_id network first) (peer_id network last))) (state S.Store tx.old.conn.now) (state S.Store tx.new.conn.now) result }
    ensures survives { Survives (state S.Store tx.old.conn.now) (state S.Store tx.new.conn.now) (λ _. ⊥) }
    ensures cause { FailsBy (AddressRangeStays network (peer_id network first) (peer_id network last)) (state S.Store tx.old.conn.now) (state S.Store tx.new.conn.now) result }
{
    execute(
        tx,
        "DELETE FROM allowed WHERE network = ?1 AND peer >= ?2 AND peer <= ?3 AND kind <> 'route'",
        &[
            number_value(network),
            peer_id_value(network, first),
            peer_id_value(network, last),
        ],
    )
}

/// Deletes the rows of the peers with these numbers and of their addresses; the routes to them
/// stay.
pub(crate) fn drop_range<S: Alter>(
    tx: &mut Transaction<'_, S>,
    network: u32,
    first: u32,
    last: u32,
) -> Result<usize, Fault>
    ensures same_reference { tx.new.conn.ghost_name ≡ tx.old.conn.ghost_name }
    ensures step { HasCleanDisk (state S.Store tx.new.conn.now) → StepsOn (RangeGoes network first last) (state S.Store tx.old.conn.now) (state S.Store tx.new.conn.now) result }
    ensures survives { Survives (state S.Store tx.old.conn.now) (state S.Store tx.new.conn.now) (λ _. ⊥) }
    ensures cause { FailsBy (RangeStays network first last) (state S.Store tx.old.conn.now) (state S.Store tx.new.conn.now) result }
{
    drop_peer_range(tx, network, first, last)?;
    drop_address_range(tx, network, first, last)
}
