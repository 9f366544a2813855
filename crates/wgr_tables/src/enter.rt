//! Peers that are added to a network, or replace the one with their number.
ghost use Rattle.std.specs.Prelude.{◌≡◌};
ghost use Rattle.sqlite.specs.State.{HasCleanDisk, Survives};
ghost use Rattle.sqlite.specs.Held.{state};
ghost use Rattle.wgr_model.specs.Rows.{peer_id, peer_row, address_row};
ghost use Rattle.wgr_sql.specs.Steps.{Each};
ghost use Rattle.wgr_tables.specs.Stops.{AddressStays, AddressStaysOut, AllRowsStay, FailsBy, OneOfEach, PeerRowStaysOut, PeerRowsStay, PeerStaysOut, PeersStayOut};
ghost use Rattle.wgr_tables.specs.TableSteps.{AllowedGoes, AllowedComes, PeerRowsGo, PeerRowComes, PeerComes, PeersPut, is_address_of};
ghost use Rattle.wgr_tables.specs.Standing.{StepsOn, StepsFrom};

use crate::leave::drop_peer_row;
use crate::range::{drop_range, range_of};
use sqlite::types::ValueRef;
use sqlite::{Alter, Transaction};
use wgr_columns::{bytes_of, end_value, family_value, number_value, peer_id_value, status_values};
use wgr_peers::Peer;
use wgr_sql::{Fault, execute};

// Deletes the row of a peer's address.
fn drop_address<S: Alter>(
    tx: &mut Transaction<'_, S>,
    network: u32,
    number: u32,
) -> Result<usize, Fault>
    ensures same_reference { tx.new.conn.ghost_name ≡ tx.old.conn.ghost_name }
    ensures step { HasCleanDisk (state S.Store tx.new.conn.now) → StepsOn (AllowedGoes (is_address_of network (peer_id network number))) (state S.Store tx.old.conn.now) (state S.Store tx.new.conn.now) result }
    ensures survives { Survives (state S.Store tx.old.conn.now) (state S.Store tx.new.conn.now) (λ _. ⊥) }
    ensures cause { FailsBy (AddressStays network (peer_id network number)) (state S.Store tx.old.conn.now) (state S.Store tx.new.conn.now) result }
{
    execute(
        tx,
        "DELETE FROM allowed WHERE network = ?1 AND peer = ?2 AND kind <> 'route'",
        &[number_value(network), peer_id_value(network, number)],
    )
}

// Deletes the rows of a peer and of its address; the routes to it stay.
fn drop_rows<S: Alter>(
    tx: &mut Transaction<'_, S>,
    network: u32,
    number: u32,
) -> Result<usize, Fault>
    ensures same_reference { tx.new.conn.ghost_name ≡ tx.old.conn.ghost_name }
    ensures step { HasCleanDisk (state S.Store tx.new.conn.now) → StepsOn (PeerRowsGo network number) (state S.Store tx.old.conn.now) (state S.Store tx.new.conn.now) result }
    ensures survives { Survives (state S.Store tx.old.conn.now) (state S.Store tx.new.conn.now) (λ _. ⊥) }
    ensures cause { FailsBy (PeerRowsStay network number) (state S.Store tx.old.conn.now) (state S.Store tx.new.conn.now) result }
{
    drop_peer_row(tx, network, number)?;
    drop_address(tx, network, number)
}

// Deletes the rows of each of these peers, one peer after the other.
fn drop_one_by_one<S: Alter>(
    tx: &mut Transaction<'_, S>,
    network: u32,
    peers: &[Peer],
) -> Result<(), Fault>
    ensures same_reference { tx.new.conn.ghost_name ≡ tx.old.conn.ghost_name }
    ensures step { HasCleanDisk (state S.Store tx.new.conn.now) → StepsFrom (Each (λ p. PeerRowsGo network p.number) peers.now) (state S.Store tx.old.conn.now) (state S.Store tx.new.conn.now) result }
    ensures survives { Survives (state S.Store tx.old.conn.now) (state S.Store tx.new.conn.now) (λ _. ⊥) }
    ensures cause { FailsBy (OneOfEach (λ p. PeerRowsGo network p.number) (λ p. PeerRowsStay network p.number) peers.now) (state S.Store tx.old.conn.now) (state S.Store tx.new.conn.now) result }
{
    for peer in peers {
        drop_rows(tx, network, peer.number)?;
    }
    Ok(())
}

// Deletes the rows of each of these peers.
fn drop_all_rows<S: Alter>(
    tx: &mut Transaction<'_, S>,
    network: u32,
    peers: &[Peer],
) -> Result<(), Fault>
    ensures same_reference { tx.new.conn.ghost_name ≡ tx.old.conn.ghost_name }
    ensures step { HasCleanDisk (state S.Store tx.new.conn.now) → StepsFrom (Each (λ p. PeerRowsGo network p.number) peers.now) (state S.Store tx.old.conn.now) (state S.Store tx.new.conn.now) result }
    ensures survives { Survives (state S.Store tx.old.conn.now) (state S.Store tx.new.conn.now) (λ _. ⊥) }
    ensures cause { FailsBy (AllRowsStay network peers.now) (state S.Store tx.old.conn.now) (state S.Store tx.new.conn.now) result }
{
    if let Some((first, last)) = range_of(peers) {
        drop_range(tx, network, first, last)?;
        return Ok(());
    }
    drop_one_by_one(tx, network, peers)
}

// Adds the row of a peer.
fn add_peer_row<S: Alter>(
    tx: &mut Transaction<'_, S>,
    network: u32,
    peer: &Peer,
) -> Result<usize, Fault>
    ensures same_reference { tx.new.conn.ghost_name ≡ tx.old.conn.ghost_name }
    ensures step { HasCleanDisk (state S.Store tx.new.conn.now) → StepsOn (PeerRowComes (peer_row network peer.now)) (state S.Store tx.old.conn.now) (state S.Store tx.new.conn.now) result }
    ensures survives { Survives (state S.Store tx.old.conn.now) (state S.Store tx.new.conn.now) (λ _. ⊥) }
    ensures cause { FailsBy (PeerRowStaysOut (peer_row network peer.now)) (state S.Store tx.old.conn.now) (state S.Store tx.new.conn.now) result }
{
    let status = status_values(peer.status);
    execute(
        tx,
        "INSERT INTO peer (id, network, key, label, until, keepalive, handshake, received, sent) VALUES (?1, ?2, ?3, ?4, ?5, ?6, ?7, ?8, ?9)",
        &[
            peer_id_value(network, peer.number),
            number_value(network),
            ValueRef::Blob(&peer.key.0),
            ValueRef::Text(peer.label.as_str().as_bytes()),
            end_value(peer.until),
            number_value(u32::from(peer.keepalive)),
            status.0,
            status.1,
            status.2,
        ],
    )
}

// Adds the row of a peer's address.
fn add_address<S: Alter>(
    tx: &mut Transaction<'_, S>,
    network: u32,
    peer: &Peer,
) -> Result<usize, Fault>
    ensures same_reference { tx.new.conn.ghost_name ≡ tx.old.conn.ghost_name }
    ensures step { HasCleanDisk (state S.Store tx.new.conn.now) → StepsOn (AllowedComes (address_row network peer.now)) (state S.Store tx.old.conn.now) (state S.Store tx.new.conn.now) result }
    ensures survives { Survives (state S.Store tx.old.conn.now) (state S.Store tx.new.conn.now) (λ _. ⊥) }
    ensures cause { FailsBy (AddressStaysOut (address_row network peer.now)) (state S.Store tx.old.conn.now) (state S.Store tx.new.conn.now) result }
{
    let family = peer.address.family();
    let bytes = bytes_of(peer.address.number());
    execute(
        tx,
        "INSERT INTO allowed (network, family, lo, length, hi, peer, kind) VALUES (?1, ?2, ?3, ?4, ?5, ?6, 'address')",
        &[
            number_value(network),
            family_value(family),
            ValueRef::Blob(&bytes),
            number_value(u32::from(family.width())),
            ValueRef::Blob(&bytes),
            peer_id_value(network, peer.number),
        ],
    )
}

// Adds the rows of a peer and of its address.
fn add_peer<S: Alter>(
    tx: &mut Transaction<'_, S>,
    network: u32,
    peer: &Peer,
) -> Result<usize, Fault>
    ensures same_reference { tx.new.conn.ghost_name ≡ tx.old.conn.ghost_name }
    ensures step { HasCleanDisk (state S.Store tx.new.conn.now) → StepsOn (PeerComes network peer.now) (state S.Store tx.old.conn.now) (state S.Store tx.new.conn.now) result }
    ensures survives { Survives (state S.Store tx.old.conn.now) (state S.Store tx.new.conn.now) (λ _. ⊥) }
    ensures cause { FailsBy (PeerStaysOut network peer.now) (state S.Store tx.old.conn.now) (state S.Store tx.new.conn.now) result }
{
    add_peer_row(tx, network, peer)?;
    add_address(tx, network, peer)
}

// Adds the rows of each of these peers.
fn add_peers<S: Alter>(
    tx: &mut Transaction<'_, S>,
    network: u32,
    peers: &[Peer],
) -> Result<(), Fault>
    ensures same_reference { tx.new.conn.ghost_name ≡ tx.old.conn.ghost_name }
    ensures step { HasCleanDisk (state S.Store tx.new.conn.now) → StepsFrom (Each (PeerComes network) peers.now) (state S.Store tx.old.conn.now) (state S.Store tx.new.conn.now) result }
    ensures survives { Survives (state S.Store tx.old.conn.now) (state S.Store tx.new.conn.now) (λ _. ⊥) }
    ensures cause { FailsBy (OneOfEach (PeerComes network) (PeerStaysOut network) peers.now) (state S.Store tx.old.conn.now) (state S.Store tx.new.conn.now) result }
{
    for peer in peers {
        add_peer(tx, network, peer)?;
    }
    Ok(())
}

/// Writes each of these peers in place of the one with its number. All old rows are deleted first,
/// since two of the peers may have exchanged their addresses.
pub(crate) fn put_peers<S: Alter>(
    tx: &mut Transaction<'_, S>,
    network: u32,
    peers: &[Peer],
) -> Result<(), Fault>
    ensures same_reference { tx.new.conn.ghost_name ≡ tx.old.conn.ghost_name }
    ensures step { HasCleanDisk (state S.Store tx.new.conn.now) → StepsFrom (PeersPut network peers.now) (state S.Store tx.old.conn.now) (state S.Store tx.new.conn.now) result }
    ensures survives { Survives (state S.Store tx.old.conn.now) (state S.Store tx.new.conn.now) (λ _. ⊥) }
    ensures cause { FailsBy (PeersStayOut network peers.now) (state S.Store tx.old.conn.now) (state S.Store tx.new.conn.now) result }
{
    drop_all_rows(tx, network, peers)?;
    add_peers(tx, network, peers)
}
