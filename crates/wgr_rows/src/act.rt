//! Add and Owner on the rows of one network, which isn't loaded.
ghost use Rattle.std.specs.Prelude.{◌≡◌, ◌≤◌, ◌+◌, ℕ, IfErr, IfOk, Some, None, [], ◌∷◌, false, is_some, nat_lt, not, true, length};
ghost use Rattle.std.specs.List.{All};
ghost use Rattle.sqlite.specs.State.{HasCleanDisk};
ghost use Rattle.sqlite.specs.Held.{state};
ghost use Rattle.wgr_peers.specs.Limits.{max_number};
ghost use Rattle.wgr_peers.specs.PeerIndex.{EndsFrom};
ghost use Rattle.wgr_peers.specs.Peers.{expired};
ghost use Rattle.wgr_core.specs.Change.{Meets};
ghost use Rattle.wgr_core.specs.Network.{live_at};
ghost use Rattle.wgr_core.specs.Outcome.{is_reading, outcome_of};
ghost use Rattle.wgr_core.specs.Refusals.{place};
ghost use Rattle.wgr_outline.specs.Outline.{IsFloor, IsOutline};
ghost use Rattle.wgr_sql.specs.Causes.{HasCause};
ghost use Rattle.wgr_tables.specs.Standing.{OnlyReads};
ghost use Rattle.wgr_rows.specs.Act.{Admits, IfFails, IsPlaced, as_acted, is_directed, is_plain};
ghost use Rattle.wgr_rows.specs.Directed.{OnNetwork};
ghost use Rattle.wgr_rows.specs.Settings.{AreSettingsOf};

use crate::allowed::allowed_row;
use crate::count::count_rows;
use crate::expired::expired_rows;
use crate::fault::RowFault;
use crate::free::free_row;
use crate::head::head_row;
use crate::key::key_row;
use crate::owner::owner_row;
use sqlite::{Alter, Connection};
use std::alloc::{AllocError, Global};
use wgr_columns::NetworkSettings;
use wgr_core::{Change, Command, Joining, PeerView, Refusal, Reply, address_refusal, number_set};
use wgr_outline::Outline;
use wgr_peers::{Items, LeaseEnd, Peer};
use wgr_sql::Fault;
use wgr_text::{Addr, Key, Prefix};

/// Whether [`row_act`] takes the command.
pub fn is_directed(command: &Command) -> bool
    ensures { result ≡ is_directed command.now }
{
    matches!(command, Command::Add { .. } | Command::Owner { .. })
}

// What a network has for a new peer: its own row, and the numbers of the peers whose leases are over.
#[derive(Drop)]
struct Admission {
    head: NetworkSettings,
    expired: Vec<u32>,
}

// Whether the network has room for one more live peer. Numbers are given from 1 on, so that a network in
// which fewer numbers were given than it may have peers has room.
fn has_room<S: Alter>(
    conn: &mut Connection<S>,
    network: u32,
    head: &NetworkSettings,
    over: &[u32],
) -> Result<bool, Fault>
    requires idle { conn.old.in_transaction ≡ false }
    ensures reads { OnlyReads S.Store conn.old conn.new }
    ensures found { OnNetwork S.Store conn.old network (λ n. HasCleanDisk (state S.Store conn.new) → (now : ℕ) → AreSettingsOf n head.now → over.now ≡ expired now n.peers → IfOk result (λ has. has ≡ nat_lt (length (live_at n now).peers) n.capacity)) }
    ensures cause { OnNetwork S.Store conn.old network (λ n. IfErr result (HasCause (state S.Store conn.old) (state S.Store conn.new))) }
{
    let most = u32::from(head.capacity.peers());
    if head.next <= most {
        return Ok(true);
    }
    let count = count_rows(conn, network)?;
    Ok(count < over.len() + most as usize)
}

// What the network has for a new peer with this key and this end of its lease, or why it may not join.
// No lease of the network ends before `soonest`.
fn admit_row<S: Alter>(
    alloc: Global,
    conn: &mut Connection<S>,
    network: u32,
    now: u64,
    soonest: u64,
    key: &Key,
    until: LeaseEnd,
) -> Result<Admission, RowFault>
    requires idle { conn.old.in_transaction ≡ false }
    ensures reads { OnlyReads S.Store conn.old conn.new }
    ensures found { OnNetwork S.Store conn.old network (λ n. HasCleanDisk (state S.Store conn.new) → All (EndsFrom soonest) n.peers → Admits n now key.now until result) }
    ensures head { OnNetwork S.Store conn.old network (λ n. HasCleanDisk (state S.Store conn.new) → IfOk result (λ admission. AreSettingsOf n admission.head)) }
    ensures left { IfOk result (λ admission. admission.head.next ≤ max_number) }
    ensures cause { OnNetwork S.Store conn.old network (λ n. IfErr result (IfFails (HasCause (state S.Store conn.old) (state S.Store conn.new)))) }
{
    let head = head_row(alloc, conn, network)?;
    let key_holder = key_row(conn, network, now, key)?;
    let expired = expired_rows(alloc, conn, network, now, soonest)?;
    let has_room = has_room(conn, network, &head, expired.as_slice())?;
    let joining = Joining {
        server: head.server,
        key_holder,
        has_room,
        next: head.next,
    };
    match joining.refusal(now, key, until) {
        Some(why) => Err(RowFault::Refused(why)),
        None => Ok(Admission { head, expired }),
    }
}

// The address that a new peer gets: the named one, if it may, or the lowest that is free. None is free
// below the address `floor`.
fn place_row<S: Alter>(
    alloc: Global,
    conn: &mut Connection<S>,
    network: u32,
    now: u64,
    floor: u128,
    admission: &Admission,
    wanted: Option<Addr>,
) -> Result<Addr, RowFault>
    requires idle { conn.old.in_transaction ≡ false }
    ensures reads { OnlyReads S.Store conn.old conn.new }
    ensures found { OnNetwork S.Store conn.old network (λ n. HasCleanDisk (state S.Store conn.new) → AreSettingsOf n admission.now.head → admission.now.expired.items ≡ expired now n.peers → IsFloor (live_at n now) floor → IsPlaced (place (live_at n now) n.pool wanted) result) }
    ensures cause { OnNetwork S.Store conn.old network (λ n. (HasCleanDisk (state S.Store conn.new) → AreSettingsOf n admission.now.head) → IfErr result (IfFails (HasCause (state S.Store conn.old) (state S.Store conn.new)))) }
{
    let pool = &admission.head.pool;
    if let Some(address) = wanted {
        let holder = allowed_row(conn, network, now, &Prefix::full(address))?;
        return match address_refusal(pool, &address, holder.is_some()) {
            Some(why) => Err(RowFault::Refused(why)),
            None => Ok(address),
        };
    }
    let expired = number_set(alloc, admission.expired.as_slice())?;
    match free_row(conn, network, pool, floor, &expired)? {
        Some(address) => Ok(address),
        None => Err(RowFault::Refused(Refusal::PoolFull)),
    }
}

// The new peer's view, and the change by which it joins and these peers leave.
fn joined(
    alloc: Global,
    peer: Peer,
    removed: Vec<u32>,
) -> Result<(Reply, Option<Change>), AllocError>
    requires { peer.number ≤ max_number }
    ensures { IfOk result (λ given. given ≡ (Reply.Peer (record { peer = peer; routes = [] }), Some (record { removed = removed.items; peers = peer ∷ []; routes_put = []; routes_gone = []; next = peer.number + 1 }))) }
{
    let mut peers = Vec::new(alloc);
    peers.push(peer.copy()?)?;
    let change = Change {
        removed: Items::of(removed),
        peers: Items::of(peers),
        routes_put: Items::new(alloc),
        routes_gone: Items::new(alloc),
        next: peer.number + 1,
    };
    let routes = Items::new(alloc);
    Ok((Reply::Peer(PeerView { peer, routes }), Some(change)))
}

/// What Add or Owner answers at this moment on the network that the rows of this id form, and what it
/// changes, as `Network::act` answers on the network that they load. Nothing is written. The outline is
/// one of this network; [`Outline::unknown`] is one of every network.
///
/// It reads the rows that decide: the network's own, the one with the key, those of its expired peers once
/// a lease may have ended, and, for the lowest free address, the held addresses from the outline's floor up
/// to the first gap. For Owner at most one row for each length of a prefix, and its peer's.
pub fn row_act<S: Alter>(
    alloc: Global,
    conn: &mut Connection<S>,
    network: u32,
    now: u64,
    outline: &Outline,
    command: &Command,
) -> Result<(Reply, Option<Change>), RowFault>
    requires idle { conn.old.in_transaction ≡ false }
    requires directed { is_directed command.now ≡ true }
    ensures reads { OnlyReads S.Store conn.old conn.new }
    ensures outcome { OnNetwork S.Store conn.old network (λ n. HasCleanDisk (state S.Store conn.new) → IsOutline outline.now n → Meets n (as_acted result) (outcome_of n now command.now)) }
    ensures change { IfOk result (λ given. is_some given.1 ≡ not (is_reading command.now)) }
    ensures plain { IfOk result (λ given. is_plain given.0 ≡ true) }
    ensures cause { OnNetwork S.Store conn.old network (λ n. IfErr result (IfFails (HasCause (state S.Store conn.old) (state S.Store conn.new)))) }
{
    match command {
        Command::Add {
            key,
            label,
            address,
            until,
            keepalive,
        } => {
            let admission = admit_row(alloc, conn, network, now, outline.end, key, *until)?;
            let floor = outline.floor_at(now);
            let address = place_row(alloc, conn, network, now, floor, &admission, *address)?;
            let peer = Peer {
                number: admission.head.next,
                key: *key,
                label: label.copy()?,
                address,
                second: None,
                until: *until,
                keepalive: *keepalive,
                status: None,
            };
            Ok(joined(alloc, peer, admission.expired)?)
        }
        Command::Owner { address } => match owner_row(conn, network, now, address)? {
            Some(number) => Ok((Reply::Owner(number), None)),
            None => Err(RowFault::Refused(Refusal::NobodysAddress)),
        },
        _ => unreachable!(),
    }
}
