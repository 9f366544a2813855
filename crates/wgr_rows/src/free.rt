//! The lowest address of a network that is free, by its rows.
ghost use Rattle.std.specs.Prelude.{◌≡◌, ◌≤◌, ◌⊎◌, ℕ, IfErr, IfOk, false, nat_eq};
ghost use Rattle.std.specs.HashSet.{contains};
ghost use Rattle.sqlite.specs.State.{HasCleanDisk};
ghost use Rattle.sqlite.specs.Held.{state};
ghost use Rattle.wgr_peers.specs.Peers.{expired as ended};
ghost use Rattle.wgr_core.specs.Network.{is_among, live_at, lowest_free};
ghost use Rattle.wgr_outline.specs.Outline.{IsFloor};
ghost use Rattle.wgr_sql.specs.Causes.{HasCause};
ghost use Rattle.wgr_tables.specs.Standing.{OnlyReads};
ghost use Rattle.wgr_rows.specs.Directed.{OnNetwork};
ghost use Rattle.wgr_rows.specs.HeldRows.{holds_text};

use crate::holds::lowest_in;
use sqlite::types::ValueRef;
use sqlite::{Alter, Connection};
use std::collections::HashSet;
use wgr_columns::{bytes_of, family_value, number_value};
use wgr_pool::Pool;
use wgr_sql::{Fault, fault_of};
use wgr_text::Addr;

// The statement for the rows that hold addresses of a pool, in the order of their prefixes. Without their
// peers, they are read from the primary key alone, and no row of the table is looked up.
fn holds_text(shows_peers: bool) -> &'static str
    ensures { result.now ≡ holds_text shows_peers }
{
    if shows_peers {
        "SELECT NULL, network, family, lo, length, hi, peer, kind FROM allowed WHERE network = ?1 AND family = ?2 AND lo >= ?3 AND lo <= ?4 AND length >= ?5 ORDER BY lo, length"
    } else {
        "SELECT NULL, network, family, lo, length FROM allowed WHERE network = ?1 AND family = ?2 AND lo >= ?3 AND lo <= ?4 AND length >= ?5 ORDER BY lo, length"
    }
}

// The pool's first address, or the floor where that is above it.
fn start_at(first: &Addr, floor: u128) -> Addr
    ensures family { result.family ≡ first.now.family }
    ensures from { first.now.number ≤ result.number }
    ensures one { (result.number ≡ first.now.number) ⊎ (result.number ≡ floor) }
{
    match Addr::new(first.family(), floor) {
        Some(start) if first.number() < floor => start,
        _ => *first,
    }
}

/// The lowest address of the pool that may be given and that no row of the network holds, except the
/// rows that lead to the peers of the numbers in `expired`. It is read outside of a transaction, from the
/// address `floor` on, below which none is free; 0 is such an address of every network.
pub fn free_row<S: Alter>(
    conn: &mut Connection<S>,
    network: u32,
    pool: &Pool,
    floor: u128,
    expired: &HashSet<u32>,
) -> Result<Option<Addr>, Fault>
    requires idle { conn.old.in_transaction ≡ false }
    ensures reads { OnlyReads S.Store conn.old conn.new }
    ensures found { OnNetwork S.Store conn.old network (λ n. HasCleanDisk (state S.Store conn.new) → IfOk result (λ found. (now : ℕ) → pool.now ≡ n.pool
        → ((i : ℕ) → contains nat_eq expired.now i ≡ is_among (ended now n.peers) i) → IsFloor (live_at n now) floor → found ≡ lowest_free (live_at n now) n.pool)) }
    ensures cause { OnNetwork S.Store conn.old network (λ n. pool.now ≡ n.pool → IfErr result (HasCause (state S.Store conn.old) (state S.Store conn.new))) }
{
    let prefix = pool.prefix();
    prefix.rules_hold();
    let span = prefix.span();
    let start = start_at(&span.lo, floor);
    let first = bytes_of(start.number());
    let last = bytes_of(span.hi.number());
    let length = u32::from(prefix.length());
    let shows_peers = !expired.is_empty();
    let _settled = conn.is_autocommit();
    let mut rows = match conn.query(
        holds_text(shows_peers),
        &[
            number_value(network),
            family_value(span.lo.family()),
            ValueRef::Blob(&first),
            ValueRef::Blob(&last),
            number_value(length),
        ],
    ) {
        Ok(rows) => rows,
        Err(error) => return Err(fault_of(error)),
    };
    lowest_in(&mut rows, shows_peers, network, pool, start, expired)
}
