//! The rows of peers.
ghost use Rattle.std.specs.Prelude.{◌≡◌, ◌↔◌, false, IsTrue, IfErr, IfOk};
ghost use Rattle.std.specs.List.Sorted.{IsSorted};
ghost use Rattle.std.specs.Ordering.{nat_cmp};
ghost use Rattle.sqlite.specs.State.{HasCleanDisk, Survives};
ghost use Rattle.sqlite.specs.Held.{state};
ghost use Rattle.wgr_sql.specs.Calls.{IsKept};
ghost use Rattle.wgr_sql.specs.Causes.{HasCause};
ghost use Rattle.wgr_columns.specs.Layout.{peer_tree};
ghost use Rattle.wgr_columns.specs.Decode.{IsStatusAbsent, IsStatusThere};
ghost use Rattle.wgr_columns.specs.LaidOut.{Laid};
ghost use Rattle.wgr_checks.specs.PeerRows.{AreWrittenPeers, IsPeerRow, IsPeerRowOf};

use crate::owners::is_among_at;
use crate::table::Table;
use crate::walk::are_own;
use sqlite::{Alter, Connection, Row};
use wgr_columns::{is_null_at, number_at, peer};
use wgr_sql::Fault;

// Whether all counts of a status are in the row.
fn is_status_there(row: &Row) -> bool
    ensures { IsTrue result ↔ IsStatusThere row.now }
{
    number_at(row, peer::HANDSHAKE).is_some()
        && number_at(row, peer::RECEIVED).is_some()
        && number_at(row, peer::SENT).is_some()
}

// Whether they are all NULL.
fn is_status_absent(row: &Row) -> bool
    ensures { IsTrue result ↔ IsStatusAbsent row.now }
{
    is_null_at(row, peer::HANDSHAKE)
        && is_null_at(row, peer::RECEIVED)
        && is_null_at(row, peer::SENT)
}

// Whether this is the row of a peer.
fn is_peer_row(row: &Row) -> bool
    ensures { IsTrue result ↔ IsPeerRow row.now }
{
    number_at(row, peer::ID).is_some()
        && number_at(row, peer::NETWORK).is_some()
        && number_at(row, peer::UNTIL).is_some()
        && number_at(row, peer::KEEPALIVE).is_some()
        && (is_status_there(row) || is_status_absent(row))
}

/// Whether it is the row of a peer of one of these networks.
pub(crate) fn is_peer_row_of(row: &Row, networks: &[u32]) -> bool
    ensures { IsSorted nat_cmp networks.now → IsTrue result ↔ IsPeerRowOf networks.now row.now }
{
    is_peer_row(row) && is_among_at(row, peer::NETWORK, networks)
}

/// Whether the rows of peers are written as the register writes them: their numeric columns hold
/// numbers, a status is wholly present or absent, no two rows share an id, and each is of one of these
/// networks, whose ids ascend. Nothing is changed.
pub fn peers_are_written<S: Alter>(
    conn: &mut Connection<S>,
    networks: &[u32],
) -> Result<bool, Fault>
    requires idle { conn.old.in_transaction ≡ false }
    ensures idle { conn.new.in_transaction ≡ false }
    ensures answer { HasCleanDisk (state S.Store conn.new) → Laid (state S.Store conn.old) → IsSorted nat_cmp networks.now → IfOk result (λ is. IsTrue (state S.Store conn.old).is_open × (IsTrue is ↔ AreWrittenPeers networks.now ((state S.Store conn.old).now.trees peer_tree))) }
    ensures kept { (HasCleanDisk (state S.Store conn.new) → Laid (state S.Store conn.old)) → IsKept (state S.Store conn.old) (state S.Store conn.new) }
    ensures survives { Survives (state S.Store conn.old) (state S.Store conn.new) (λ _. ⊥) }
    ensures cause { (HasCleanDisk (state S.Store conn.new) → Laid (state S.Store conn.old)) → IfErr result (HasCause (state S.Store conn.old) (state S.Store conn.new)) }
{
    are_own(conn, Table::Peers, networks)
}
