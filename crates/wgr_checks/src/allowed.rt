//! The rows of allowed prefixes.
ghost use Rattle.std.specs.Prelude.{◌≡◌, ◌↔◌, false, IsTrue, IfErr, IfOk};
ghost use Rattle.std.specs.List.Sorted.{IsSorted};
ghost use Rattle.std.specs.Ordering.{nat_cmp};
ghost use Rattle.sqlite.specs.State.{HasCleanDisk, Survives};
ghost use Rattle.sqlite.specs.Held.{state};
ghost use Rattle.wgr_sql.specs.Calls.{IsKept};
ghost use Rattle.wgr_sql.specs.Causes.{HasCause};
ghost use Rattle.wgr_columns.specs.Layout.{allowed_tree};
ghost use Rattle.wgr_columns.specs.LaidOut.{Laid};
ghost use Rattle.wgr_checks.specs.AllowedRows.{AreWrittenAllowed, IsAllowedRow, IsAllowedRowOf};

use crate::owners::is_among_at;
use crate::table::Table;
use crate::walk::are_own;
use sqlite::{Alter, Connection, Row};
use wgr_columns::{address_number_at, allowed, family_at, is_route_at, number_at};
use wgr_sql::Fault;

// Whether this is the row of an allowed prefix.
fn is_allowed_row(row: &Row) -> bool
    ensures { IsTrue result ↔ IsAllowedRow row.now }
{
    number_at(row, allowed::NETWORK).is_some()
        && family_at(row, allowed::FAMILY).is_some()
        && address_number_at(row, allowed::LO).is_some()
        && number_at(row, allowed::LENGTH).is_some()
        && address_number_at(row, allowed::HI).is_some()
        && number_at(row, allowed::PEER).is_some()
        && is_route_at(row, allowed::KIND).is_some()
}

/// Whether it is the row of an allowed prefix in one of these networks.
pub(crate) fn is_allowed_row_of(row: &Row, networks: &[u32]) -> bool
    ensures { IsSorted nat_cmp networks.now → IsTrue result ↔ IsAllowedRowOf networks.now row.now }
{
    is_allowed_row(row) && is_among_at(row, allowed::NETWORK, networks)
}

/// Whether the rows of allowed prefixes are written as the register writes them: their numeric columns
/// hold numbers, each has a family, a kind and two addresses of 16 bytes, no two rows share a rowid, and
/// each is in one of these networks, whose ids ascend. Nothing is changed.
pub fn allowed_are_written<S: Alter>(
    conn: &mut Connection<S>,
    networks: &[u32],
) -> Result<bool, Fault>
    requires idle { conn.old.in_transaction ≡ false }
    ensures idle { conn.new.in_transaction ≡ false }
    ensures answer { HasCleanDisk (state S.Store conn.new) → Laid (state S.Store conn.old) → IsSorted nat_cmp networks.now → IfOk result (λ is. IsTrue (state S.Store conn.old).is_open × (IsTrue is ↔ AreWrittenAllowed networks.now ((state S.Store conn.old).now.trees allowed_tree))) }
    ensures kept { (HasCleanDisk (state S.Store conn.new) → Laid (state S.Store conn.old)) → IsKept (state S.Store conn.old) (state S.Store conn.new) }
    ensures survives { Survives (state S.Store conn.old) (state S.Store conn.new) (λ _. ⊥) }
    ensures cause { (HasCleanDisk (state S.Store conn.new) → Laid (state S.Store conn.old)) → IfErr result (HasCause (state S.Store conn.old) (state S.Store conn.new)) }
{
    are_own(conn, Table::Allowed, networks)
}
