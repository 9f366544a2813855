//! A walk over all rows of a table, which are tested one after the other as a query returns them.
ghost use Rattle.std.specs.Prelude.{◌≡◌, ◌↔◌, [], false, IsTrue, IfErr, IfOk, IfSome, IfNone};
ghost use Rattle.std.specs.List.Sorted.{IsSorted};
ghost use Rattle.std.specs.Ordering.{int_cmp, nat_cmp};
ghost use Rattle.std.specs.declared.cmp.Ordering.TheVariants.{Less};
ghost use Rattle.sqlite.specs.State.{HasCleanDisk, Survives};
ghost use Rattle.sqlite.specs.Held.{state};
ghost use Rattle.sqlite.specs.Given.{HasGiven};
ghost use Rattle.sqlite.specs.declared.error.Error.TheVariants.{SqliteFailure};
ghost use Rattle.sqlite.specs.declared.error.ErrorCode.TheVariants.{OutOfMemory};
ghost use Rattle.sqlite_value.specs.Order.{column};
ghost use Rattle.sqlite_rules.specs.Edit.{id_in};
ghost use Rattle.wgr_sql.specs.Calls.{IsKept};
ghost use Rattle.wgr_sql.specs.Causes.{HasCause};
ghost use Rattle.wgr_sql.specs.declared.fault.Fault.TheVariants.{NoMemory};
ghost use Rattle.wgr_columns.specs.Fields.{IsIntegerAt};
ghost use Rattle.wgr_columns.specs.LaidOut.{Laid};
ghost use Rattle.wgr_checks.specs.OwnRows.{AreOwnRows};
ghost use Rattle.wgr_checks.specs.TableRows.{IsRowOf, text_of, tree_of};

use crate::table::Table;
use sqlite::{Alter, Connection, Row, Rows};
use wgr_columns::{ROWID, integer_at};
use wgr_sql::{Fault, fault_of};

// Whether a rowid comes after the one before it, if there is one.
fn comes_after(before: Option<i64>, rowid: i64) -> bool
    ensures { IsTrue result ↔ IfSome before (λ last. int_cmp last rowid ≡ Less) }
{
    match before {
        Some(last) => last < rowid,
        None => true,
    }
}

// The rowid of a row that passes: one of the table and of these networks, whose rowid comes after
// the one before it.
fn passing_rowid(row: &Row, before: Option<i64>, table: Table, networks: &[u32]) -> Option<i64>
    ensures some { IsSorted nat_cmp networks.now → IfSome result (λ rowid. IsRowOf table networks.now row.now × IsIntegerAt row.now ROWID × (rowid ≡ id_in (column row.now ROWID)) × IfSome before (λ last. int_cmp last rowid ≡ Less)) }
    ensures rises { IfSome result (λ rowid. IfSome before (λ last. int_cmp last rowid ≡ Less)) }
    ensures none { IsSorted nat_cmp networks.now → IfNone result (IsRowOf table networks.now row.now → IsIntegerAt row.now ROWID → IfSome before (λ last. int_cmp last (id_in (column row.now ROWID)) ≡ Less) → ⊥) }
{
    if !table.is_row_of(row, networks) {
        return None;
    }
    match integer_at(row, ROWID) {
        Some(rowid) if comes_after(before, rowid) => Some(rowid),
        _ => None,
    }
}

// Whether all rows that the table's query is about to return pass. Of the rows that passed only the
// last one's rowid is held. The walk ends, since rowids ascend.
fn all_pass<S: Alter>(rows: &mut Rows<'_, S>, table: Table, networks: &[u32]) -> Result<bool, Fault>
    ensures same_reference { rows.new.conn.ghost_name ≡ rows.old.conn.ghost_name }
    ensures idle { rows.old.conn.now.in_transaction ≡ false → rows.new.conn.now.in_transaction ≡ false }
    ensures answer { HasCleanDisk (state S.Store rows.new.conn.now) → Laid (state S.Store rows.old.conn.now) → IsSorted nat_cmp networks.now → HasGiven S.Store (text_of table) [] rows.old.conn.now []
        → IfOk result (λ is. IsTrue is ↔ AreOwnRows (IsRowOf table networks.now) ((state S.Store rows.old.conn.now).now.trees (tree_of table))) }
    ensures kept { (IsTrue (state S.Store rows.old.conn.now).is_open → (state S.Store rows.old.conn.now).now ≡ (state S.Store rows.old.conn.now).committed) → IsKept (state S.Store rows.old.conn.now) (state S.Store rows.new.conn.now) }
    ensures survives { Survives (state S.Store rows.old.conn.now) (state S.Store rows.new.conn.now) (λ _. ⊥) }
    ensures cause { (HasCleanDisk (state S.Store rows.new.conn.now) → Laid (state S.Store rows.old.conn.now) × HasGiven S.Store (text_of table) [] rows.old.conn.now []) → IfErr result (HasCause (state S.Store rows.old.conn.now) (state S.Store rows.new.conn.now)) }
{
    let mut last = None;
    'rows: loop {
        rows.advance().map_err(
            |error|
                ensures { (result ≡ NoMemory) ↔ (error ≡ SqliteFailure OutOfMemory) }
            { fault_of(error) },
        )?;
        let Some(row) = rows.get() else {
            return Ok(true);
        };
        let Some(rowid) = passing_rowid(row, last, table, networks) else {
            return Ok(false);
        };
        last = Some(rowid);
    }
}

/// Whether all rows of the table belong to these networks, whose ids ascend, and no rowid occurs twice.
/// Nothing is changed. The rows are read one at a time, outside of a transaction: no contract says in
/// which state a dropped `Rows` leaves a transaction.
pub(crate) fn are_own<S: Alter>(
    conn: &mut Connection<S>,
    table: Table,
    networks: &[u32],
) -> Result<bool, Fault>
    requires idle { conn.old.in_transaction ≡ false }
    ensures idle { conn.new.in_transaction ≡ false }
    ensures answer { HasCleanDisk (state S.Store conn.new) → Laid (state S.Store conn.old) → IsSorted nat_cmp networks.now → IfOk result (λ is. IsTrue (state S.Store conn.old).is_open × (IsTrue is ↔ AreOwnRows (IsRowOf table networks.now) ((state S.Store conn.old).now.trees (tree_of table)))) }
    ensures kept { (HasCleanDisk (state S.Store conn.new) → Laid (state S.Store conn.old)) → IsKept (state S.Store conn.old) (state S.Store conn.new) }
    ensures survives { Survives (state S.Store conn.old) (state S.Store conn.new) (λ _. ⊥) }
    ensures cause { (HasCleanDisk (state S.Store conn.new) → Laid (state S.Store conn.old)) → IfErr result (HasCause (state S.Store conn.old) (state S.Store conn.new)) }
{
    let _settled = conn.is_autocommit();
    let mut rows = match conn.query(table.text(), &[]) {
        Ok(rows) => rows,
        Err(error) => return Err(fault_of(error)),
    };
    all_pass(&mut rows, table, networks)
}
