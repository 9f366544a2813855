//! A query in its own transaction, and a statement in its caller's.
ghost use Rattle.std.specs.Prelude.{◌≡◌, ◌↔◌, [], ◌∷◌, false, true, IsTrue, Ok, IfErr, IfOk, IfSome, IfNone, OnErr};
ghost use Rattle.sqlite.specs.declared.error.Error.TheVariants.{SqliteFailure};
ghost use Rattle.sqlite.specs.declared.error.ErrorCode.TheVariants.{OutOfMemory};
ghost use Rattle.sqlite.specs.Values.{bound};
ghost use Rattle.sqlite.specs.State.{HasCleanDisk, Survives, Executes, KeepsCommit, Shows};
ghost use Rattle.sqlite.specs.Held.{state};
ghost use Rattle.sqlite.specs.Given.{IsPlain};
ghost use Rattle.sqlite.specs.Listing.{understood};
ghost use Rattle.wgr_sql.specs.declared.fault.Fault.TheVariants.{NoMemory};
ghost use Rattle.wgr_sql.specs.Calls.{AreMany, IsKept, Answered};
ghost use Rattle.wgr_sql.specs.Causes.{HasCause, HasCauseOr, IsAnswered, IsWriting, Refuses};

use crate::fault::{Fault, fault_of};
use sqlite::types::ValueRef;
use sqlite::{Alter, Connection, Row, Transaction};

/// The rows that a query returns. It runs in its own transaction, which is rolled back, so nothing is
/// committed, whatever the result.
pub fn query<S: Alter>(
    conn: &mut Connection<S>,
    sql: &str,
    values: &[ValueRef<'_>],
) -> Result<Vec<Row>, Fault>
    requires idle { conn.old.in_transaction ≡ false }
    ensures shown { HasCleanDisk (state S.Store conn.new) → IfOk result (λ rows. Answered S.Store sql.now (bound values.now) conn.old rows.items) }
    ensures kept { (IsTrue (state S.Store conn.old).is_open → HasCleanDisk (state S.Store conn.new) → IsPlain (understood conn.old.schema sql.now)) → IsKept (state S.Store conn.old) (state S.Store conn.new) }
    ensures idle { conn.new.in_transaction ≡ false }
    ensures survives { Survives (state S.Store conn.old) (state S.Store conn.new) (λ _. ⊥) }
    ensures cause { (IsTrue (state S.Store conn.old).is_open → HasCleanDisk (state S.Store conn.new) → IsAnswered conn.old.schema sql.now (bound values.now)) → IfErr result (HasCause (state S.Store conn.old) (state S.Store conn.new)) }
{
    let _settled = conn.is_autocommit();
    let mut tx = conn.transaction();
    tx.query_all(sql, values).map_err(
        |error|
            ensures { (result ≡ NoMemory) ↔ (error ≡ SqliteFailure OutOfMemory) }
        { fault_of(error) },
    )
}

/// The one row, if there is one. A key can't have two.
pub fn only(mut rows: Vec<Row>) -> Result<Option<Row>, Fault>
    ensures some { IfOk result (λ found. IfSome found (λ row. rows.items ≡ row ∷ [])) }
    ensures none { IfOk result (λ found. IfNone found (rows.items ≡ [])) }
    ensures only { OnErr result (AreMany rows.items) }
{
    let row = rows.pop();
    if !rows.is_empty() {
        return Err(Fault::DAMAGED);
    }
    Ok(row)
}

/// Runs a statement in its caller's transaction, and returns how many rows it wrote.
pub fn execute<S: Alter>(
    tx: &mut Transaction<'_, S>,
    sql: &str,
    values: &[ValueRef<'_>],
) -> Result<usize, Fault>
    ensures same_reference { tx.new.conn.ghost_name ≡ tx.old.conn.ghost_name }
    ensures ran { HasCleanDisk (state S.Store tx.new.conn.now) → IsTrue (state S.Store tx.old.conn.now).in_transaction
        → IfOk result (λ count. Executes sql.now (bound values.now) (state S.Store tx.old.conn.now) (state S.Store tx.new.conn.now) (Ok count)
        × Shows (state S.Store tx.old.conn.now) (state S.Store tx.new.conn.now) (state S.Store tx.new.conn.now).now (state S.Store tx.old.conn.now).committed true) }
    ensures kept { HasCleanDisk (state S.Store tx.new.conn.now) → IsTrue (state S.Store tx.old.conn.now).in_transaction → KeepsCommit (state S.Store tx.old.conn.now) (state S.Store tx.new.conn.now) }
    ensures survives { Survives (state S.Store tx.old.conn.now) (state S.Store tx.new.conn.now) (λ _. ⊥) }
    ensures cause { IsTrue (state S.Store tx.old.conn.now).in_transaction → (IsTrue (state S.Store tx.old.conn.now).is_open → HasCleanDisk (state S.Store tx.new.conn.now) → IsWriting (state S.Store tx.old.conn.now).now.schema sql.now (bound values.now))
        → IfErr result (HasCauseOr (Refuses (state S.Store tx.old.conn.now).step_limit (state S.Store tx.old.conn.now).now sql.now (bound values.now)) (state S.Store tx.old.conn.now) (state S.Store tx.new.conn.now)) }
{
    tx.execute(sql, values).map_err(
        |error|
            ensures { (result ≡ NoMemory) ↔ (error ≡ SqliteFailure OutOfMemory) }
        { fault_of(error) },
    )
}
