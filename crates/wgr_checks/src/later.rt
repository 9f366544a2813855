//! The table of second pools, which is found by its name: whether it has rows.
ghost use Rattle.std.specs.Prelude.{◌≡◌, ◌↔◌, [], codes, false, IsTrue, IfErr, IfOk};
ghost use Rattle.sqlite.specs.State.{HasCleanDisk, Survives};
ghost use Rattle.sqlite.specs.Held.{state};
ghost use Rattle.wgr_sql.specs.Calls.{IsKept};
ghost use Rattle.wgr_sql.specs.Causes.{HasCause};
ghost use Rattle.wgr_sql.specs.Named.{rows_named};
ghost use Rattle.wgr_checks.specs.Later.{MayShowSeconds};

use sqlite::{Alter, Connection};
use wgr_sql::{Fault, query};

/// Whether no network has a second pool. Nothing is changed.
pub fn has_no_seconds<S: Alter>(conn: &mut Connection<S>) -> Result<bool, Fault>
    requires idle { conn.old.in_transaction ≡ false }
    ensures idle { conn.new.in_transaction ≡ false }
    ensures answer { HasCleanDisk (state S.Store conn.new) → MayShowSeconds (state S.Store conn.old)
        → IfOk result (λ is. IsTrue (state S.Store conn.old).is_open × (IsTrue is ↔ (rows_named (state S.Store conn.old).now (codes "second") ≡ []))) }
    ensures kept { (HasCleanDisk (state S.Store conn.new) → MayShowSeconds (state S.Store conn.old)) → IsKept (state S.Store conn.old) (state S.Store conn.new) }
    ensures survives { Survives (state S.Store conn.old) (state S.Store conn.new) (λ _. ⊥) }
    ensures cause { (HasCleanDisk (state S.Store conn.new) → MayShowSeconds (state S.Store conn.old)) → IfErr result (HasCause (state S.Store conn.old) (state S.Store conn.new)) }
{
    let pools = query(conn, "SELECT network FROM second", &[])?;
    Ok(pools.is_empty())
}
