//! The rows of the tables that are found by their names.
ghost use Rattle.std.specs.Prelude.{◌≡◌, ◌↔◌, false, IsTrue, IfErr, IfOk};
ghost use Rattle.sqlite.specs.State.{HasCleanDisk, Survives};
ghost use Rattle.sqlite.specs.Held.{state};
ghost use Rattle.wgr_sql.specs.Calls.{IsKept};
ghost use Rattle.wgr_sql.specs.Causes.{HasCause};
ghost use Rattle.wgr_columns.specs.Layout.{token_tree};
ghost use Rattle.wgr_checks.specs.TokenRows.{HaveOwnDigests};
ghost use Rattle.wgr_opening.specs.Good.{AreLaterGood, IsReadyIn, HasSoundRows};
ghost use Rattle.wgr_schema.specs.declared.version.Version.TheVariants.{Three};

use sqlite::{Alter, Connection};
use std::alloc::Global;
use wgr_checks::{has_no_seconds, readers_are_good};
use wgr_schema::Version;
use wgr_sql::Fault;

/// Whether the rows of those of this version are good, if those of tokens are. One that it lacks has none.
pub(crate) fn are_later_good<S: Alter>(
    alloc: Global,
    conn: &mut Connection<S>,
    version: Version,
) -> Result<bool, Fault>
    requires idle { conn.old.in_transaction ≡ false }
    ensures idle { conn.new.in_transaction ≡ false }
    ensures good { HasCleanDisk (state S.Store conn.new) → IsReadyIn version (state S.Store conn.old)
        → IfOk result (λ is. IsTrue is → IsTrue (state S.Store conn.old).is_open → HaveOwnDigests ((state S.Store conn.old).now.trees token_tree) → AreLaterGood (state S.Store conn.old).now) }
    ensures bad { HasCleanDisk (state S.Store conn.new) → IsReadyIn version (state S.Store conn.old) → IfOk result (λ is. is ≡ false → IsTrue (state S.Store conn.old).is_open × (HasSoundRows (state S.Store conn.old).now → ⊥)) }
    ensures kept { (HasCleanDisk (state S.Store conn.new) → IsReadyIn version (state S.Store conn.old)) → IsKept (state S.Store conn.old) (state S.Store conn.new) }
    ensures survives { Survives (state S.Store conn.old) (state S.Store conn.new) (λ _. ⊥) }
    ensures cause { (HasCleanDisk (state S.Store conn.new) → IsReadyIn version (state S.Store conn.old)) → IfErr result (HasCause (state S.Store conn.old) (state S.Store conn.new)) }
{
    match version {
        Version::One => Ok(true),
        Version::Two => has_no_seconds(conn),
        Version::Three => are_both_good(alloc, conn),
    }
}

fn are_both_good<S: Alter>(alloc: Global, conn: &mut Connection<S>) -> Result<bool, Fault>
    requires idle { conn.old.in_transaction ≡ false }
    ensures idle { conn.new.in_transaction ≡ false }
    ensures answer { HasCleanDisk (state S.Store conn.new) → IsReadyIn Three (state S.Store conn.old)
        → IfOk result (λ is. IsTrue (state S.Store conn.old).is_open × (HaveOwnDigests ((state S.Store conn.old).now.trees token_tree) → IsTrue is ↔ AreLaterGood (state S.Store conn.old).now)) }
    ensures kept { (HasCleanDisk (state S.Store conn.new) → IsReadyIn Three (state S.Store conn.old)) → IsKept (state S.Store conn.old) (state S.Store conn.new) }
    ensures survives { Survives (state S.Store conn.old) (state S.Store conn.new) (λ _. ⊥) }
    ensures cause { (HasCleanDisk (state S.Store conn.new) → IsReadyIn Three (state S.Store conn.old)) → IfErr result (HasCause (state S.Store conn.old) (state S.Store conn.new)) }
{
    if !has_no_seconds(conn)? {
        return Ok(false);
    }
    readers_are_good(alloc, conn)
}
