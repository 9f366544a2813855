//! What is written in one commit.
ghost use Rattle.std.specs.Prelude.{◌≡◌, ◌↔◌, false};
ghost use Rattle.sqlite.specs.declared.error.Error.TheVariants.{SqliteFailure};
ghost use Rattle.sqlite.specs.declared.error.ErrorCode.TheVariants.{OutOfMemory};
ghost use Rattle.sqlite.specs.State.{HasCleanDisk, Survives};
ghost use Rattle.sqlite.specs.Held.{state};
ghost use Rattle.wgr_model.specs.Rows.{Tables};
ghost use Rattle.wgr_sql.specs.declared.fault.Fault.TheVariants.{NoMemory};
ghost use Rattle.wgr_tables.specs.Stops.{FailsBy};
ghost use Rattle.wgr_tables.specs.Writes.{Written};
ghost use Rattle.wgr_tables.specs.Standing.{Commits, MayWrite, StepsAs};

use sqlite::{Alter, Connection, Transaction};
use wgr_sql::{Fault, fault_of};

/// What one commit writes: its statements are run in one transaction.
pub trait Writing {
    /// Which write it is, on a register of these rows.
    ghost writes: { Self → Tables → Written → Type 0 };

    /// Whether the database refuses one of its statements, on a register of these rows.
    ghost stops: { Self → Tables → Type 0 };

    /// Runs its statements.
    fn run<S: Alter>(&self, tx: &mut Transaction<'_, S>) -> Result<usize, Fault>
        ensures same_reference { tx.new.conn.ghost_name ≡ tx.old.conn.ghost_name }
        ensures step { HasCleanDisk (state S.Store tx.new.conn.now) → StepsAs (writes self.now) (state S.Store tx.old.conn.now) (state S.Store tx.new.conn.now) result }
        ensures survives { Survives (state S.Store tx.old.conn.now) (state S.Store tx.new.conn.now) (λ _. ⊥) }
        ensures cause { FailsBy (stops self.now) (state S.Store tx.old.conn.now) (state S.Store tx.new.conn.now) result };
}

/// Commits what is written. If it succeeds, the rows are those after the write, and nothing is pending;
/// if it fails, the rows are as before, and a stop may leave the write.
pub fn commit<S: Alter, W: Writing>(conn: &mut Connection<S>, writing: &W) -> Result<(), Fault>
    requires idle { conn.old.in_transaction ≡ false }
    ensures keeps { MayWrite S.Store conn.old conn.new }
    ensures commits { Commits S.Store (W.writes writing.now) (W.stops writing.now) conn.old conn.new result }
{
    let _settled = conn.is_autocommit();
    let mut tx = conn.transaction();
    writing.run(&mut tx)?;
    tx.commit().map_err(
        |error|
            ensures { (result ≡ NoMemory) ↔ (error ≡ SqliteFailure OutOfMemory) }
        { fault_of(error) },
    )
}
