//! Takes a register's tables to the third version.
ghost use Rattle.std.specs.Prelude.{◌≡◌, ◌↔◌, [], false, IsTrue, IfErr, OnErr, OnOk};
ghost use Rattle.sqlite.specs.Effect.{Database};
ghost use Rattle.sqlite.specs.State.{HasCleanDisk, Survives};
ghost use Rattle.sqlite.specs.Held.{state};
ghost use Rattle.sqlite.specs.declared.error.Error.TheVariants.{SqliteFailure};
ghost use Rattle.sqlite.specs.declared.error.ErrorCode.TheVariants.{OutOfMemory};
ghost use Rattle.wgr_sql.specs.Calls.{IsKept};
ghost use Rattle.wgr_sql.specs.Causes.{HasCauseOr};
ghost use Rattle.wgr_sql.specs.declared.fault.Fault.TheVariants.{NoMemory};
ghost use Rattle.wgr_tables.specs.Standing.{Stands};
ghost use Rattle.wgr_schema.specs.Fresh.{Lays};
ghost use Rattle.wgr_schema.specs.Upgrade.{Begins, IsUpgraded, LeavesUpgraded, MadeBoth, MadeSecond, MayUpgrade, StopsFrom, StopsUpgrade};
ghost use Rattle.wgr_schema.specs.declared.version.Version.TheVariants.{One, Three};

use crate::version::Version;
use sqlite::{Alter, Connection, Transaction};
use wgr_sql::{Fault, execute, fault_of};

// Whether the version has no table `second`.
fn lacks_second(version: Version) -> bool
    ensures is { IsTrue result → version ≡ One }
    ensures only { version ≡ One → IsTrue result }
{
    matches!(version, Version::One)
}

fn is_third(version: Version) -> bool
    ensures is { IsTrue result → version ≡ Three }
    ensures only { version ≡ Three → IsTrue result }
{
    matches!(version, Version::Three)
}

// Creates the table of second pools.
fn create_second<S: Alter>(tx: &mut Transaction<'_, S>) -> Result<usize, Fault>
    ensures same_reference { tx.new.conn.ghost_name ≡ tx.old.conn.ghost_name }
    ensures step { HasCleanDisk (state S.Store tx.new.conn.now) → (start : Database) → Lays (Begins One start) (MadeSecond start) (state S.Store tx.old.conn.now) (state S.Store tx.new.conn.now) result }
    ensures survives { Survives (state S.Store tx.old.conn.now) (state S.Store tx.new.conn.now) (λ _. ⊥) }
    ensures cause { (start : Database) → StopsFrom (StopsUpgrade start) (Begins One start) (state S.Store tx.old.conn.now) (state S.Store tx.new.conn.now) result }
{
    execute(
        tx,
        "CREATE TABLE second (network INTEGER PRIMARY KEY, family INTEGER NOT NULL, lo BLOB NOT NULL, length INTEGER NOT NULL) STRICT",
        &[],
    )
}

// Creates the table of tokens that only read.
fn create_reader<S: Alter>(tx: &mut Transaction<'_, S>) -> Result<usize, Fault>
    ensures same_reference { tx.new.conn.ghost_name ≡ tx.old.conn.ghost_name }
    ensures step { HasCleanDisk (state S.Store tx.new.conn.now) → (start : Database) → Lays (MadeSecond start) (MadeBoth start) (state S.Store tx.old.conn.now) (state S.Store tx.new.conn.now) result }
    ensures survives { Survives (state S.Store tx.old.conn.now) (state S.Store tx.new.conn.now) (λ _. ⊥) }
    ensures cause { (start : Database) → StopsFrom (StopsUpgrade start) (MadeSecond start) (state S.Store tx.old.conn.now) (state S.Store tx.new.conn.now) result }
{
    execute(
        tx,
        "CREATE TABLE reader (digest BLOB NOT NULL PRIMARY KEY) STRICT",
        &[],
    )
}

fn create_both<S: Alter>(tx: &mut Transaction<'_, S>) -> Result<usize, Fault>
    ensures same_reference { tx.new.conn.ghost_name ≡ tx.old.conn.ghost_name }
    ensures step { HasCleanDisk (state S.Store tx.new.conn.now) → (start : Database) → Lays (Begins One start) (MadeBoth start) (state S.Store tx.old.conn.now) (state S.Store tx.new.conn.now) result }
    ensures survives { Survives (state S.Store tx.old.conn.now) (state S.Store tx.new.conn.now) (λ _. ⊥) }
    ensures cause { (start : Database) → StopsFrom (StopsUpgrade start) (Begins One start) (state S.Store tx.old.conn.now) (state S.Store tx.new.conn.now) result }
{
    create_second(tx)?;
    create_reader(tx)
}

// Creates the tables that the version lacks.
fn create_missing<S: Alter>(tx: &mut Transaction<'_, S>, from: Version) -> Result<usize, Fault>
    ensures same_reference { tx.new.conn.ghost_name ≡ tx.old.conn.ghost_name }
    ensures step { HasCleanDisk (state S.Store tx.new.conn.now) → (start : Database) → Lays (Begins from start) (MadeBoth start) (state S.Store tx.old.conn.now) (state S.Store tx.new.conn.now) result }
    ensures survives { Survives (state S.Store tx.old.conn.now) (state S.Store tx.new.conn.now) (λ _. ⊥) }
    ensures cause { (start : Database) → StopsFrom (StopsUpgrade start) (Begins from start) (state S.Store tx.old.conn.now) (state S.Store tx.new.conn.now) result }
{
    if lacks_second(from) {
        return create_both(tx);
    }
    create_reader(tx)
}

// Writes the third version in place of the one that is there.
fn say_third<S: Alter>(tx: &mut Transaction<'_, S>) -> Result<usize, Fault>
    ensures same_reference { tx.new.conn.ghost_name ≡ tx.old.conn.ghost_name }
    ensures step { HasCleanDisk (state S.Store tx.new.conn.now) → (start : Database) → Lays (MadeBoth start) (IsUpgraded start) (state S.Store tx.old.conn.now) (state S.Store tx.new.conn.now) result }
    ensures survives { Survives (state S.Store tx.old.conn.now) (state S.Store tx.new.conn.now) (λ _. ⊥) }
    ensures cause { (start : Database) → StopsFrom (StopsUpgrade start) (MadeBoth start) (state S.Store tx.old.conn.now) (state S.Store tx.new.conn.now) result }
{
    execute(tx, "DELETE FROM meta", &[])?;
    execute(tx, "INSERT INTO meta (version) VALUES (3)", &[])
}

// Creates the tables that the version lacks, and writes the third.
fn write_third<S: Alter>(tx: &mut Transaction<'_, S>, from: Version) -> Result<usize, Fault>
    ensures same_reference { tx.new.conn.ghost_name ≡ tx.old.conn.ghost_name }
    ensures step { HasCleanDisk (state S.Store tx.new.conn.now) → (start : Database) → Lays (Begins from start) (IsUpgraded start) (state S.Store tx.old.conn.now) (state S.Store tx.new.conn.now) result }
    ensures survives { Survives (state S.Store tx.old.conn.now) (state S.Store tx.new.conn.now) (λ _. ⊥) }
    ensures cause { (start : Database) → StopsFrom (StopsUpgrade start) (Begins from start) (state S.Store tx.old.conn.now) (state S.Store tx.new.conn.now) result }
{
    create_missing(tx, from)?;
    say_third(tx)
}

/// Takes the register's tables from this version to the third, in one commit: creates the tables that it lacks,
/// and writes the version. Of a register of the third version it changes nothing.
///
/// What it promises is of a database with `MayUpgrade`: one whose tables are of this version, with no object that
/// has the name of a table that is to come. A fault of the store has a cause, or the database refuses a statement,
/// as where it has no room for one more table. After a fault the database is as it was.
pub fn upgrade<S: Alter>(conn: &mut Connection<S>, from: Version) -> Result<(), Fault>
    requires idle { conn.old.in_transaction ≡ false }
    ensures idle { conn.new.in_transaction ≡ false }
    ensures done { HasCleanDisk (state S.Store conn.new) → MayUpgrade from (state S.Store conn.old).now → OnOk result (IsUpgraded (state S.Store conn.old).now (state S.Store conn.new).now) }
    ensures stands { HasCleanDisk (state S.Store conn.new) → MayUpgrade from (state S.Store conn.old).now → IsTrue (state S.Store conn.old).is_open → OnOk result (Stands S.Store conn.new (state S.Store conn.new).now []) }
    ensures live { HasCleanDisk (state S.Store conn.new) → (IsTrue (state S.Store conn.old).is_open → MayUpgrade from (state S.Store conn.old).now) → (from ≡ Three → ⊥) → OnOk result (IsTrue (state S.Store conn.old).is_open) }
    ensures same { from ≡ Three → (conn.new ≡ conn.old) × OnErr result ⊥ }
    ensures kept { (HasCleanDisk (state S.Store conn.new) → IsTrue (state S.Store conn.old).is_open → MayUpgrade from (state S.Store conn.old).now) → OnErr result (IsKept (state S.Store conn.old) (state S.Store conn.new)) }
    ensures survives { Survives (state S.Store conn.old) (state S.Store conn.new) (λ trees. (IsTrue (state S.Store conn.old).is_open → MayUpgrade from (state S.Store conn.old).now) → IsTrue (state S.Store conn.old).is_open × LeavesUpgraded (state S.Store conn.old).now trees) }
    ensures cause { (HasCleanDisk (state S.Store conn.new) → IsTrue (state S.Store conn.old).is_open → MayUpgrade from (state S.Store conn.old).now) → IfErr result (HasCauseOr (StopsUpgrade (state S.Store conn.old).now) (state S.Store conn.old) (state S.Store conn.new)) }
{
    let _settled = conn.is_autocommit();
    if is_third(from) {
        return Ok(());
    }
    let mut tx = conn.transaction();
    write_third(&mut tx, from)?;
    tx.commit().map_err(
        |error|
            ensures { (result ≡ NoMemory) ↔ (error ≡ SqliteFailure OutOfMemory) }
        { fault_of(error) },
    )
}
