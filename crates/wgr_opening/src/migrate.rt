//! A register of an earlier version is taken to the present one. The tests are, in this order, the version, the
//! names of the tables that it lacks, and all rows (`check.rt`); then the tables change, in one commit
//! (`wgr_schema`).
ghost use Rattle.std.specs.Prelude.{◌≡◌, ◌↔◌, ◌≤◌, ◌&&◌, [], false, if◌then◌else◌, nat_lt, Ok, Err, IfErr, IfOk, IsTrue, OnErr};
ghost use Rattle.sqlite.specs.Effect.{Database};
ghost use Rattle.sqlite.specs.State.{HasCleanDisk, Survives};
ghost use Rattle.sqlite.specs.Held.{state};
ghost use Rattle.wgr_sql.specs.Calls.{IsKept};
ghost use Rattle.wgr_sql.specs.Causes.{HasCause, HasCauseOr};
ghost use Rattle.wgr_schema.specs.Faults.{IfStatementFails};
ghost use Rattle.wgr_schema.specs.Upgrade.{StopsUpgrade};
ghost use Rattle.wgr_schema.specs.Versions.{AreFree, IsOfVersion, version_number};
ghost use Rattle.wgr_schema.specs.declared.version.Version.{Version};
ghost use Rattle.wgr_schema.specs.declared.fault.RegisterFault.TheVariants.{EarlierVersion, NotARegister, NotEmpty, NotGood};
ghost use Rattle.wgr_columns.specs.Decode.{tables_of};
ghost use Rattle.wgr_tables.specs.Standing.{Stands};
ghost use Rattle.wgr_opening.specs.Good.{IsReady, IsReadyIn, HasSoundRows};
ghost use Rattle.wgr_opening.specs.Migrated.{IsMigrated, LeavesMigrated, MayMigrate};
ghost use Rattle.wgr_opening.specs.Outlines.{AreOutlines, outline_in};

use crate::check::audit;
use crate::outlines::Outlines;
use sqlite::{Alter, Connection};
use sqlite_schema::schema::Schema;
use std::alloc::Global;
use wgr_schema::{
    RegisterFault, Version, are_free, lacks_counters, register_fault, upgrade, version_of,
};

// The lowest version of which nothing has the name of a table that it lacks.
fn lowest_free(schema: &Schema) -> Version
    ensures { (version : Version) → AreFree version schema.now ↔ (version_number result ≤ version_number version) }
{
    if are_free(schema, Version::One) {
        return Version::One;
    }
    if are_free(schema, Version::Two) {
        return Version::Two;
    }
    Version::Three
}

// The version from which the tables can be taken to the third.
fn version_from<S: Alter>(conn: &mut Connection<S>) -> Result<Version, RegisterFault>
    requires idle { conn.old.in_transaction ≡ false }
    ensures idle { conn.new.in_transaction ≡ false }
    ensures right { HasCleanDisk (state S.Store conn.new) → IfOk result (λ version. IsReady version (state S.Store conn.old).now × MayMigrate version (state S.Store conn.old).now) }
    ensures foreign { HasCleanDisk (state S.Store conn.new) → result ≡ Err NotARegister → (version : Version) → MayMigrate version (state S.Store conn.old).now → ⊥ }
    ensures taken { HasCleanDisk (state S.Store conn.new) → result ≡ Err NotEmpty → (version : Version) → IsReady version (state S.Store conn.old).now → ⊥ }
    ensures bad { result ≡ Err NotGood → ⊥ }
    ensures earlier { result ≡ Err EarlierVersion → ⊥ }
    ensures kept { IsKept (state S.Store conn.old) (state S.Store conn.new) }
    ensures survives { Survives (state S.Store conn.old) (state S.Store conn.new) (λ _. ⊥) }
    ensures cause { IfErr result (IfStatementFails (HasCause (state S.Store conn.old) (state S.Store conn.new))) }
{
    let lacks = lacks_counters(conn.schema());
    let free = lowest_free(conn.schema());
    match version_of(conn) {
        Ok(Some(version)) => may_migrate(version, lacks, free),
        Ok(None) => Err(RegisterFault::NotARegister),
        Err(fault) => Err(register_fault(fault)),
    }
}

// The version, if a register of it can be migrated: it is the third, or no table lacks its counters; and it
// isn't below the lowest one of which all names are free.
fn may_migrate(
    version: Version,
    lacks_counters: bool,
    free: Version,
) -> Result<Version, RegisterFault>
    ensures { result ≡ (if nat_lt (version_number version) 3 && lacks_counters then Err NotARegister else if nat_lt (version_number version) (version_number free) then Err NotEmpty else Ok version) }
{
    if version.number() < Version::Three.number() && lacks_counters {
        return Err(RegisterFault::NotARegister);
    }
    if version.number() < free.number() {
        return Err(RegisterFault::NotEmpty);
    }
    Ok(version)
}

// The outlines of the networks of a register of this version.
fn audited<S: Alter>(
    alloc: Global,
    conn: &mut Connection<S>,
    version: Version,
) -> Result<Outlines, RegisterFault>
    requires idle { conn.old.in_transaction ≡ false }
    ensures idle { conn.new.in_transaction ≡ false }
    ensures good { HasCleanDisk (state S.Store conn.new) → IsReadyIn version (state S.Store conn.old)
        → IfOk result (λ outlines. IsTrue (state S.Store conn.old).is_open × HasSoundRows (state S.Store conn.old).now × Stands S.Store conn.new (state S.Store conn.old).now [] × AreOutlines (outline_in outlines) (tables_of (state S.Store conn.old).now)) }
    ensures bad { HasCleanDisk (state S.Store conn.new) → IsReadyIn version (state S.Store conn.old) → result ≡ Err NotGood → IsTrue (state S.Store conn.old).is_open × (HasSoundRows (state S.Store conn.old).now → ⊥) }
    ensures foreign { result ≡ Err NotARegister → ⊥ }
    ensures taken { result ≡ Err NotEmpty → ⊥ }
    ensures earlier { result ≡ Err EarlierVersion → ⊥ }
    ensures kept { (HasCleanDisk (state S.Store conn.new) → IsReadyIn version (state S.Store conn.old)) → IsKept (state S.Store conn.old) (state S.Store conn.new) }
    ensures survives { Survives (state S.Store conn.old) (state S.Store conn.new) (λ _. ⊥) }
    ensures cause { (HasCleanDisk (state S.Store conn.new) → IsReadyIn version (state S.Store conn.old)) → IfErr result (IfStatementFails (HasCause (state S.Store conn.old) (state S.Store conn.new))) }
{
    match audit(alloc, conn, version) {
        Ok(Some(outlines)) => Ok(outlines),
        Ok(None) => Err(RegisterFault::NotGood),
        Err(fault) => Err(register_fault(fault)),
    }
}

/// Takes the register that the database holds to the third version of its tables, in one commit. One of the third
/// version stays as it is. It returns the outlines of the networks.
///
/// `NotARegister` means that the database lacks the register's tables or has those of no version that is known,
/// or that a table of somebody's own counts its rowids while SQLite's table of the counters is missing;
/// `NotEmpty`, that something has the name of a table that the version lacks; `NotGood`, that the rows aren't those
/// of a consistent register. A fault of the store has a cause, or the database refuses a statement. After any of
/// them the database is as it was.
pub fn migrate_tables<S: Alter>(
    alloc: Global,
    conn: &mut Connection<S>,
) -> Result<Outlines, RegisterFault>
    requires idle { conn.old.in_transaction ≡ false }
    ensures idle { conn.new.in_transaction ≡ false }
    ensures done { HasCleanDisk (state S.Store conn.new) → IfOk result (λ outlines. (db : Database) × IsMigrated (state S.Store conn.old).now db × Stands S.Store conn.new db [] × AreOutlines (outline_in outlines) (tables_of db)) }
    ensures foreign { HasCleanDisk (state S.Store conn.new) → result ≡ Err NotARegister → (version : Version) → MayMigrate version (state S.Store conn.old).now → ⊥ }
    ensures taken { HasCleanDisk (state S.Store conn.new) → result ≡ Err NotEmpty → (version : Version) → IsReady version (state S.Store conn.old).now → ⊥ }
    ensures bad { HasCleanDisk (state S.Store conn.new) → result ≡ Err NotGood → HasSoundRows (state S.Store conn.old).now → ⊥ }
    ensures earlier { result ≡ Err EarlierVersion → ⊥ }
    ensures kept { OnErr result (IsKept (state S.Store conn.old) (state S.Store conn.new)) }
    ensures clean { HasCleanDisk (state S.Store conn.new) → HasCleanDisk (state S.Store conn.old) }
    ensures survives { Survives (state S.Store conn.old) (state S.Store conn.new) (LeavesMigrated (state S.Store conn.old).now) }
    ensures cause { IfErr result (IfStatementFails (HasCauseOr (StopsUpgrade (state S.Store conn.old).now) (state S.Store conn.old) (state S.Store conn.new))) }
{
    let version = version_from(conn)?;
    let outlines = audited(alloc, conn, version)?;
    match upgrade(conn, version) {
        Ok(()) => Ok(outlines),
        Err(fault) => Err(register_fault(fault)),
    }
}
