//! A register that was stopped, by a kill or a loss of power, and is opened again.
#![tactic(auto)]

mod laws;

ghost use Rattle.std.specs.Prelude.{◌≡◌, List, IsTrue, IfOk, IfErr, IfSome};
ghost use Rattle.sqlite.specs.Effect.{Database};
ghost use Rattle.sqlite.specs.Files.{HoldsDatabase, IsCleanLeft, file_state, image_of, over_files};
ghost use Rattle.sqlite.specs.State.{HasCleanDisk};
ghost use Rattle.sqlite.specs.Tree.{Trees};
ghost use Rattle.sqlite.specs.WalReads.{AreClean};
ghost use Rattle.wgr_model.specs.Steps.{Event};
ghost use Rattle.wgr_register.specs.Standing.{StandsAt};
ghost use Rattle.wgr_schema.specs.declared.fault.RegisterFault.TheVariants.{EarlierVersion, NotARegister, NotEmpty, NotGood};
ghost use Rattle.wgr_opening.specs.Migrated.{CanMigrate};
ghost use Rattle.wgr_schema.specs.declared.version.Version.{Version};
ghost use Rattle.wgr_reopen.specs.Again.{FailsByFault, HoldsLeft, HoldsMigrating, StandsAgain, StandsMigrated, StandsOn};

pub use laws::{answered_stays, done_stays};
use sqlite::{Connection, Error, FileStore, Files, Leftover, Options};
use sqlite_disk::{Crash, Disk, Fuse, Memory};
use std::alloc::Global;
use wgr_register::{OpenFault, Register};

/// The files of the register as a stop leaves them.
pub fn stopped<D: Crash + Drop>(register: Register<FileStore<D>>) -> Files<D>
    ensures log { IsTrue (D.Disk.is_usable result.log) }
    ensures db { IsTrue (D.Disk.is_usable result.db) }
    ensures left { AreClean D.Disk result.log result.db → HasCleanDisk (file_state register)
        × ∥ ((trees : Trees) × (file_state register).may_leave trees × HoldsDatabase (image_of D.Disk result) trees) ∥₁ }
{
    let mut files = register.into_connection().into_store().close();
    files.log.crash();
    files.db.crash();
    files
}

/// Opens the register in files that hold what a stop left of one. It fails only for lack of memory, a fault
/// of the disk or a limit, and what is found is never reported as no register or as one that isn't good.
pub fn open_again<D: Disk + Drop>(
    alloc: Global,
    files: Files<D>,
    options: Options,
) -> Result<Result<Register<FileStore<D>>, OpenFault<FileStore<D>>>, (Error, Leftover<D>)>
    requires log { IsTrue (D.Disk.is_usable files.log) }
    requires db { IsTrue (D.Disk.is_usable files.db) }
    ensures stands { (db : Database) (late : List Event) → HoldsLeft D.Disk files db late → IfOk result (λ opened. IfOk opened (λ again. StandsAgain over_files again db late)) }
    ensures foreign { (db : Database) (late : List Event) → HoldsLeft D.Disk files db late → IfOk result (λ opened. IfErr opened (λ e. HasCleanDisk (file_state e.connection) → e.fault ≡ NotARegister → ⊥)) }
    ensures earlier { (db : Database) (late : List Event) → HoldsLeft D.Disk files db late → IfOk result (λ opened. IfErr opened (λ e. HasCleanDisk (file_state e.connection) → e.fault ≡ EarlierVersion → ⊥)) }
    ensures bad { (db : Database) (late : List Event) → HoldsLeft D.Disk files db late → IfOk result (λ opened. IfErr opened (λ e. HasCleanDisk (file_state e.connection) → e.fault ≡ NotGood → ⊥)) }
    ensures cause { (db : Database) (late : List Event) → HoldsLeft D.Disk files db late → IfErr result (λ e. IsCleanLeft e.1 → FailsByFault D.Disk files e.1 e.0) }
{
    match Connection::open_files(alloc, files, options) {
        Ok(conn) => Ok(Register::open(alloc, conn)),
        Err(refused) => Err(refused),
    }
}

/// Migrates the register in files that hold what a stop in an earlier migration of it left, from whatever version
/// before the third: it ends at the register that the migration makes of what was there at first. It fails only
/// for lack of memory, a fault of the disk, a limit or a refused statement, and what is found is never reported
/// as no register, as one whose names are taken or as one that isn't good.
pub fn migrate_again<D: Disk + Drop>(
    alloc: Global,
    files: Files<D>,
    options: Options,
) -> Result<Result<Register<FileStore<D>>, OpenFault<FileStore<D>>>, (Error, Leftover<D>)>
    requires log { IsTrue (D.Disk.is_usable files.log) }
    requires db { IsTrue (D.Disk.is_usable files.db) }
    ensures stands { (version : Version) (old : Database) → CanMigrate version old → HoldsMigrating D.Disk files old → IfOk result (λ opened. IfOk opened (λ again. StandsMigrated over_files again old)) }
    ensures foreign { (version : Version) (old : Database) → CanMigrate version old → HoldsMigrating D.Disk files old → IfOk result (λ opened. IfErr opened (λ e. HasCleanDisk (file_state e.connection) → e.fault ≡ NotARegister → ⊥)) }
    ensures taken { (version : Version) (old : Database) → CanMigrate version old → HoldsMigrating D.Disk files old → IfOk result (λ opened. IfErr opened (λ e. HasCleanDisk (file_state e.connection) → e.fault ≡ NotEmpty → ⊥)) }
    ensures bad { (version : Version) (old : Database) → CanMigrate version old → HoldsMigrating D.Disk files old → IfOk result (λ opened. IfErr opened (λ e. HasCleanDisk (file_state e.connection) → e.fault ≡ NotGood → ⊥)) }
    ensures earlier { IfOk result (λ opened. IfErr opened (λ e. e.fault ≡ EarlierVersion → ⊥)) }
    ensures cause { (old : Database) → HoldsMigrating D.Disk files old → IfErr result (λ e. IsCleanLeft e.1 → FailsByFault D.Disk files e.1 e.0) }
{
    match Connection::open_files(alloc, files, options) {
        Ok(conn) => Ok(Register::migrate(alloc, conn)),
        Err(refused) => Err(refused),
    }
}

/// Stops the register at this moment, and opens its files again; none where they can't be opened.
///
/// What is found is a register with the rows that it had, or with those after one event that was
/// answered with a fault since the last acknowledged change.
pub fn reopened<D: Crash + Drop>(
    alloc: Global,
    register: Register<FileStore<D>>,
    options: Options,
) -> Option<Result<Register<FileStore<D>>, OpenFault<FileStore<D>>>>
    ensures stands { (db : Database) (late : List Event) → StandsAt over_files register db late → IfSome result (λ opened. IfOk opened (λ again. StandsAgain over_files again db late)) }
    ensures foreign { (db : Database) (late : List Event) → StandsAt over_files register db late → IfSome result (λ opened. IfErr opened (λ e. HasCleanDisk (file_state e.connection) → e.fault ≡ NotARegister → ⊥)) }
    ensures earlier { (db : Database) (late : List Event) → StandsAt over_files register db late → IfSome result (λ opened. IfErr opened (λ e. HasCleanDisk (file_state e.connection) → e.fault ≡ EarlierVersion → ⊥)) }
    ensures bad { (db : Database) (late : List Event) → StandsAt over_files register db late → IfSome result (λ opened. IfErr opened (λ e. HasCleanDisk (file_state e.connection) → e.fault ≡ NotGood → ⊥)) }
    ensures taken { IfSome result (λ opened. IfErr opened (λ e. e.fault ≡ NotEmpty → ⊥)) }
{
    let files = stopped(register);
    match Connection::open_files(alloc, files, options) {
        Ok(conn) => Some(Register::open(alloc, conn)),
        Err(_) => None,
    }
}

/// As [`reopened`], on disks in memory whose fuse blew at some call, so that each later one failed: a
/// stop in the middle of whatever the register did. No premise about the disk is needed.
pub fn stopped_in_a_call(
    alloc: Global,
    register: Register<FileStore<Fuse<Memory>>>,
    options: Options,
) -> Option<Result<Register<FileStore<Fuse<Memory>>>, OpenFault<FileStore<Fuse<Memory>>>>>
    ensures { (db : Database) (late : List Event) → StandsAt over_files register db late → IfSome result (λ opened. IfOk opened (λ again. StandsOn over_files again db late)) }
{
    reopened(alloc, register, options)
}
