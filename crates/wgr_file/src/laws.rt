//! What follows for a register in files. Each function but `killed` does nothing: its contract is the law.
ghost use Rattle.std.specs.Prelude.{IsTrue};
ghost use Rattle.sqlite.specs.Files.{file_state};
ghost use Rattle.sqlite.specs.State.{HasCleanDisk};
ghost use Rattle.sqlite_disk.specs.Events.{IsHonest};
ghost use Rattle.sqlite_disk.specs.Modelled.{calls_of, start_of};
ghost use Rattle.sqlite_store.specs.FileStore.{files as store_files};
ghost use Rattle.wgr_file.specs.Laws.{ClosedIsInFiles, CopyHasAll, FoundIsStored, KilledIsFound, MadeIsInFiles, MigratedIsInFiles, NextFindsTheLast, OrdersEndInFiles, UnknownIsEmpty};

use sqlite::{FileStore, Files, Start};
use sqlite_disk::{Calls, Disk, Modelled};
use wgr_register::Register;

/// An order that is done leaves the rows after its step on those that the files held, and one that is
/// refused or fails leaves those: this is what the files read as, and what they will after any stop.
pub fn orders_end_in_files<D: Disk>(files: &Files<D>)
    ensures { OrdersEndInFiles D.Disk files.now }
{
    let _files = files;
}

/// The files hold the register whose rows a connection had when it was closed: so those after a list of
/// requests, or after connections, are in them.
pub fn closed_is_in_files<D: Disk>(files: &Files<D>)
    ensures { ClosedIsInFiles D.Disk files.now }
{
    let _files = files;
}

/// A register that was made is in the files.
pub fn made_is_in_files<D: Disk>(files: &Files<D>)
    ensures { MadeIsInFiles D.Disk files.now }
{
    let _files = files;
}

/// A register that was migrated is in the files.
pub fn migrated_is_in_files<D: Disk>(files: &Files<D>)
    ensures { MigratedIsInFiles D.Disk files.now }
{
    let _files = files;
}

/// The register that a contract names is the one that the files held.
pub fn found_is_reported()
    ensures { FoundIsStored }
{}

/// The next command finds the register that the last one left, whatever stop was between them: so commands
/// on the same files are one run.
pub fn next_finds_the_last<D: Disk>(files: &Files<D>)
    ensures { NextFindsTheLast D.Disk files.now }
{
    let _files = files;
}

/// The file of the database has everything by itself: a copy without the log is the same register.
pub fn copies_have_all<D: Disk>(files: &Files<D>)
    ensures { CopyHasAll D.Disk files.now }
{
    let _files = files;
}

/// The files of a register whose process is killed: nothing of it is closed. Whatever of the calls on them is on
/// the disk then, the register that the next command finds has the acknowledged rows, or those after one event more
/// that was answered with a fault since.
pub fn killed<D: Disk + Drop>(register: Register<FileStore<D>>) -> Files<D>
    ensures { KilledIsFound D.Disk register result }
{
    register.into_connection().into_store().close()
}

/// Where the calls on both files were answered as by honest files that held what `S` says, the disk is
/// clean, so the statements about rows hold.
pub fn honest_files_are_clean<C: Calls + Drop, S: Start>(
    register: &Register<FileStore<Modelled<C, S>>>,
)
    ensures { let log = (store_files register.now.store).0 in let db = (store_files register.now.store).1 in
        IsHonest (start_of S.Start log) (C.Calls.history (calls_of log)) → IsHonest (start_of S.Start db) (C.Calls.history (calls_of db)) → HasCleanDisk (file_state register.now) }
{
    let _register = register;
}

/// `Unknown` says nothing about a file that isn't empty. So the laws are stated for any other first contents.
pub fn unknown_is_empty()
    ensures { UnknownIsEmpty }
{}
