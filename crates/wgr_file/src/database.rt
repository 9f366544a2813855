//! Databases in two files of the system: the database's own and its log.
ghost use Rattle.std.specs.Prelude.{◌≡◌, IfOk, IfSome, false};
ghost use Rattle.sqlite.specs.Effect.{IsDatabase};
ghost use Rattle.sqlite.specs.Files.{file_state};
ghost use Rattle.sqlite.specs.State.{HasCleanDisk};
ghost use Rattle.sqlite.specs.WalFiles.{image_at};
ghost use Rattle.wgr_file.specs.OnFiles.{AreThoseOf, IsClosedTo};

use sqlite::{Connection, FileFrom, FileStore, Files, Start};
use sqlite_disk::Disk;
use std::fs;
use std::io::ErrorKind;
use wgr_register::Fault;
use wgr_sql::{Cause, fault_of};

/// Both files as they were closed; none where they couldn't be, and then no contract says what they hold.
pub type Closed<S> = Option<Files<FileFrom<S>>>;

/// The database in the file at this path; none where there is no file, and then none is made.
pub(crate) fn find<S: Start>(
    rt: &HostRuntime,
    path: &str,
    start: S,
) -> Result<Option<Connection<FileStore<FileFrom<S>>>>, Fault>
    ensures idle { IfOk result (λ found. IfSome found (λ conn. conn.in_transaction ≡ false)) }
    ensures sound { IfOk result (λ found. IfSome found (λ conn. HasCleanDisk (file_state conn) → IsDatabase (file_state conn).now)) }
    ensures found { IfOk result (λ found. IfSome found (λ conn. HasCleanDisk (file_state conn) → AreThoseOf (image_at S.Start) (file_state conn).now.trees)) }
{
    match fs::exists(rt, path) {
        Ok(false) => Ok(None),
        Ok(true) => match make(rt, path, start) {
            Ok(conn) => Ok(Some(conn)),
            Err(why) => Err(why),
        },
        Err(error) if error.kind() == ErrorKind::PermissionDenied => {
            Err(Fault::Store(Cause::Denied))
        }
        Err(_) => Err(Fault::Store(Cause::Other)),
    }
}

/// The database in the file at this path, an empty one where there is no file.
pub(crate) fn make<S: Start>(
    rt: &HostRuntime,
    path: &str,
    start: S,
) -> Result<Connection<FileStore<FileFrom<S>>>, Fault>
    ensures idle { IfOk result (λ conn. conn.in_transaction ≡ false) }
    ensures sound { IfOk result (λ conn. HasCleanDisk (file_state conn) → IsDatabase (file_state conn).now) }
    ensures found { IfOk result (λ conn. HasCleanDisk (file_state conn) → AreThoseOf (image_at S.Start) (file_state conn).now.trees) }
{
    match Connection::open_from(rt, path, false, start) {
        Ok(conn) => Ok(conn),
        Err((error, _)) => Err(fault_of(error)),
    }
}

/// Puts all that was committed into the file of the database itself, and gives both files back; none
/// where that fails.
pub(crate) fn close<D: Disk + Drop>(conn: Connection<FileStore<D>>) -> Option<Files<D>>
    requires idle { conn.in_transaction ≡ false }
    ensures { IsClosedTo D.Disk result conn }
{
    let _settled = conn.is_autocommit();
    match conn.close_files() {
        Ok(files) => Some(files),
        Err((_, store)) => {
            drop(store.close());
            None
        }
    }
}
