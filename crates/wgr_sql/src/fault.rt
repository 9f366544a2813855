//! Why a statement failed.
ghost use Rattle.std.specs.Prelude.{◌≡◌, ◌≢◌, ◌↔◌};
ghost use Rattle.sqlite.specs.declared.error.Error.TheVariants.{SqliteFailure};
ghost use Rattle.sqlite.specs.declared.error.ErrorCode.TheVariants.{OutOfMemory};
ghost use Rattle.wgr_sql.specs.Faults.{cause_of};
ghost use Rattle.wgr_sql.specs.declared.fault.Fault.TheVariants.{NoMemory, Store};

use sqlite::{Error, ErrorCode};

/// Why a statement failed.
#[derive(Clone, Copy, Debug, PartialEq, Eq)]
pub enum Fault {
    /// An allocation failed.
    NoMemory,
    /// Any other error of the store, or invalid contents.
    Store(Cause),
}

/// What was wrong with the store.
#[derive(Clone, Copy, Debug, PartialEq, Eq)]
pub enum Cause {
    /// Another process has the database open.
    Busy,
    /// The file can't be opened: by its permissions or those of its directory, or since there is no room for its log.
    Denied,
    /// The file isn't a database, or its contents are invalid.
    Damaged,
    /// The disk is full.
    Full,
    /// Any other error of the file system, or of a statement.
    Other,
}

impl Fault {
    /// Invalid contents.
    pub const DAMAGED: Fault = Fault::Store(Cause::Damaged);
}

/// The fault for an error of the database.
pub fn fault_of(error: Error) -> Fault
    ensures memory { (result ≡ NoMemory) ↔ (error ≡ SqliteFailure OutOfMemory) }
    ensures cause { error ≢ SqliteFailure OutOfMemory → result ≡ Store (cause_of error) }
{
    let Error::SqliteFailure(code) = error else {
        return Fault::Store(Cause::Other);
    };
    match code {
        ErrorCode::OutOfMemory => Fault::NoMemory,
        ErrorCode::DatabaseBusy => Fault::Store(Cause::Busy),
        ErrorCode::CannotOpen => Fault::Store(Cause::Denied),
        ErrorCode::NotADatabase | ErrorCode::DatabaseCorrupt => Fault::DAMAGED,
        ErrorCode::DiskFull => Fault::Store(Cause::Full),
        _ => Fault::Store(Cause::Other),
    }
}
