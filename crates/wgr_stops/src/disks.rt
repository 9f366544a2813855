//! Registers on disks in memory.
use sqlite::{Connection, FileStore, Options};
use sqlite_disk::{Disk, Files, Fuse, Memory};
use std::alloc::AllocGlobal;
use std::process::Abort;
use wgr_register::{OpenFault, Register};

/// Files in memory, of which each may fail from a call on.
pub(crate) type Stored = FileStore<Fuse<Memory>>;

/// A log is copied into its database as soon as it has four pages.
pub(crate) fn options() -> Options {
    let mut options = Options::new(7);
    options.checkpoint_frames = 4;
    options
}

/// A file of these bytes, which no stop loses.
pub(crate) fn file_of(rt: &(impl Abort + AllocGlobal), bytes: &[u8]) -> Fuse<Memory> {
    fused_of(rt, bytes, u64::MAX)
}

/// The same, which fails after this many calls.
pub(crate) fn fused_of(rt: &(impl Abort + AllocGlobal), bytes: &[u8], calls: u64) -> Fuse<Memory> {
    let mut file = Memory::new(rt.alloc());
    assert!(rt; file.may_be_used());
    file.write_at(0, bytes).expect(rt, "memory");
    assert!(rt; file.may_be_used());
    file.sync().expect(rt, "memory");
    Fuse::new(file, calls)
}

/// The register; the test ends if there is none.
pub(crate) fn found(
    rt: &impl Abort,
    opened: Result<Register<Stored>, OpenFault<Stored>>,
) -> Register<Stored> {
    match opened {
        Ok(register) => register,
        Err(
            OpenFault {
                fault: _fault,
                connection: _conn,
            },
        ) => panic!(rt; "no register is found"),
    }
}

/// The register that is made in the database.
pub(crate) fn created(rt: &impl Abort, conn: Connection<Stored>) -> Register<Stored> {
    assert!(rt; conn.is_autocommit());
    found(rt, Register::create(conn))
}

/// The register that the database holds.
pub(crate) fn opened(
    rt: &(impl Abort + AllocGlobal),
    conn: Connection<Stored>,
) -> Register<Stored> {
    assert!(rt; conn.is_autocommit());
    found(rt, Register::open(rt.alloc(), conn))
}

/// A new register in files that don't fail.
pub(crate) fn new_register(rt: &(impl Abort + AllocGlobal)) -> Register<Stored> {
    match fused(rt, u64::MAX, u64::MAX) {
        Ok(register) => register,
        Err(_) => panic!(rt; "no register is made"),
    }
}

/// A new register in files, each of which fails after this many calls; the files, if it isn't made.
pub(crate) fn fused(
    rt: &(impl Abort + AllocGlobal),
    log_calls: u64,
    db_calls: u64,
) -> Result<Register<Stored>, Files<Fuse<Memory>>> {
    let files = Files {
        log: Fuse::new(Memory::new(rt.alloc()), log_calls),
        db: Fuse::new(Memory::new(rt.alloc()), db_calls),
    };
    assert!(rt; files.log.may_be_used());
    assert!(rt; files.db.may_be_used());
    match Connection::open_files(rt.alloc(), files, options()) {
        Ok(conn) => made(rt, conn),
        Err((_, left)) => Err(left.into_files()),
    }
}

fn made(
    rt: &impl Abort,
    conn: Connection<Stored>,
) -> Result<Register<Stored>, Files<Fuse<Memory>>> {
    assert!(rt; conn.is_autocommit());
    match Register::create(conn) {
        Ok(register) => Ok(register),
        Err(
            OpenFault {
                fault: _fault,
                connection,
            },
        ) => Err(connection.into_store().close()),
    }
}
