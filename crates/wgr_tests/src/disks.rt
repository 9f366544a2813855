//! Databases in memory and on disks in memory.
use sqlite::{Connection, FileStore, MemStore, Options};
use sqlite_disk::{Disk, Files, Memory};
use std::alloc::AllocGlobal;
use std::process::Abort;

/// A new database in memory.
pub(crate) fn in_memory(rt: &(impl Abort + AllocGlobal)) -> Connection<MemStore> {
    Connection::open_in_memory(rt.alloc()).expect(rt, "memory")
}

/// The database in these files, whose log is copied into it as soon as it has four pages.
pub(crate) fn in_files<D: Disk + Drop>(
    rt: &(impl Abort + AllocGlobal),
    files: Files<D>,
) -> Connection<FileStore<D>> {
    let mut options = Options::new(7);
    options.checkpoint_frames = 4;
    assert!(rt; files.log.may_be_used());
    assert!(rt; files.db.may_be_used());
    match Connection::open_files(rt.alloc(), files, options) {
        Ok(conn) => conn,
        Err(_) => panic!(rt; "files"),
    }
}

/// A new database in files.
pub(crate) fn in_new_files(rt: &(impl Abort + AllocGlobal)) -> Connection<FileStore<Memory>> {
    let files = Files {
        log: Memory::new(rt.alloc()),
        db: Memory::new(rt.alloc()),
    };
    in_files(rt, files)
}

// A file of these bytes, which no stop loses.
fn file_of(rt: &(impl Abort + AllocGlobal), bytes: &[u8]) -> Memory {
    let mut file = Memory::new(rt.alloc());
    assert!(rt; file.may_be_used());
    file.write_at(0, bytes).expect(rt, "memory");
    assert!(rt; file.may_be_used());
    file.sync().expect(rt, "memory");
    file
}

/// Copies of both files.
pub(crate) fn copied(rt: &(impl Abort + AllocGlobal), files: &Files<Memory>) -> Files<Memory> {
    Files {
        log: file_of(rt, files.log.bytes()),
        db: file_of(rt, files.db.bytes()),
    }
}
