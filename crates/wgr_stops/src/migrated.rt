//! A stop at each call on one of the files in a migration, from each earlier version.
use crate::disks::{Stored, file_of, found, fused_of, new_register, options};
use crate::rows::first_rows;
use crate::script::take_from;
use crate::steps::STEPS;
use sqlite::Connection;
use sqlite_disk::{Crash, Disk, Files, Fuse, Memory};
use std::alloc::AllocGlobal;
use std::process::Abort;
use wgr_register::{OpenFault, Register};
use wgr_reopen::migrate_again;

// What makes a register of an earlier version of one of the third.
const TO_FIRST: &str = "DROP TABLE second; DROP TABLE reader; UPDATE meta SET version = 1";

const TO_SECOND: &str = "DROP TABLE reader; UPDATE meta SET version = 2";

// The files of a register of an earlier version on which each step was done, with its rows there and in
// the third.
#[derive(Drop)]
struct Earlier {
    log: Vec<u8>,
    db: Vec<u8>,
    before: Vec<u8>,
    after: Vec<u8>,
}

fn bytes_of(rt: &(impl Abort + AllocGlobal), file: &Fuse<Memory>) -> Vec<u8> {
    let mut bytes = Vec::new(rt.alloc());
    bytes
        .extend_from_slice(file.inner().bytes())
        .expect(rt, "memory");
    bytes
}

fn make_earlier(rt: &(impl Abort + AllocGlobal), statements: &str) -> Earlier {
    let mut register = new_register(rt);
    assert_eq!(rt; take_from(rt, &mut register, 0), STEPS.len());
    let mut conn = register.into_connection();
    let after = first_rows(rt, &mut conn);
    conn.execute_batch(statements).expect(rt, "statements");
    let before = first_rows(rt, &mut conn);
    let files = conn.into_store().close();
    Earlier {
        log: bytes_of(rt, &files.log),
        db: bytes_of(rt, &files.db),
        before,
        after,
    }
}

// Migrates the register in these files; the files, if that fails.
fn migrated(
    rt: &(impl Abort + AllocGlobal),
    files: Files<Fuse<Memory>>,
) -> Result<Register<Stored>, Files<Fuse<Memory>>> {
    assert!(rt; files.log.may_be_used());
    assert!(rt; files.db.may_be_used());
    let conn = match Connection::open_files(rt.alloc(), files, options()) {
        Ok(conn) => conn,
        Err((_, left)) => return Err(left.into_files()),
    };
    assert!(rt; conn.is_autocommit());
    match Register::migrate(rt.alloc(), conn) {
        Ok(register) => Ok(register),
        Err(
            OpenFault {
                fault: _fault,
                connection,
            },
        ) => Err(connection.into_store().close()),
    }
}

// Copies of these files, as a stop left them.
fn files_of(rt: &(impl Abort + AllocGlobal), log: &[u8], db: &[u8]) -> Files<Fuse<Memory>> {
    Files {
        log: file_of(rt, log),
        db: file_of(rt, db),
    }
}

// The rows in files that a stop left.
fn rows_left(rt: &(impl Abort + AllocGlobal), files: Files<Fuse<Memory>>) -> Vec<u8> {
    assert!(rt; files.log.may_be_used());
    assert!(rt; files.db.may_be_used());
    match Connection::open_files(rt.alloc(), files, options()) {
        Ok(mut conn) => first_rows(rt, &mut conn),
        Err(_) => panic!(rt; "the files can't be opened"),
    }
}

// The rows of the register that a migration makes of what a stop left.
fn rows_migrated(rt: &(impl Abort + AllocGlobal), files: Files<Fuse<Memory>>) -> Vec<u8> {
    assert!(rt; files.log.may_be_used());
    assert!(rt; files.db.may_be_used());
    match migrate_again(rt.alloc(), files, options()) {
        Ok(again) => {
            let mut conn = found(rt, again).into_connection();
            first_rows(rt, &mut conn)
        }
        Err(_) => panic!(rt; "the files can't be opened"),
    }
}

// What a stop left has the rows of one version or the other, and is migrated again.
fn check_left(rt: &(impl Abort + AllocGlobal), log: &[u8], db: &[u8], register: &Earlier) {
    let rows = rows_left(rt, files_of(rt, log, db));
    let is_before = rows.as_slice() == register.before.as_slice();
    let is_after = rows.as_slice() == register.after.as_slice();
    assert!(rt; is_before || is_after);
    let rows = rows_migrated(rt, files_of(rt, log, db));
    assert_eq!(rt; rows.as_slice(), register.after.as_slice());
}

// In each file a stop leaves all that was written, or only what was synced.
fn check_stopped(
    rt: &(impl Abort + AllocGlobal),
    mut files: Files<Fuse<Memory>>,
    register: &Earlier,
) {
    let log = file_of(rt, files.log.inner().bytes());
    let db = file_of(rt, files.db.inner().bytes());
    files.log.crash();
    files.db.crash();
    for log in [&log, &files.log] {
        for db in [&db, &files.db] {
            check_left(rt, log.inner().bytes(), db.inner().bytes(), register);
        }
    }
}

// Whether so many calls suffice for the migration; if not, what the stop left is checked.
fn is_migrated(
    rt: &(impl Abort + AllocGlobal),
    log_calls: u64,
    db_calls: u64,
    register: &Earlier,
) -> bool {
    let files = Files {
        log: fused_of(rt, &register.log, log_calls),
        db: fused_of(rt, &register.db, db_calls),
    };
    match migrated(rt, files) {
        Ok(done) => {
            let mut conn = done.into_connection();
            assert_eq!(rt;
                first_rows(rt, &mut conn).as_slice(),
                register.after.as_slice()
            );
            true
        }
        Err(files) => {
            check_stopped(rt, files, register);
            false
        }
    }
}

// Stops at each call on one of the files, until they suffice; how many were tried.
fn stops(rt: &(impl Abort + AllocGlobal), register: &Earlier, is_log: bool) -> u64 {
    for calls in 0..500u64 {
        let done = if is_log {
            is_migrated(rt, calls, u64::MAX, register)
        } else {
            is_migrated(rt, u64::MAX, calls, register)
        };
        if done {
            return calls;
        }
    }
    panic!(rt; "the migration has more calls than were tried")
}

fn check_stops(rt: &(impl Abort + AllocGlobal), statements: &str) {
    let register = make_earlier(rt, statements);
    assert!(rt; stops(rt, &register, true) > 10, "stops were tried");
    assert!(rt; stops(rt, &register, false) > 2, "stops were tried");
}

#[test]
fn a_stop_at_each_call_from_the_first_version(rt: HostRuntime) {
    check_stops(&rt, TO_FIRST);
}

#[test]
fn a_stop_at_each_call_from_the_second_version(rt: HostRuntime) {
    check_stops(&rt, TO_SECOND);
}
