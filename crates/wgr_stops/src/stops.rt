//! A stop at each call on one of the files.
use crate::disks::{Stored, created, file_of, fused, new_register, opened, options};
use crate::rows::all_rows;
use crate::script::{is_done, take_from};
use crate::steps::{STEPS, Step, is_reading};
use sqlite::Connection;
use sqlite_disk::{Crash, Disk, Files, Fuse, Memory};
use std::alloc::AllocGlobal;
use std::process::Abort;
use wgr_register::{OpenFault, Register, RegisterFault};
use wgr_reopen::open_again;

/// The rows of a new register, and those after each step, of a register that is opened for each.
pub(crate) fn rows_between(rt: &(impl Abort + AllocGlobal)) -> Vec<Vec<u8>> {
    let mut all = Vec::new(rt.alloc());
    let mut conn = new_register(rt).into_connection();
    all.push(all_rows(rt, &mut conn)).expect(rt, "memory");
    for step in &STEPS {
        conn = stepped(rt, conn, step);
        all.push(all_rows(rt, &mut conn)).expect(rt, "memory");
    }
    check_changes(rt, &all);
    all
}

fn stepped(
    rt: &(impl Abort + AllocGlobal),
    conn: Connection<Stored>,
    step: &Step,
) -> Connection<Stored> {
    let mut register = opened(rt, conn);
    assert!(rt; is_done(rt, &mut register, step));
    register.into_connection()
}

// Each step changes the rows, unless it only reads.
fn check_changes(rt: &impl Abort, rows: &[Vec<u8>]) {
    let pairs = rows.iter().zip(rows.iter().skip(1));
    for (at, (step, (before, after))) in STEPS.iter().zip(pairs).enumerate() {
        let is_same = before.as_slice() == after.as_slice();
        assert_eq!(rt; is_same, is_reading(step), "step {at}");
    }
}

// Does the steps in new files, each of which fails after this many calls. Returns how many were done, of
// which the making of the register is the first, and the files.
fn run(
    rt: &(impl Abort + AllocGlobal),
    log_calls: u64,
    db_calls: u64,
) -> (usize, Files<Fuse<Memory>>) {
    match fused(rt, log_calls, db_calls) {
        Ok(mut register) => {
            let place = take_from(rt, &mut register, 0);
            let files = register.into_connection().into_store().close();
            (place.saturating_add(1), files)
        }
        Err(files) => (0, files),
    }
}

// The register in files that a stop left when this many steps were done. If it wasn't made yet, the
// files may have none, and one can be made.
fn again(
    rt: &(impl Abort + AllocGlobal),
    files: Files<Fuse<Memory>>,
    done: usize,
) -> Register<Stored> {
    assert!(rt; files.log.may_be_used());
    assert!(rt; files.db.may_be_used());
    match open_again(rt.alloc(), files, options()) {
        Ok(Ok(register)) => register,
        Ok(Err(OpenFault { fault, connection })) => {
            assert_eq!(rt; fault, RegisterFault::NotARegister, "after {done} steps");
            assert_eq!(rt; done, 0);
            created(rt, connection)
        }
        Err(_) => panic!(rt; "the files can't be opened"),
    }
}

// The place of the next step, of a register that was stopped when this many were done: its rows are those
// after them, or those after one more.
fn place_of(rt: &impl Abort, now: &[u8], done: usize, rows: &[Vec<u8>]) -> usize {
    for (at, known) in rows.iter().enumerate() {
        if at.saturating_add(1) >= done && at <= done && known.as_slice() == now {
            return at;
        }
    }
    panic!(rt; "other rows, after {done} steps")
}

// Opens what a stop left when this many steps were done, and does the others.
fn check_left(
    rt: &(impl Abort + AllocGlobal),
    log: &[u8],
    db: &[u8],
    done: usize,
    rows: &[Vec<u8>],
) {
    let files = Files {
        log: file_of(rt, log),
        db: file_of(rt, db),
    };
    let mut conn = again(rt, files, done).into_connection();
    let now = all_rows(rt, &mut conn);
    let place = place_of(rt, &now, done, rows);
    let mut register = opened(rt, conn);
    assert_eq!(rt; take_from(rt, &mut register, place), STEPS.len());
    let mut conn = register.into_connection();
    let last = rows.last().expect(rt, "rows");
    assert_eq!(rt; all_rows(rt, &mut conn).as_slice(), last.as_slice());
}

// In each file a stop leaves all that was written, or only what was synced.
fn check_stopped(
    rt: &(impl Abort + AllocGlobal),
    mut files: Files<Fuse<Memory>>,
    done: usize,
    rows: &[Vec<u8>],
) {
    let log = file_of(rt, files.log.inner().bytes());
    let db = file_of(rt, files.db.inner().bytes());
    files.log.crash();
    files.db.crash();
    for log in [&log, &files.log] {
        for db in [&db, &files.db] {
            check_left(rt, log.inner().bytes(), db.inner().bytes(), done, rows);
        }
    }
}

// Whether the calls sufficed for all steps; if not, what the stop left is checked.
fn is_run(
    rt: &(impl Abort + AllocGlobal),
    log_calls: u64,
    db_calls: u64,
    rows: &[Vec<u8>],
) -> bool {
    let (done, files) = run(rt, log_calls, db_calls);
    if done > STEPS.len() {
        return true;
    }
    check_stopped(rt, files, done, rows);
    false
}

#[test]
fn a_stop_at_each_call_on_the_log(rt: HostRuntime) {
    let rows = rows_between(&rt);
    for calls in 0..2000u64 {
        if is_run(&rt, calls, u64::MAX, &rows) {
            assert!(rt; calls > 100, "stops were tried");
            return;
        }
    }
    panic!(rt; "the log has more calls than were tried");
}

#[test]
fn a_stop_at_each_call_on_the_database(rt: HostRuntime) {
    let rows = rows_between(&rt);
    for calls in 0..2000u64 {
        if is_run(&rt, u64::MAX, calls, &rows) {
            assert!(rt; calls > 20, "stops were tried");
            return;
        }
    }
    panic!(rt; "the file has more calls than were tried");
}
