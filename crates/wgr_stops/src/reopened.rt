//! Each call that opens a register again after a stop.
use crate::disks::{Stored, found, new_register, options};
use crate::rows::all_rows;
use crate::script::take_from;
use crate::steps::STEPS;
use crate::stops::rows_between;
use std::alloc::AllocGlobal;
use std::process::Abort;
use wgr_register::{OpenFault, Register};
use wgr_reopen::{open_again, reopened, stopped, stopped_in_a_call};

// A register on which each step is done.
fn at_the_end(rt: &(impl Abort + AllocGlobal)) -> Register<Stored> {
    let mut register = new_register(rt);
    assert_eq!(rt; take_from(rt, &mut register, 0), STEPS.len());
    register
}

// The register is there again, with all rows.
fn check_again(
    rt: &(impl Abort + AllocGlobal),
    again: Result<Register<Stored>, OpenFault<Stored>>,
) {
    let mut conn = found(rt, again).into_connection();
    let rows = rows_between(rt);
    let last = rows.last().expect(rt, "rows");
    assert_eq!(rt; all_rows(rt, &mut conn).as_slice(), last.as_slice());
}

#[test]
fn a_stopped_register_is_opened_again(rt: HostRuntime) {
    let files = stopped(at_the_end(&rt));
    match open_again(rt.alloc(), files, options()) {
        Ok(again) => check_again(&rt, again),
        Err(_) => panic!(rt; "the files can't be opened"),
    }
}

#[test]
fn a_register_is_reopened(rt: HostRuntime) {
    match reopened(rt.alloc(), at_the_end(&rt), options()) {
        Some(again) => check_again(&rt, again),
        None => panic!(rt; "the files can't be opened"),
    }
}

#[test]
fn a_register_is_stopped_in_a_call(rt: HostRuntime) {
    match stopped_in_a_call(rt.alloc(), at_the_end(&rt), options()) {
        Some(again) => check_again(&rt, again),
        None => panic!(rt; "the files can't be opened"),
    }
}
