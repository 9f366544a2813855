//! A register of an earlier version is taken to the third, and answers as before.
use super::opened::{PEERS, SCRIPTS};
use super::stored::{NETWORKS, empty, opened, run};
use crate::disks::{in_memory, in_new_files};
use sqlite::{Alter, Connection};
use std::alloc::AllocGlobal;
use std::process::Abort;
use wgr_plain::Register as Plain;
use wgr_register::{OpenFault, Register, RegisterFault};

// What makes a register of an earlier version of one of the third.
const TO_FIRST: &str = "DROP TABLE second; DROP TABLE reader; UPDATE meta SET version = 1";

const TO_SECOND: &str = "DROP TABLE reader; UPDATE meta SET version = 2";

fn migrated<S: Alter + Drop>(
    rt: &(impl Abort + AllocGlobal),
    mut conn: Connection<S>,
    statements: &[&str],
) -> Result<Register<S>, RegisterFault> {
    for statement in statements {
        conn.execute_batch(statement).expect(rt, "a statement");
    }
    assert!(rt; conn.is_autocommit());
    match Register::migrate(rt.alloc(), conn) {
        Ok(register) => Ok(register),
        Err(
            OpenFault {
                fault,
                connection: _conn,
            },
        ) => Err(fault),
    }
}

fn check_goes_on<S: Alter + Drop>(
    rt: &(impl Abort + AllocGlobal),
    conn: Connection<S>,
    statements: &[&str],
) {
    let mut plain = Plain::new(rt.alloc());
    let mut register = empty(rt, conn);
    for script in SCRIPTS {
        run(rt, &mut register, &mut plain, script);
        register = migrated(rt, register.into_connection(), statements).expect(rt, "a register");
    }
    let again = opened(rt, register.into_connection()).expect(rt, "a register");
    let _conn = again.into_connection();
}

#[test]
fn a_migrated_register_goes_on(rt: HostRuntime) {
    check_goes_on(&rt, in_memory(&rt), &[TO_FIRST]);
    check_goes_on(&rt, in_memory(&rt), &[TO_SECOND]);
    check_goes_on(&rt, in_memory(&rt), &[]);
    check_goes_on(&rt, in_new_files(&rt), &[TO_FIRST]);
}

// Why a register with networks and peers isn't migrated after these statements, if it isn't.
fn told(rt: &(impl Abort + AllocGlobal), statements: &[&str]) -> Option<RegisterFault> {
    let mut register = empty(rt, in_memory(rt));
    let mut plain = Plain::new(rt.alloc());
    run(rt, &mut register, &mut plain, &NETWORKS);
    run(rt, &mut register, &mut plain, &PEERS);
    match migrated(rt, register.into_connection(), statements) {
        Ok(register) => {
            let _conn = register.into_connection();
            None
        }
        Err(fault) => Some(fault),
    }
}

#[test]
fn only_a_good_register_is_migrated(rt: HostRuntime) {
    const BAD_ROW: &str = "UPDATE peer SET keepalive = 65536 WHERE id = 1048577";
    for (statements, want) in [
        (["", ""], None),
        ([TO_FIRST, "CREATE TABLE note (second INTEGER)"], None),
        (
            [TO_FIRST, "UPDATE meta SET version = 9"],
            Some(RegisterFault::NotARegister),
        ),
        (
            [TO_FIRST, "DELETE FROM meta"],
            Some(RegisterFault::NotARegister),
        ),
        (
            [TO_FIRST, "INSERT INTO meta (version) VALUES (2)"],
            Some(RegisterFault::NotARegister),
        ),
        (
            [TO_FIRST, "DROP TABLE token"],
            Some(RegisterFault::NotARegister),
        ),
        (
            [
                TO_FIRST,
                "CREATE TABLE bill (digest BLOB REFERENCES reader (digest))",
            ],
            Some(RegisterFault::NotARegister),
        ),
        (
            [TO_FIRST, "CREATE TABLE Second (id INTEGER)"],
            Some(RegisterFault::NotEmpty),
        ),
        (
            [TO_FIRST, "CREATE VIEW reader AS SELECT 1"],
            Some(RegisterFault::NotEmpty),
        ),
        (
            [TO_SECOND, "CREATE TABLE reader (id INTEGER)"],
            Some(RegisterFault::NotEmpty),
        ),
        ([TO_FIRST, BAD_ROW], Some(RegisterFault::NotGood)),
        ([BAD_ROW, ""], Some(RegisterFault::NotGood)),
        (
            [
                TO_SECOND,
                "INSERT INTO second VALUES (1, 6, x'00000000000000000000000000000000', 64)",
            ],
            Some(RegisterFault::NotGood),
        ),
        (
            [
                BAD_ROW,
                "CREATE TABLE note (id INTEGER); DROP TABLE second; DROP TABLE reader; UPDATE meta SET version = 1; CREATE TABLE second (id INTEGER)",
            ],
            Some(RegisterFault::NotEmpty),
        ),
        (
            [
                "DROP TABLE second; CREATE TABLE second (id INTEGER)",
                "UPDATE meta SET version = 9",
            ],
            Some(RegisterFault::NotARegister),
        ),
    ] {
        assert!(rt;
            told(&rt, &statements) == want,
            "{} {}",
            statements[0],
            statements[1]
        );
    }
}
