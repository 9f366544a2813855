//! A register that a database holds is opened at its rows, and only if these are valid.
use super::stored::{NETWORKS, empty, opened, run};
use crate::disks::{copied, in_files, in_memory, in_new_files};
use crate::network::Step;
use sqlite::{Alter, Connection};
use sqlite_disk::{Files, Memory};
use std::alloc::AllocGlobal;
use std::process::Abort;
use wgr_plain::Register;
use wgr_register::RegisterFault;

// Peers of the networks 1, of acme's, and 2, of bolt's.
pub(super) const PEERS: [Step<'static>; 4] = [
    (0, "add 1 office 1", "1 10.8.0.2/32"),
    (0, "add 1 office 2", "2 10.8.0.3/32"),
    (0, "add 2 office 1", "1 10.9.0.2/32"),
    (
        0,
        "route 1 office 1 192.168.4.0/24",
        "1 10.8.0.2/32 192.168.4.0/24",
    ),
];

// After each of the scripts a register is opened anew.
pub(super) const SCRIPTS: [&[Step<'static>]; 5] = [
    &NETWORKS,
    &PEERS,
    &[
        (0, "add 1 office 1", "key_held 1"),
        (0, "list 1 lab", "no_such_network"),
        (0, "tenant acme", "name_held"),
        (0, "grant acme 2", "digest_held"),
        (
            0,
            "network acme lab 10.0.0.0/8 h 9",
            "pool_overlaps acme kit",
        ),
        (0, "owner 1 office 192.168.4.9", "1"),
        (0, "revoke 1 office 2", "2"),
        (0, "add 1 office 2", "3 10.8.0.3/32"),
    ],
    &[
        (0, "file 1 office 3 wg", "3 wg"),
        (0, "file 1 office 2 wg", "no_such_peer"),
        (0, "end-network acme office", "done"),
    ],
    &[
        (0, "list 1 office", "no_such_network"),
        (0, "list 2 office", "1 10.9.0.2/32"),
    ],
];

fn check_anew<S: Alter + Drop>(rt: &(impl Abort + AllocGlobal), conn: Connection<S>) {
    let mut plain = Register::new(rt.alloc());
    let mut register = empty(rt, conn);
    for script in SCRIPTS {
        run(rt, &mut register, &mut plain, script);
        register = opened(rt, register.into_connection()).expect(rt, "a register");
    }
    let _conn = register.into_connection();
}

#[test]
fn a_register_is_opened_where_it_was_left(rt: HostRuntime) {
    check_anew(&rt, in_memory(&rt));
    check_anew(&rt, in_new_files(&rt));
}

// The connection to a register with those networks and peers.
fn filled<S: Alter + Drop>(rt: &(impl Abort + AllocGlobal), conn: Connection<S>) -> Connection<S> {
    let mut register = empty(rt, conn);
    let mut plain = Register::new(rt.alloc());
    run(rt, &mut register, &mut plain, &NETWORKS);
    run(rt, &mut register, &mut plain, &PEERS);
    register.into_connection()
}

// The files of a register with those networks and peers.
fn filled_files(rt: &(impl Abort + AllocGlobal)) -> Files<Memory> {
    filled(rt, in_new_files(rt)).into_store().close()
}

// Why the database is not a register after the statement, if it isn't.
fn told<S: Alter + Drop>(
    rt: &(impl Abort + AllocGlobal),
    mut conn: Connection<S>,
    statement: &str,
) -> Option<RegisterFault> {
    conn.execute_batch(statement).expect(rt, "a statement");
    match opened(rt, conn) {
        Ok(register) => {
            let _conn = register.into_connection();
            None
        }
        Err(fault) => Some(fault),
    }
}

// Opens a register with those networks and peers, in memory and in files, after each statement.
fn check_after(
    rt: &(impl Abort + AllocGlobal),
    want: Option<RegisterFault>,
    statements: &[&'static str],
) {
    let files = filled_files(rt);
    for statement in statements {
        let in_memory = told(rt, filled(rt, in_memory(rt)), statement);
        assert!(rt; in_memory == want, "{statement}");
        let in_files = told(rt, in_files(rt, copied(rt, &files)), statement);
        assert!(rt; in_files == want, "{statement}");
    }
}

#[test]
fn an_empty_database_is_no_register(rt: HostRuntime) {
    let want = Some(RegisterFault::NotARegister);
    assert!(rt; told(&rt, in_memory(&rt), "") == want);
    assert!(rt; told(&rt, in_new_files(&rt), "") == want);
}

#[test]
fn only_good_rows_are_opened(rt: HostRuntime) {
    check_after(
        &rt,
        Some(RegisterFault::NotGood),
        &[
            "DELETE FROM allowed WHERE kind = 'address' AND peer = 1048577",
            "DELETE FROM peer WHERE id = 1048578",
            "UPDATE peer SET network = 2 WHERE id = 1048578",
            "UPDATE peer SET key = x'02' WHERE id = 1048577",
            "UPDATE peer SET label = 'Dr\n' WHERE id = 1048577",
            "UPDATE peer SET handshake = 7 WHERE id = 1048577",
            "UPDATE peer SET keepalive = 65536 WHERE id = 1048577",
            "UPDATE allowed SET kind = 'other' WHERE kind = 'route'",
            "UPDATE allowed SET peer = 1048579 WHERE kind = 'route'",
            "UPDATE allowed SET hi = lo WHERE kind = 'route'",
            "UPDATE network SET next = 2 WHERE id = 1",
            "UPDATE network SET host = 'H' WHERE id = 1",
            "UPDATE network SET length = 31 WHERE id = 1",
            "UPDATE network SET lo = x'0000000000000000000000000a080000' WHERE id = 3",
            "UPDATE network SET tenant = 9 WHERE id = 1",
            "UPDATE token SET tenant = 9 WHERE tenant = 1",
            "UPDATE token SET digest = x'01' WHERE tenant = 1",
            "UPDATE tenant SET name = 'Acme' WHERE id = 1",
            "INSERT INTO tenant (id, name) VALUES (65537, 'cato')",
        ],
    );
}

#[test]
fn only_a_register_is_opened(rt: HostRuntime) {
    check_after(
        &rt,
        Some(RegisterFault::NotARegister),
        &[
            "DROP TABLE token",
            "DROP TABLE reader",
            "UPDATE meta SET version = 9",
            "INSERT INTO meta (version) VALUES (1)",
        ],
    );
    check_after(
        &rt,
        Some(RegisterFault::EarlierVersion),
        &["UPDATE meta SET version = 1", "UPDATE meta SET version = 2"],
    );
    check_after(
        &rt,
        None,
        &[
            "INSERT INTO tenant (id, name) VALUES (65536, 'cato')",
            "UPDATE peer SET handshake = 7, received = 0, sent = 0 WHERE id = 1048577",
            "UPDATE network SET next = 1000001 WHERE id = 1",
            "CREATE TABLE note (id INTEGER PRIMARY KEY, text TEXT)",
        ],
    );
}
