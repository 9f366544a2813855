//! The register's tables in a database: created, distinguished from others, and found again.
use crate::disks::{in_files, in_memory, in_new_files};
use sqlite::{Alter, Connection, MemStore};
use std::alloc::AllocGlobal;
use std::process::Abort;
use wgr_checks::{read_networks, read_tenants};
use wgr_schema::{RegisterFault, check_layout, make};

fn run<S: Alter>(rt: &(impl Abort + AllocGlobal), conn: &mut Connection<S>, statements: &str) {
    conn.execute_batch(statements).expect(rt, "a statement");
}

fn made<S: Alter>(rt: &impl Abort, conn: &mut Connection<S>) -> Result<(), RegisterFault> {
    assert!(rt; conn.is_autocommit());
    make(conn)
}

fn checked<S: Alter>(rt: &impl Abort, conn: &mut Connection<S>) -> Result<(), RegisterFault> {
    assert!(rt; conn.is_autocommit());
    check_layout(conn)
}

// A database in which these statements were run.
fn database(rt: &(impl Abort + AllocGlobal), statements: &str) -> Connection<MemStore> {
    let mut conn = in_memory(rt);
    run(rt, &mut conn, statements);
    conn
}

#[test]
fn a_register_is_made_once(rt: HostRuntime) {
    let mut conn = database(&rt, "");
    assert!(rt; checked(&rt, &mut conn) == Err(RegisterFault::NotARegister));
    assert!(rt; made(&rt, &mut conn) == Ok(()));
    assert!(rt; checked(&rt, &mut conn) == Ok(()));
    assert!(rt; made(&rt, &mut conn) == Err(RegisterFault::NotEmpty));
    assert!(rt; checked(&rt, &mut conn) == Ok(()));
}

// What `make` returns after these statements.
fn made_after(rt: &(impl Abort + AllocGlobal), statements: &str) -> Result<(), RegisterFault> {
    made(rt, &mut database(rt, statements))
}

#[test]
fn only_an_empty_database_serves(rt: HostRuntime) {
    for (statements, want) in [
        (
            "CREATE TABLE note (id INTEGER)",
            RegisterFault::NotARegister,
        ),
        ("CREATE VIEW one AS SELECT 1", RegisterFault::NotARegister),
        ("CREATE TABLE Peer (id INTEGER)", RegisterFault::NotEmpty),
        ("CREATE VIEW token AS SELECT 1", RegisterFault::NotEmpty),
        ("CREATE TABLE Second (id INTEGER)", RegisterFault::NotEmpty),
        ("CREATE VIEW reader AS SELECT 1", RegisterFault::NotEmpty),
        (
            "CREATE TABLE note (id INTEGER); CREATE TABLE meta (id INTEGER)",
            RegisterFault::NotEmpty,
        ),
    ] {
        assert!(rt; made_after(&rt, statements) == Err(want), "{statements}");
    }
    assert!(rt; made_after(&rt, "CREATE TABLE note (id INTEGER); DROP TABLE note") == Ok(()));
}

// Whether a register is still valid after the statements.
fn is_register(rt: &(impl Abort + AllocGlobal), statements: &str) -> bool {
    let mut conn = database(rt, "");
    made(rt, &mut conn).expect(rt, "a register");
    run(rt, &mut conn, statements);
    match checked(rt, &mut conn) {
        Ok(()) => true,
        Err(fault) => {
            assert!(rt; fault == RegisterFault::NotARegister);
            false
        }
    }
}

#[test]
fn others_stand_apart(rt: HostRuntime) {
    for statements in [
        "CREATE TABLE note (id INTEGER PRIMARY KEY, text TEXT UNIQUE)",
        "CREATE INDEX peer_label ON peer (label)",
        "CREATE VIEW names AS SELECT name FROM tenant",
        "CREATE TABLE a (id INTEGER PRIMARY KEY); CREATE TABLE b (a INTEGER REFERENCES a (id))",
        "INSERT INTO tenant (id, name) VALUES (1, 'acme')",
    ] {
        assert!(rt; is_register(&rt, statements), "{statements}");
    }
}

#[test]
fn changed_tables_are_no_register(rt: HostRuntime) {
    for statements in [
        "CREATE TABLE mark (peer INTEGER REFERENCES peer (id))",
        "CREATE TABLE mark (network INTEGER REFERENCES second (network))",
        "CREATE TABLE mark (digest BLOB REFERENCES Reader (digest))",
        "DROP INDEX allowed_peer",
        "DROP TABLE token",
        "DROP TABLE second",
        "DROP TABLE reader",
        "UPDATE meta SET version = 9",
        "DELETE FROM meta",
        "INSERT INTO meta (version) VALUES (2)",
        "DROP INDEX allowed_peer; CREATE INDEX allowed_peer ON allowed (peer, network)",
    ] {
        assert!(rt; !is_register(&rt, statements), "{statements}");
    }
}

#[test]
fn a_register_is_found_again(rt: HostRuntime) {
    let mut conn = in_new_files(&rt);
    made(&rt, &mut conn).expect(&rt, "a register");
    run(&rt, &mut conn, "CREATE TABLE note (id INTEGER PRIMARY KEY)");
    let mut again = in_files(&rt, conn.into_store().close());
    assert!(rt; checked(&rt, &mut again) == Ok(()));
}

// How many tenants are read from the rows that the statements leave, or none if these are invalid.
fn tenants(rt: &(impl Abort + AllocGlobal), statements: &str) -> Option<usize> {
    let mut conn = database(rt, "");
    made(rt, &mut conn).expect(rt, "a register");
    run(rt, &mut conn, statements);
    assert!(rt; conn.is_autocommit());
    let found = read_tenants(rt.alloc(), &mut conn).expect(rt, "rows");
    found.map(|ids| ids.len())
}

#[test]
fn rows_of_tenants_are_tested(rt: HostRuntime) {
    for (statements, want) in [
        ("", Some(0)),
        (
            "INSERT INTO tenant (id, name) VALUES (7, 'acme'), (3, 'zeta'), (65536, 'a-b')",
            Some(3),
        ),
        ("INSERT INTO tenant (id, name) VALUES (0, 'acme')", None),
        ("INSERT INTO tenant (id, name) VALUES (-1, 'acme')", None),
        ("INSERT INTO tenant (id, name) VALUES (65537, 'acme')", None),
        ("INSERT INTO tenant (id, name) VALUES (1, 'ac me')", None),
        ("INSERT INTO tenant (id, name) VALUES (1, '')", None),
    ] {
        assert!(rt; tenants(&rt, statements) == want, "{statements}");
    }
}

// How many networks of the tenant 7 are read from two valid rows that the statements change, or none
// if they are no longer valid.
fn networks(rt: &(impl Abort + AllocGlobal), statements: &str) -> Option<usize> {
    let mut conn = database(rt, "");
    made(rt, &mut conn).expect(rt, "a register");
    run(
        rt,
        &mut conn,
        "INSERT INTO network (id, tenant, name, family, lo, length, host, port, server, capacity, next) VALUES
         (1, 7, 'home', 4, X'0000000000000000000000000a000000', 24, 'vpn.example', 51820,
         X'0000000000000000000000000000000000000000000000000000000000000001', 9, 1),
         (9, 7, 'away', 4, X'0000000000000000000000000a000100', 24, '2001:db8::1', 51820,
         X'0000000000000000000000000000000000000000000000000000000000000001', 4096, 77)",
    );
    run(rt, &mut conn, statements);
    assert!(rt; conn.is_autocommit());
    let found = read_networks(rt.alloc(), &mut conn, &[7]).expect(rt, "rows");
    found.map(|ids| ids.len())
}

#[test]
fn rows_of_networks_are_tested(rt: HostRuntime) {
    for (statements, want) in [
        ("DELETE FROM network WHERE id = 9", Some(1)),
        ("UPDATE network SET port = 1", Some(2)),
        ("UPDATE network SET id = 65537 WHERE id = 9", None),
        ("UPDATE network SET tenant = 8 WHERE id = 9", None),
        ("UPDATE network SET name = 'Away' WHERE id = 9", None),
        ("UPDATE network SET family = 5 WHERE id = 9", None),
        ("UPDATE network SET lo = X'0a000100' WHERE id = 9", None),
        ("UPDATE network SET length = 23 WHERE id = 1", None),
        ("UPDATE network SET length = 31 WHERE id = 9", None),
        ("UPDATE network SET length = 22 WHERE id = 9", None),
        ("UPDATE network SET host = '2001:DB8::1' WHERE id = 9", None),
        ("UPDATE network SET host = 'VPN.example' WHERE id = 1", None),
        ("UPDATE network SET port = 0 WHERE id = 1", None),
        ("UPDATE network SET server = X'01' WHERE id = 1", None),
        ("UPDATE network SET capacity = 4097 WHERE id = 1", None),
        ("UPDATE network SET next = -1 WHERE id = 1", None),
    ] {
        assert!(rt; networks(&rt, statements) == want, "{statements}");
    }
}
