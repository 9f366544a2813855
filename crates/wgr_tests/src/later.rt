//! The tables of the third version: whether they have rows, and the tokens that only read.
use crate::disks::in_memory;
use sqlite::{Connection, MemStore};
use std::alloc::AllocGlobal;
use std::process::Abort;
use wgr_checks::{has_no_seconds, readers_are_good};
use wgr_entries::{drop_reader, insert_reader, is_reader, readers};

// The two tables, with that of tokens and one of somebody's own before them.
const TABLES: &str =
    "CREATE TABLE token (digest BLOB NOT NULL PRIMARY KEY, tenant INTEGER NOT NULL) STRICT; CREATE TABLE note (id INTEGER PRIMARY KEY); CREATE TABLE second (network INTEGER PRIMARY KEY, family INTEGER NOT NULL, lo BLOB NOT NULL, length INTEGER NOT NULL) STRICT; CREATE TABLE reader (digest BLOB NOT NULL PRIMARY KEY) STRICT";

fn database(rt: &(impl Abort + AllocGlobal), statements: &str) -> Connection<MemStore> {
    let mut conn = in_memory(rt);
    conn.execute_batch(TABLES).expect(rt, "tables");
    conn.execute_batch(statements).expect(rt, "statements");
    assert!(rt; conn.is_autocommit());
    conn
}

#[test]
fn rows_of_the_later_tables_are_seen(rt: HostRuntime) {
    for (statements, no_seconds, are_good) in [
        ("", true, true),
        ("INSERT INTO note VALUES (1)", true, true),
        ("INSERT INTO second VALUES (3, 4, x'00', 24)", false, true),
        ("INSERT INTO reader VALUES (x'01')", true, false),
        (
            "INSERT INTO reader VALUES (x'0707070707070707070707070707070707070707070707070707070707070707')",
            true,
            false,
        ),
        (
            "INSERT INTO token VALUES (x'0707070707070707070707070707070707070707070707070707070707070707', 1); INSERT INTO reader VALUES (x'0707070707070707070707070707070707070707070707070707070707070707')",
            true,
            true,
        ),
    ] {
        let mut conn = database(&rt, statements);
        assert!(rt; conn.is_autocommit());
        assert!(rt; has_no_seconds(&mut conn) == Ok(no_seconds), "{statements}");
        assert!(rt;
            readers_are_good(rt.alloc(), &mut conn) == Ok(are_good),
            "{statements}"
        );
    }
}

fn added(rt: &impl Abort, conn: &mut Connection<MemStore>, digest: &[u8; 32]) -> bool {
    assert!(rt; conn.is_autocommit());
    let mut tx = conn.transaction();
    if insert_reader(&mut tx, digest).is_err() {
        return false;
    }
    tx.commit().is_ok()
}

fn dropped(rt: &impl Abort, conn: &mut Connection<MemStore>, digest: &[u8; 32]) -> bool {
    assert!(rt; conn.is_autocommit());
    let mut tx = conn.transaction();
    if drop_reader(&mut tx, digest).is_err() {
        return false;
    }
    tx.commit().is_ok()
}

fn is_one(rt: &impl Abort, conn: &mut Connection<MemStore>, digest: &[u8; 32]) -> bool {
    assert!(rt; conn.is_autocommit());
    is_reader(conn, digest).expect(rt, "a query")
}

// Whether these are all, in this order.
fn are_all(
    rt: &(impl Abort + AllocGlobal),
    conn: &mut Connection<MemStore>,
    want: &[[u8; 32]],
) -> bool {
    assert!(rt; conn.is_autocommit());
    let all = readers(rt.alloc(), conn).expect(rt, "digests");
    all.as_slice() == want
}

#[test]
fn tokens_that_only_read_come_and_go(rt: HostRuntime) {
    let mut conn = database(&rt, "");
    assert!(rt; are_all(&rt, &mut conn, &[]));
    for byte in [7, 3, 250] {
        assert!(rt; added(&rt, &mut conn, &[byte; 32]), "{byte}");
    }
    assert!(rt; are_all(&rt, &mut conn, &[[3; 32], [7; 32], [250; 32]]));
    assert!(rt; is_one(&rt, &mut conn, &[7; 32]));
    assert!(rt; !is_one(&rt, &mut conn, &[8; 32]));
    assert!(rt; !added(&rt, &mut conn, &[7; 32]));
    assert!(rt; dropped(&rt, &mut conn, &[7; 32]));
    assert!(rt; dropped(&rt, &mut conn, &[8; 32]));
    assert!(rt; !is_one(&rt, &mut conn, &[7; 32]));
    assert!(rt; are_all(&rt, &mut conn, &[[3; 32], [250; 32]]));
    assert!(rt; added(&rt, &mut conn, &[7; 32]));
    assert!(rt; are_all(&rt, &mut conn, &[[3; 32], [7; 32], [250; 32]]));
}
