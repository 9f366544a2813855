//! Of which version a database's tables are, and how they become those of the third.
use crate::disks::in_memory;
use crate::earlier::{SECOND, TO_SECOND, first};
use sqlite::{Alter, Connection};
use std::alloc::AllocGlobal;
use std::process::Abort;
use wgr_schema::{
    RegisterFault, Version, are_free, check_layout, lacks_counters, make, upgrade, version_of,
};

// No table of the third version: its digests have no key.
const UNKEYED: &str = "CREATE TABLE reader (digest BLOB NOT NULL) STRICT; ";

fn version<S: Alter>(rt: &impl Abort, conn: &mut Connection<S>) -> Option<Version> {
    assert!(rt; conn.is_autocommit());
    match version_of(conn) {
        Ok(found) => found,
        Err(_) => panic!(rt; "a version"),
    }
}

#[test]
fn the_version_is_told(rt: HostRuntime) {
    for (made, then, want) in [
        ("", "", Some(Version::One)),
        (SECOND, "", Some(Version::One)),
        (SECOND, "UPDATE meta SET version = 2", Some(Version::Two)),
        ("", "UPDATE meta SET version = 2", None),
        (SECOND, "UPDATE meta SET version = 3", None),
        (SECOND, "UPDATE meta SET version = 4", None),
        (UNKEYED, "UPDATE meta SET version = 3", None),
        ("", "DELETE FROM meta", None),
    ] {
        let mut conn = first(&rt, &[made, then]);
        assert!(rt; version(&rt, &mut conn) == want, "{made}{then}");
    }
}

#[test]
fn the_third_version_is_made(rt: HostRuntime) {
    let mut conn = in_memory(&rt);
    assert!(rt; conn.is_autocommit());
    assert!(rt; make(&mut conn).is_ok());
    assert!(rt; version(&rt, &mut conn) == Some(Version::Three));
}

// What the test of the tables says of a register of the first version after these statements.
fn checked(rt: &(impl Abort + AllocGlobal), statements: &[&str]) -> Result<(), RegisterFault> {
    let mut conn = first(rt, statements);
    assert!(rt; conn.is_autocommit());
    check_layout(&mut conn)
}

#[test]
fn an_earlier_version_is_told(rt: HostRuntime) {
    assert!(rt; checked(&rt, &[]) == Err(RegisterFault::EarlierVersion));
    assert!(rt; checked(&rt, &TO_SECOND) == Err(RegisterFault::EarlierVersion));
    assert!(rt; checked(&rt, &["DELETE FROM meta"]) == Err(RegisterFault::NotARegister));
    assert!(rt; checked(&rt, &["UPDATE meta SET version = 3"]) == Err(RegisterFault::NotARegister));
}

#[test]
fn names_of_later_tables_are_free(rt: HostRuntime) {
    for (statement, from, want) in [
        ("", Version::One, true),
        ("CREATE TABLE note (second INTEGER)", Version::One, true),
        ("CREATE TABLE Second (id INTEGER)", Version::One, false),
        ("CREATE VIEW reader AS SELECT 1", Version::One, false),
        ("CREATE INDEX READER ON peer (label)", Version::One, false),
        (SECOND, Version::Two, true),
        ("CREATE TABLE reader (id INTEGER)", Version::Two, false),
        ("CREATE TABLE reader (id INTEGER)", Version::Three, true),
    ] {
        let conn = first(&rt, &[statement]);
        assert!(rt; are_free(conn.schema(), from) == want, "{statement}");
    }
}

#[test]
fn counters_are_there(rt: HostRuntime) {
    let counted = "CREATE TABLE note (id INTEGER PRIMARY KEY AUTOINCREMENT)";
    for statement in ["", counted] {
        let conn = first(&rt, &[statement]);
        assert!(rt; !lacks_counters(conn.schema()), "{statement}");
    }
}

#[test]
fn registers_get_the_third_version(rt: HostRuntime) {
    for (made, then, from, is_done) in [
        ("", "", Version::One, true),
        (
            "CREATE TABLE billing (id INTEGER PRIMARY KEY, sum INTEGER); ",
            "INSERT INTO billing VALUES (4, 5)",
            Version::One,
            true,
        ),
        (SECOND, "UPDATE meta SET version = 2", Version::Two, true),
        ("CREATE VIEW Reader AS SELECT 1", "", Version::One, false),
    ] {
        let mut conn = first(&rt, &[made, then]);
        assert!(rt; conn.is_autocommit());
        assert!(rt; upgrade(&mut conn, from).is_ok() == is_done, "{made}");
        let want = if is_done { Version::Three } else { from };
        assert!(rt; version(&rt, &mut conn) == Some(want), "{made}");
    }
}
