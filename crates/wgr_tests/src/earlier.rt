//! Registers of earlier versions, which the program takes to the present one and no longer makes.
use crate::disks::in_memory;
use sqlite::{Alter, Connection, MemStore};
use std::alloc::AllocGlobal;
use std::process::Abort;

const FIRST: &str = "CREATE TABLE meta (version INTEGER PRIMARY KEY) STRICT;
CREATE TABLE tenant (id INTEGER PRIMARY KEY, name TEXT NOT NULL UNIQUE) STRICT;
CREATE TABLE token (digest BLOB NOT NULL PRIMARY KEY, tenant INTEGER NOT NULL) STRICT;
CREATE TABLE network (id INTEGER PRIMARY KEY, tenant INTEGER NOT NULL, name TEXT NOT NULL, family INTEGER NOT NULL, lo BLOB NOT NULL, length INTEGER NOT NULL, host TEXT NOT NULL, port INTEGER NOT NULL, server BLOB NOT NULL, capacity INTEGER NOT NULL, next INTEGER NOT NULL, UNIQUE (tenant, name), UNIQUE (host, port)) STRICT;
CREATE TABLE peer (id INTEGER PRIMARY KEY, network INTEGER NOT NULL, key BLOB NOT NULL, label TEXT NOT NULL, until INTEGER NOT NULL, keepalive INTEGER NOT NULL, handshake INTEGER, received INTEGER, sent INTEGER, UNIQUE (network, key)) STRICT;
CREATE TABLE allowed (network INTEGER NOT NULL, family INTEGER NOT NULL, lo BLOB NOT NULL, length INTEGER NOT NULL, hi BLOB NOT NULL, peer INTEGER NOT NULL, kind TEXT NOT NULL, PRIMARY KEY (network, family, lo, length)) STRICT;
CREATE INDEX allowed_peer ON allowed (network, peer);
INSERT INTO meta (version) VALUES (1)";

/// The table that the second version has too.
pub(crate) const SECOND: &str =
    "CREATE TABLE second (network INTEGER PRIMARY KEY, family INTEGER NOT NULL, lo BLOB NOT NULL, length INTEGER NOT NULL) STRICT; ";

/// What makes the second version of the first.
pub(crate) const TO_SECOND: [&str; 2] = [SECOND, "UPDATE meta SET version = 2"];

/// Makes the tables of the first version, with no row but that of the version, and runs these statements.
pub(crate) fn make_first<S: Alter>(
    rt: &(impl Abort + AllocGlobal),
    conn: &mut Connection<S>,
    statements: &[&str],
) {
    conn.execute_batch(FIRST).expect(rt, "tables");
    for text in statements {
        conn.execute_batch(text).expect(rt, "a statement");
    }
}

/// A register of the first version in memory, after these statements.
pub(crate) fn first(rt: &(impl Abort + AllocGlobal), statements: &[&str]) -> Connection<MemStore> {
    let mut conn = in_memory(rt);
    make_first(rt, &mut conn, statements);
    conn
}
