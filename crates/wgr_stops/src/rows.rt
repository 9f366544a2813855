//! All rows of a register, as one text.
use sqlite::types::ValueRef;
use sqlite::{Alter, Connection, Row};
use std::alloc::AllocGlobal;
use std::process::Abort;

const READERS: &str = "SELECT digest FROM reader ORDER BY digest";

const QUERIES: [&str; 6] = [
    "SELECT version FROM meta ORDER BY version",
    "SELECT id, name FROM tenant ORDER BY id",
    "SELECT digest, tenant FROM token ORDER BY digest",
    "SELECT id, tenant, name, family, lo, length, host, port, server, capacity, next FROM network ORDER BY id",
    "SELECT id, network, key, label, until, keepalive, handshake, received, sent FROM peer ORDER BY id",
    "SELECT network, family, lo, length, hi, peer, kind FROM allowed ORDER BY network, family, lo, length",
];

fn put(rt: &impl Abort, bytes: &[u8], text: &mut Vec<u8>) {
    text.extend_from_slice(bytes).expect(rt, "memory");
}

// The bytes of a text or a blob, after their count.
fn put_bytes(rt: &impl Abort, bytes: &[u8], text: &mut Vec<u8>) {
    put(rt, &bytes.len().to_le_bytes(), text);
    put(rt, bytes, text);
}

fn put_value(rt: &impl Abort, value: ValueRef<'_>, text: &mut Vec<u8>) {
    match value {
        ValueRef::Null => put(rt, b"-", text),
        ValueRef::Int(number) => put(rt, &number.to_le_bytes(), text),
        ValueRef::Text(bytes) | ValueRef::Blob(bytes) => put_bytes(rt, bytes, text),
        ValueRef::Real(_) => panic!(rt; "no column has such values"),
    }
}

fn put_row(rt: &impl Abort, row: &Row, text: &mut Vec<u8>) {
    put(rt, b"\n", text);
    for at in 0..row.column_count() {
        put_value(rt, row.get_ref(at).expect(rt, "a column"), text);
    }
}

fn put_rows<S: Alter>(
    rt: &(impl Abort + AllocGlobal),
    conn: &mut Connection<S>,
    query: &str,
    text: &mut Vec<u8>,
) {
    put(rt, b"\n", text);
    let rows = conn.query_all(query, &[]).expect(rt, "a query");
    for row in &rows {
        put_row(rt, row, text);
    }
}

/// All rows of the tables that each version has.
pub(crate) fn first_rows<S: Alter>(
    rt: &(impl Abort + AllocGlobal),
    conn: &mut Connection<S>,
) -> Vec<u8> {
    let mut text = Vec::new(rt.alloc());
    for query in QUERIES {
        put_rows(rt, conn, query, &mut text);
    }
    text
}

/// All rows of a register's tables.
pub(crate) fn all_rows<S: Alter>(
    rt: &(impl Abort + AllocGlobal),
    conn: &mut Connection<S>,
) -> Vec<u8> {
    let mut text = first_rows(rt, conn);
    put_rows(rt, conn, READERS, &mut text);
    text
}
