//! Rows of a database as texts: the values that a query selects, separated by blanks, and by `; ` from
//! the next row. Numbers and texts are written as they are, NULL as `-`, and a blob as the count of its
//! bytes, then `*` and one of them where all are the same, or else `:` and those after the leading zeros.
use crate::shown::Shown;
use sqlite::types::ValueRef;
use sqlite::{Alter, Connection, Row};
use std::alloc::AllocGlobal;
use std::process::Abort;

fn put_blob(bytes: &[u8], text: &mut Shown<'_, impl Abort + AllocGlobal>) {
    text.put_number(bytes.len() as u64);
    let first = bytes.first().copied().unwrap_or(0);
    if bytes.iter().all(|byte| *byte == first) {
        text.put("*");
        text.put_number(u64::from(first));
        return;
    }
    text.put(":");
    for (at, byte) in bytes.iter().skip_while(|byte| **byte == 0).enumerate() {
        if at > 0 {
            text.put(".");
        }
        text.put_number(u64::from(*byte));
    }
}

fn put_value(
    rt: &(impl Abort + AllocGlobal),
    value: ValueRef<'_>,
    text: &mut Shown<'_, impl Abort + AllocGlobal>,
) {
    match value {
        ValueRef::Null => text.put("-"),
        ValueRef::Int(number) => text.put_number(u64::try_from(number).expect(rt, "a number")),
        ValueRef::Text(bytes) => text.put(str::from_utf8(bytes).expect(rt, "a text")),
        ValueRef::Blob(bytes) => put_blob(bytes, text),
        ValueRef::Real(_) => panic!(rt; "no column has such values"),
    }
}

fn put_row(
    rt: &(impl Abort + AllocGlobal),
    row: &Row,
    text: &mut Shown<'_, impl Abort + AllocGlobal>,
) {
    text.separate("; ");
    for at in 0..row.column_count() {
        if at > 0 {
            text.put(" ");
        }
        put_value(rt, row.get_ref(at).expect(rt, "a column"), text);
    }
}

fn put_rows<S: Alter>(
    rt: &(impl Abort + AllocGlobal),
    conn: &mut Connection<S>,
    query: &str,
    text: &mut Shown<'_, impl Abort + AllocGlobal>,
) {
    let rows = conn.query_all(query, &[]).expect(rt, "a query");
    for row in &rows {
        put_row(rt, row, text);
    }
}

/// The rows that the query shows.
pub(crate) fn rows<S: Alter>(
    rt: &(impl Abort + AllocGlobal),
    conn: &mut Connection<S>,
    query: &str,
) -> Vec<u8> {
    let mut text = Shown::new(rt);
    put_rows(rt, conn, query, &mut text);
    text.into_text()
}

/// All rows of a register's tables.
pub(crate) fn all_rows<S: Alter>(
    rt: &(impl Abort + AllocGlobal),
    conn: &mut Connection<S>,
) -> Vec<u8> {
    let mut text = Shown::new(rt);
    for query in [
        "SELECT version FROM meta ORDER BY version",
        "SELECT network, family, lo, length FROM second ORDER BY network",
        "SELECT digest FROM reader ORDER BY digest",
        "SELECT id, name FROM tenant ORDER BY id",
        "SELECT digest, tenant FROM token ORDER BY digest",
        "SELECT id, tenant, name, family, lo, length, host, port, server, capacity, next FROM network ORDER BY id",
        "SELECT id, network, key, label, until, keepalive, handshake, received, sent FROM peer ORDER BY id",
        "SELECT network, family, lo, length, hi, peer, kind FROM allowed ORDER BY network, family, lo, length",
    ] {
        put_rows(rt, conn, query, &mut text);
        text.put("\n");
    }
    text.into_text()
}
