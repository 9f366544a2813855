//! Whether tables are the register's.
ghost use Rattle.std.specs.Prelude.{◌≡◌, IsTrue};
ghost use Rattle.wgr_columns.specs.Layout.{register_tables, meta_table_at, tenant_table_at, token_table_at, network_table_at, peer_table_at, allowed_table_at};

use crate::form::{ColumnForm, TableForm, is_table};
use sqlite_schema::schema::{Kind, Table};

fn is_meta(table: &Table) -> bool
    ensures is { IsTrue result → table.now ≡ meta_table_at 0 }
    ensures only { table.now ≡ meta_table_at 0 → IsTrue result }
{
    is_table(
        table,
        &TableForm {
            name: b"meta",
            tree: 0,
            key: Some(0),
            primary: &[0],
            uniques: &[],
            columns: &[ColumnForm(b"version", Kind::Integer, false)],
        },
    )
}

fn is_tenant(table: &Table) -> bool
    ensures is { IsTrue result → table.now ≡ tenant_table_at 1 }
    ensures only { table.now ≡ tenant_table_at 1 → IsTrue result }
{
    is_table(
        table,
        &TableForm {
            name: b"tenant",
            tree: 1,
            key: Some(0),
            primary: &[0],
            uniques: &[[2].as_slice()],
            columns: &[
                ColumnForm(b"id", Kind::Integer, false),
                ColumnForm(b"name", Kind::Text, true),
            ],
        },
    )
}

fn is_token(table: &Table) -> bool
    ensures is { IsTrue result → table.now ≡ token_table_at 3 }
    ensures only { table.now ≡ token_table_at 3 → IsTrue result }
{
    is_table(
        table,
        &TableForm {
            name: b"token",
            tree: 3,
            key: None,
            primary: &[1],
            uniques: &[[1].as_slice()],
            columns: &[
                ColumnForm(b"digest", Kind::Blob, true),
                ColumnForm(b"tenant", Kind::Integer, true),
            ],
        },
    )
}

fn is_network(table: &Table) -> bool
    ensures is { IsTrue result → table.now ≡ network_table_at 5 }
    ensures only { table.now ≡ network_table_at 5 → IsTrue result }
{
    is_table(
        table,
        &TableForm {
            name: b"network",
            tree: 5,
            key: Some(0),
            primary: &[0],
            uniques: &[[2, 3].as_slice(), [7, 8].as_slice()],
            columns: &[
                ColumnForm(b"id", Kind::Integer, false),
                ColumnForm(b"tenant", Kind::Integer, true),
                ColumnForm(b"name", Kind::Text, true),
                ColumnForm(b"family", Kind::Integer, true),
                ColumnForm(b"lo", Kind::Blob, true),
                ColumnForm(b"length", Kind::Integer, true),
                ColumnForm(b"host", Kind::Text, true),
                ColumnForm(b"port", Kind::Integer, true),
                ColumnForm(b"server", Kind::Blob, true),
                ColumnForm(b"capacity", Kind::Integer, true),
                ColumnForm(b"next", Kind::Integer, true),
            ],
        },
    )
}

fn is_peer(table: &Table) -> bool
    ensures is { IsTrue result → table.now ≡ peer_table_at 8 }
    ensures only { table.now ≡ peer_table_at 8 → IsTrue result }
{
    is_table(
        table,
        &TableForm {
            name: b"peer",
            tree: 8,
            key: Some(0),
            primary: &[0],
            uniques: &[[2, 3].as_slice()],
            columns: &[
                ColumnForm(b"id", Kind::Integer, false),
                ColumnForm(b"network", Kind::Integer, true),
                ColumnForm(b"key", Kind::Blob, true),
                ColumnForm(b"label", Kind::Text, true),
                ColumnForm(b"until", Kind::Integer, true),
                ColumnForm(b"keepalive", Kind::Integer, true),
                ColumnForm(b"handshake", Kind::Integer, false),
                ColumnForm(b"received", Kind::Integer, false),
                ColumnForm(b"sent", Kind::Integer, false),
            ],
        },
    )
}

fn is_allowed(table: &Table) -> bool
    ensures is { IsTrue result → table.now ≡ allowed_table_at 10 }
    ensures only { table.now ≡ allowed_table_at 10 → IsTrue result }
{
    is_table(
        table,
        &TableForm {
            name: b"allowed",
            tree: 10,
            key: None,
            primary: &[1, 2, 3, 4],
            uniques: &[[1, 2, 3, 4].as_slice()],
            columns: &[
                ColumnForm(b"network", Kind::Integer, true),
                ColumnForm(b"family", Kind::Integer, true),
                ColumnForm(b"lo", Kind::Blob, true),
                ColumnForm(b"length", Kind::Integer, true),
                ColumnForm(b"hi", Kind::Blob, true),
                ColumnForm(b"peer", Kind::Integer, true),
                ColumnForm(b"kind", Kind::Text, true),
            ],
        },
    )
}

/// Whether these are the register's tables.
pub(crate) fn are_register_tables(tables: &[Table]) -> bool
    ensures is { IsTrue result → tables.now ≡ register_tables }
    ensures only { tables.now ≡ register_tables → IsTrue result }
{
    match tables {
        [meta, tenant, token, network, peer, allowed] => {
            if !is_meta(meta) {
                return false;
            }
            if !is_tenant(tenant) {
                return false;
            }
            if !is_token(token) {
                return false;
            }
            if !is_network(network) {
                return false;
            }
            if !is_peer(peer) {
                return false;
            }
            is_allowed(allowed)
        }
        _ => false,
    }
}
