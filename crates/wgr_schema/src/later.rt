//! Whether a schema has the tables of later versions, which are found by their names.
ghost use Rattle.std.specs.Prelude.{◌≡◌, ◌==◌, ◌↔◌, ◌≤◌, not, IsTrue};
ghost use Rattle.std.specs.List.{list_all};
ghost use Rattle.wgr_sql.specs.Named.{is_alone};
ghost use Rattle.wgr_columns.specs.Layout.{HasReader, HasSecond, reader_table_at, second_table_at};
ghost use Rattle.wgr_schema.specs.Versions.{HasOwnTree, HasTablesOf, version_number};
ghost use Rattle.wgr_schema.specs.declared.version.Version.{Version};

use crate::form::{ColumnForm, TableForm, is_table};
use crate::layout::FIRST_FREE_TREE;
use crate::version::Version;
use sqlite_schema::schema::{Index, Kind, Schema, Table};

// The first of the trees that statements compute.
const FIRST_COMPUTED_TREE: u32 = 2_147_483_648;

fn is_second(table: &Table) -> bool
    ensures is { IsTrue result → table.now ≡ second_table_at table.now.tree }
    ensures only { table.now ≡ second_table_at table.now.tree → IsTrue result }
{
    is_table(
        table,
        &TableForm {
            name: b"second",
            tree: table.tree,
            key: Some(0),
            primary: &[0],
            uniques: &[],
            columns: &[
                ColumnForm(b"network", Kind::Integer, false),
                ColumnForm(b"family", Kind::Integer, true),
                ColumnForm(b"lo", Kind::Blob, true),
                ColumnForm(b"length", Kind::Integer, true),
            ],
        },
    )
}

fn is_reader(table: &Table) -> bool
    ensures is { IsTrue result → table.now ≡ reader_table_at table.now.tree }
    ensures only { table.now ≡ reader_table_at table.now.tree → IsTrue result }
{
    is_table(
        table,
        &TableForm {
            name: b"reader",
            tree: table.tree,
            key: None,
            primary: &[1],
            uniques: &[[1].as_slice()],
            columns: &[ColumnForm(b"digest", Kind::Blob, true)],
        },
    )
}

// Whether each table of another name has another tree.
fn are_alone(tables: &[Table], name: &[u8], tree: u32) -> bool
    ensures { result ≡ list_all (is_alone name.now tree) tables.now }
{
    tables.iter().all(|t| t.is_named(name) || t.tree != tree)
}

// Whether each index has another tree.
fn are_unindexed(indexes: &[Index], tree: u32) -> bool
    ensures { result ≡ list_all (λ i. not (i.tree == tree)) indexes.now }
{
    indexes.iter().all(|i| i.tree != tree)
}

// Whether the tree is after the register's, and the table of this name alone has it.
fn has_own_tree(schema: &Schema, name: &[u8], tree: u32) -> bool
    ensures is { IsTrue result → HasOwnTree name.now tree schema.now }
    ensures only { HasOwnTree name.now tree schema.now → IsTrue result }
{
    tree >= FIRST_FREE_TREE
        && tree < FIRST_COMPUTED_TREE
        && are_alone(schema.tables.as_slice(), name, tree)
        && are_unindexed(schema.indexes.as_slice(), tree)
}

// Whether the table `second` is there.
fn has_second(schema: &Schema) -> bool
    ensures is { IsTrue result → HasSecond schema.now }
    ensures only { HasSecond schema.now → IsTrue result }
{
    let Some(at) = schema.table_named(b"second") else {
        return false;
    };
    let Some(table) = schema.tables.as_slice().get(at) else {
        return false;
    };
    if !is_second(table) {
        return false;
    }
    has_own_tree(schema, b"second", table.tree)
}

// Whether the table `reader` is there.
fn has_reader(schema: &Schema) -> bool
    ensures is { IsTrue result → HasReader schema.now }
    ensures only { HasReader schema.now → IsTrue result }
{
    let Some(at) = schema.table_named(b"reader") else {
        return false;
    };
    let Some(table) = schema.tables.as_slice().get(at) else {
        return false;
    };
    if !is_reader(table) {
        return false;
    }
    has_own_tree(schema, b"reader", table.tree)
}

/// The last version whose tables beside the first six are there. Those of each version before it are there too.
pub(crate) fn last_served(schema: &Schema) -> Version
    ensures { (version : Version) → HasTablesOf version schema.now ↔ (version_number version ≤ version_number result) }
{
    if !has_second(schema) {
        return Version::One;
    }
    if !has_reader(schema) {
        return Version::Two;
    }
    Version::Three
}
