//! Tables and indexes of a schema, compared with what they should be.
ghost use Rattle.std.specs.Prelude.{◌≡◌, [], IsTrue, map};
ghost use Rattle.sqlite_value.specs.Keys.{plain};
ghost use Rattle.wgr_columns.specs.Layout.{index_of};
ghost use Rattle.wgr_schema.specs.Forms.{column_as, table_as, IsTableHead, IsBare};

use sqlite_items::Items;
use sqlite_schema::schema::{Column, Index, Kind, Table};
use sqlite_value::keys::{Collation, Order};
use sqlite_value::value::Value;

/// A column of a STRICT table with no default: its name, its kind, and whether it is NOT NULL.
#[derive(Clone, Copy, Debug)]
pub(crate) struct ColumnForm<'a>(pub(crate) &'a [u8], pub(crate) Kind, pub(crate) bool);

/// A table with no check, reference or counter.
#[derive(Clone, Copy, Debug)]
pub(crate) struct TableForm<'a> {
    pub(crate) name: &'a [u8],
    pub(crate) tree: u32,
    pub(crate) key: Option<usize>,
    pub(crate) primary: &'a [usize],
    pub(crate) uniques: &'a [&'a [usize]],
    pub(crate) columns: &'a [ColumnForm<'a>],
}

fn is_column(column: &Column, form: &ColumnForm<'_>) -> bool
    ensures is { IsTrue result → column.now ≡ column_as form.now }
    ensures only { column.now ≡ column_as form.now → IsTrue result }
{
    column.name.as_slice() == form.0
        && column.kind == form.1
        && column.is_strict
        && column.not_null == form.2
        && matches!(column.default, Value::Null)
        && column.collation == Collation::Binary
}

fn are_columns(columns: &[Column], forms: &[ColumnForm<'_>]) -> bool
    ensures is { IsTrue result → columns.now ≡ map column_as forms.now }
    ensures only { columns.now ≡ map column_as forms.now → IsTrue result }
{
    if columns.len() != forms.len() {
        return false;
    }
    for at in 0..forms.len() {
        if !is_column(&columns[at], &forms[at]) {
            return false;
        }
    }
    true
}

// Whether the table has this name, tree, rowid column and primary key.
fn is_head(table: &Table, form: &TableForm<'_>) -> bool
    ensures is { IsTrue result → IsTableHead table.now form.now }
    ensures only { IsTableHead table.now form.now → IsTrue result }
{
    table.name.as_slice() == form.name
        && table.tree == form.tree
        && table.key == form.key
        && table.primary.as_slice() == form.primary
}

// Whether the table has no check, reference or counter, and computes no column.
fn is_bare(table: &Table) -> bool
    ensures is { IsTrue result → IsBare table.now }
    ensures only { IsBare table.now → IsTrue result }
{
    table.checks.roots.is_empty()
        && table.references.is_empty()
        && table.computed.is_empty()
        && !table.is_counted
}

// Whether no default of the table reads the time.
fn is_timeless(table: &Table) -> bool
    ensures is { IsTrue result → table.now.stamps ≡ record { places = []; terms = []; formats = [] } }
    ensures only { table.now.stamps ≡ record { places = []; terms = []; formats = [] } → IsTrue result }
{
    table.stamps.places.is_empty()
        && table.stamps.terms.roots.is_empty()
        && table.stamps.formats.is_empty()
}

fn are_places(places: &Items<usize>, form: &[usize]) -> bool
    ensures is { IsTrue result → places.now ≡ form.now }
    ensures only { places.now ≡ form.now → IsTrue result }
{
    places.as_slice() == form
}

fn are_keys(keys: &[Items<usize>], forms: &[&[usize]]) -> bool
    ensures is { IsTrue result → keys.now ≡ map (λ p. p.now) forms.now }
    ensures only { keys.now ≡ map (λ p. p.now) forms.now → IsTrue result }
{
    if keys.len() != forms.len() {
        return false;
    }
    for at in 0..forms.len() {
        if !are_places(&keys[at], forms[at]) {
            return false;
        }
    }
    true
}

fn is_plain(order: &Order) -> bool
    ensures is { IsTrue result → order.now ≡ plain }
    ensures only { order.now ≡ plain → IsTrue result }
{
    *order == Order::PLAIN
}

// Whether there is a plain order for each of the keys.
fn are_plain(orders: &[Order], forms: &[&[usize]]) -> bool
    ensures is { IsTrue result → orders.now ≡ map (λ _. plain) forms.now }
    ensures only { orders.now ≡ map (λ _. plain) forms.now → IsTrue result }
{
    if orders.len() != forms.len() {
        return false;
    }
    for at in 0..forms.len() {
        if !is_plain(&orders[at]) {
            return false;
        }
    }
    true
}

pub(crate) fn is_table(table: &Table, form: &TableForm<'_>) -> bool
    ensures is { IsTrue result → table.now ≡ table_as form.now }
    ensures only { table.now ≡ table_as form.now → IsTrue result }
{
    if !is_head(table, form) {
        return false;
    }
    if !is_bare(table) {
        return false;
    }
    if !is_timeless(table) {
        return false;
    }
    if !are_columns(table.columns.as_slice(), form.columns) {
        return false;
    }
    if !are_keys(table.uniques.as_slice(), form.uniques) {
        return false;
    }
    are_plain(table.orders.as_slice(), form.uniques)
}

/// Whether the index has this name and tree, and has these columns of the table with that tree.
pub(crate) fn is_index(
    index: &Index,
    name: &[u8],
    tree: u32,
    table: u32,
    columns: &[usize],
    is_unique: bool,
) -> bool
    ensures is { IsTrue result → index.now ≡ index_of name.now tree table columns.now is_unique }
    ensures only { index.now ≡ index_of name.now tree table columns.now is_unique → IsTrue result }
{
    index.name.as_slice() == name
        && index.tree == tree
        && index.table == table
        && index.columns.as_slice() == columns
        && index.order == Order::PLAIN
        && index.is_unique == is_unique
}
