//! Whether a schema has the register's tables first, and nothing that touches them after.
ghost use Rattle.std.specs.Prelude.{◌≡◌, ◌↔◌, ◌||◌, IsTrue, codes};
ghost use Rattle.std.specs.List.{list_any, list_all};
ghost use Rattle.sqlite_schema.specs.Names.{same_name};
ghost use Rattle.wgr_columns.specs.Layout.{refers, is_apart, is_past, refers_to_no_later};
ghost use Rattle.wgr_columns.specs.LaidOut.{BeginsWithRegister, IsLaidOut};

use crate::indexes::are_register_indexes;
use crate::tables::are_register_tables;
use sqlite_schema::names::same_name;
use sqlite_schema::schema::{Index, Reference, Schema, Table};

// The first tree that is not one of the register's tables and indexes.
pub(crate) const FIRST_FREE_TREE: u32 = 13;

// Whether the reference names one of the tables.
fn refers(tables: &[Table], reference: &Reference) -> bool
    ensures { result ≡ refers tables.now reference.now }
{
    tables
        .iter()
        .any(|t| t.is_named(reference.parent.as_slice()))
}

fn refers_somewhere(tables: &[Table], references: &[Reference]) -> bool
    ensures { result ≡ list_any (refers tables.now) references.now }
{
    references.iter().any(|r| refers(tables, r))
}

// Whether a table's rows are in a tree after the register's, and it refers to none of the tables.
fn is_apart(tables: &[Table], table: &Table) -> bool
    ensures { result ≡ is_apart tables.now table.now }
{
    table.tree >= FIRST_FREE_TREE && !refers_somewhere(tables, table.references.as_slice())
}

fn are_apart(tables: &[Table], others: &[Table]) -> bool
    ensures { result ≡ list_all (is_apart tables.now) others.now }
{
    others.iter().all(|t| is_apart(tables, t))
}

// Whether the reference names a table that is found by its name.
fn refers_to_later(reference: &Reference) -> bool
    ensures { result ≡ (same_name (codes "second") reference.now.parent || same_name (codes "reader") reference.now.parent) }
{
    let parent = reference.parent.as_slice();
    same_name(b"second", parent) || same_name(b"reader", parent)
}

fn refers_to_any_later(references: &[Reference]) -> bool
    ensures { result ≡ list_any (λ ref. same_name (codes "second") ref.parent || same_name (codes "reader") ref.parent) references.now }
{
    references.iter().any(|r| refers_to_later(r))
}

fn refers_to_no_later(table: &Table) -> bool
    ensures { result ≡ refers_to_no_later table.now }
{
    !refers_to_any_later(table.references.as_slice())
}

fn are_unreferring(tables: &[Table]) -> bool
    ensures { result ≡ list_all refers_to_no_later tables.now }
{
    tables.iter().all(|t| refers_to_no_later(t))
}

fn is_past(index: &Index) -> bool
    ensures { result ≡ is_past index.now }
{
    index.tree >= FIRST_FREE_TREE
}

fn are_past(indexes: &[Index]) -> bool
    ensures { result ≡ list_all is_past indexes.now }
{
    indexes.iter().all(|i| is_past(i))
}

// Whether the first tables and indexes are the register's, and the others are separate.
fn begins_with_register(schema: &Schema) -> bool
    ensures { IsTrue result ↔ BeginsWithRegister schema.now }
{
    let tables = schema.tables.as_slice();
    let indexes = schema.indexes.as_slice();
    if tables.len() < 6 {
        return false;
    }
    if indexes.len() < 7 {
        return false;
    }
    let (ours, others) = tables.split_at(6);
    let (our_indexes, further) = indexes.split_at(7);
    if !are_register_tables(ours) {
        return false;
    }
    if !are_register_indexes(our_indexes) {
        return false;
    }
    if !are_apart(ours, others) {
        return false;
    }
    if !are_unreferring(others) {
        return false;
    }
    are_past(further)
}

/// Whether the schema has the register's tables and indexes first, and everything after them is
/// separate: with its own rows and entries, and no reference to the register's tables, `second` and
/// `reader` too.
pub fn holds_register(schema: &Schema) -> bool
    ensures { IsTrue result ↔ IsLaidOut schema.now }
{
    begins_with_register(schema)
}
