//! What is asked of a schema before its tables are taken to the third version.
ghost use Rattle.std.specs.Prelude.{◌≡◌, ◌↔◌, IsTrue, is_some};
ghost use Rattle.std.specs.List.{list_any};
ghost use Rattle.sqlite.specs.Does.{lacks_sequence};
ghost use Rattle.sqlite.specs.Rows.{sequence};
ghost use Rattle.wgr_schema.specs.Versions.{AreFree};

use crate::version::Version;
use sqlite_catalog::layout::is_used;
use sqlite_schema::schema::{Schema, Table};

/// Whether no table, index or view has the name of a table that the version lacks.
pub fn are_free(schema: &Schema, version: Version) -> bool
    ensures { IsTrue result ↔ AreFree version schema.now }
{
    match version {
        Version::One => !is_used(schema, b"second") && !is_used(schema, b"reader"),
        Version::Two => !is_used(schema, b"reader"),
        Version::Three => true,
    }
}

fn any_counted(tables: &[Table]) -> bool
    ensures { result ≡ list_any (λ t. t.is_counted) tables.now }
{
    tables.iter().any(|t| t.is_counted)
}

fn has_counters(schema: &Schema) -> bool
    ensures { result ≡ is_some (sequence schema.now) }
{
    match schema.table_named(b"sqlite_sequence") {
        Some(at) => schema.tables.as_slice().get(at).is_some(),
        None => false,
    }
}

/// Whether a table counts its rowids (AUTOINCREMENT), and the table of the counters isn't there. SQLite
/// makes that with the first such table and never drops it.
pub fn lacks_counters(schema: &Schema) -> bool
    ensures { result ≡ lacks_sequence schema.now }
{
    any_counted(schema.tables.as_slice()) && !has_counters(schema)
}
