//! What follows from the definitions. Each function does nothing: its contract is the law.
ghost use Rattle.wgr_schema.specs.Laws.{FreshIsConsistent, VersionIsRead};

/// A register that was just made is of the third version, and its rows are those of a consistent
/// register without entries.
pub fn fresh_is_consistent()
    ensures { FreshIsConsistent }
{}

/// If the rows are written as the register writes them, the version that `check_layout` requires is
/// the one in `meta`'s row.
pub fn version_is_read()
    ensures { VersionIsRead }
{}
