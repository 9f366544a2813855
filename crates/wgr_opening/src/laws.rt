//! What follows from the definitions. Each function does nothing: its contract is the law.
ghost use Rattle.wgr_opening.specs.Migrated.{MigrationsKeepViews};
ghost use Rattle.wgr_opening.specs.Whole.{WholeRowsAreConsistent};

/// The rows that are whole are those of a consistent register.
pub fn whole_rows_are_consistent()
    ensures { WholeRowsAreConsistent }
{}

/// After a migration each tenant has the name, the tokens and the networks that it had.
pub fn migrations_keep_views()
    ensures { MigrationsKeepViews }
{}
