//! What follows from the definitions that the reader meets. Each function does nothing: its contract
//! is the law.
ghost use Rattle.wgr_dump.specs.Laws.{OneDump, OneFault, NotBoth, NotNeither, SecretsAreUnread, SecretsAreNoFault, LinesAreJoined, FieldsAreJoined};

/// A text is its lines with newlines between them, and a line its fields with tabs.
pub fn lines_and_fields_are_joined()
    ensures lines { LinesAreJoined }
    ensures fields { FieldsAreJoined }
{}

/// A text is a dump of at most one interface and one list of lines.
pub fn dumps_are_unique()
    ensures { OneDump }
{}

/// A text that isn't a dump has one first bad field, and one that is has none.
pub fn faults_are_unique()
    ensures one { OneFault }
    ensures not_both { NotBoth }
    ensures not_neither { NotNeither }
{}

/// From two texts that differ only in private and preshared keys, the same is read, or the same
/// fault is found.
pub fn secrets_are_unread()
    ensures values { SecretsAreUnread }
    ensures faults { SecretsAreNoFault }
{}
