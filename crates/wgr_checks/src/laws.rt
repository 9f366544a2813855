//! What follows from the definitions. Each function does nothing: its contract is the law.
ghost use Rattle.wgr_checks.specs.Laws.{GoodNetworksAreConsistent, GoodReadersAreConsistent, GoodTenantsAreConsistent, GoodTokensAreConsistent};
ghost use Rattle.wgr_checks.specs.Laws.{WrittenAllowedAreAllowed, WrittenPeersArePeers};

/// `read_tenants` requires of the rows what a register's consistency requires of its tenants, and no more.
pub fn good_tenants_are_consistent()
    ensures { GoodTenantsAreConsistent }
{}

/// `tokens_are_good` requires of the rows, given the ids of good tenants, what a register's consistency
/// requires of its tokens, and no more.
pub fn good_tokens_are_consistent()
    ensures { GoodTokensAreConsistent }
{}

/// `readers_are_good` requires of the rows, given good digests of tokens, what a register's consistency
/// requires of its tokens that only read, and no more.
pub fn good_readers_are_consistent()
    ensures { GoodReadersAreConsistent }
{}

/// `read_networks` requires of the rows, given the ids of good tenants, what a register's consistency
/// requires of its networks except for their peers, and no more.
pub fn good_networks_are_consistent()
    ensures { GoodNetworksAreConsistent }
{}

/// Rows that `peers_are_written` finds written are those of peers of the networks.
pub fn written_peers_are_peers()
    ensures { WrittenPeersArePeers }
{}

/// Rows that `allowed_are_written` finds written are those of allowed prefixes in the networks.
pub fn written_allowed_are_allowed()
    ensures { WrittenAllowedAreAllowed }
{}
