//! What follows from the model. Each function does nothing: its contract is the law.
ghost use Rattle.wgr_model.specs.Laws.{AnIdIsUnused, EmptyIsConsistent, EveryEventHasAStep, FirstIsNamed, NetworksAreAsAsked, OrderIsNoAccount, OverlapsAreDecided, PoolsAreDecided, ReadersOnlyRead, RunsAreIsolated, StepsAreIsolated, TwoWorlds};
ghost use Rattle.wgr_model.specs.RowAsks.{ChangesReplaceRows, NetworksAreFound, ReadersLeaveRows, ReadingsLeaveRows, RefusalsLeaveRows};
ghost use Rattle.wgr_model.specs.RowLaws.{CommitsReplace, NoRowsAreConsistent, OrderIsUnseen, RowsAreIsolated, RowsAreRead, RowsOfTwoWorlds, RowsStayConsistent};
ghost use Rattle.wgr_model.specs.RowRules.{ConsistentRowsKeepRules, NetworksGain, NetworksLose, TenantsGain, TokensGain, TokensLose};
ghost use Rattle.wgr_model.specs.RowsExist.{EveryEventHasARowStep, RowsExist, StepsHaveRows};
ghost use Rattle.wgr_model.specs.Stops.{RunsGoOn};

/// A register without entries is consistent.
pub fn empty_is_consistent()
    ensures { EmptyIsConsistent }
{}

/// One event, whoever it is from: the register stays consistent, and each tenant has the answer and
/// the view that it would have alone.
pub fn steps_are_isolated()
    ensures { StepsAreIsolated }
{}

/// An event's answer and effect are the same in whatever order the entries of the register are.
pub fn order_is_no_account()
    ensures { OrderIsNoAccount }
{}

/// For any list of requests and orders that is run on a consistent register: the answers to each
/// tenant, and what it has at the end, are those that its own requests and the accepted orders
/// about it give on what it had, except those answered Unavailable. At the end no two peers of
/// the whole register hold the same address.
pub fn runs_are_isolated()
    ensures { RunsAreIsolated }
{}

/// A tenant can't distinguish two worlds that agree on its own events.
pub fn worlds_are_alike()
    ensures { TwoWorlds }
{}

/// By a request with a token that only reads nobody's view changes.
pub fn readers_only_read()
    ensures { ReadersOnlyRead }
{}

/// The rows of a consistent register are read back as that register, in whatever order they are;
/// so their order reveals nothing to anyone.
pub fn rows_are_read()
    ensures read { RowsAreRead }
    ensures order { OrderIsUnseen }
    ensures consistent { RowsStayConsistent }
    ensures none { NoRowsAreConsistent }
{}

/// Every consistent register has rows, and on consistent rows every event has a step; so the laws
/// about rows aren't vacuous.
pub fn rows_exist()
    ensures rows { RowsExist }
    ensures after { StepsHaveRows }
    ensures step { EveryEventHasARowStep }
{}

/// What a commit must do to leave the rows of the register with one changed network.
pub fn commits_replace()
    ensures { CommitsReplace }
{}

/// Whole runs, stated about the rows of the tables. At the end two address rows with the same
/// address are the same row.
pub fn rows_are_isolated()
    ensures { RowsAreIsolated }
{}

/// Two registers, each with other tenants' rows and requests of its own, that agree on what one tenant
/// has and requests and on the accepted orders about it: the tenant can't distinguish them.
pub fn rows_of_two_worlds()
    ensures { RowsOfTwoWorlds }
{}

/// Events that were run before a stop and those that are run on what it left are one run, with at
/// most one late event between them; so each tenant is isolated along all of it.
pub fn runs_go_on()
    ensures { RunsGoOn }
{}

/// Every event has an answer, and there is an unused id wherever the register has room.
pub fn every_event_has_a_step()
    ensures step { EveryEventHasAStep }
    ensures id { AnIdIsUnused }
{}

/// The tests of pools are correct, and `pool_overlaps` names the first network in
/// byte order of tenants' names, then of networks'.
pub fn pools_are_decided()
    ensures pool { PoolsAreDecided }
    ensures overlap { OverlapsAreDecided }
    ensures first { FirstIsNamed }
{}

/// An accepted order for a new network adds one with the requested pool, endpoint, server key and
/// capacity, and without peers.
pub fn networks_are_as_asked()
    ensures { NetworksAreAsAsked }
{}

/// What consistency says about single rows: each peer has one address row, with an address that its
/// network's pool may give; each allowed prefix leads to a peer of its own network.
pub fn consistent_rows_keep_rules()
    ensures { ConsistentRowsKeepRules }
{}

/// What an order must do to leave the rows of the register with the order done.
pub fn orders_change_rows()
    ensures tenants_gain { TenantsGain }
    ensures tokens_gain { TokensGain }
    ensures tokens_lose { TokensLose }
    ensures networks_gain { NetworksGain }
    ensures networks_lose { NetworksLose }
{}

/// What a request must do to be a step on the rows.
pub fn asks_change_rows()
    ensures found { NetworksAreFound }
    ensures refusals { RefusalsLeaveRows }
    ensures readers { ReadersLeaveRows }
    ensures readings { ReadingsLeaveRows }
    ensures changes { ChangesReplaceRows }
{}
