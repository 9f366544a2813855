//! Laws. Each function does nothing: its contract is the law.
ghost use Rattle.wgr_service.specs.Laws.{ConnectionsAreApart, EachIsCounted};

/// What is written to each tenant's connections is what its own requests give on its own rows alone.
pub fn connections_are_apart()
    ensures { ConnectionsAreApart }
{}

/// Each status has the count of the replies that were written with it, up to the greatest number of 64 bits.
pub fn each_reply_is_counted()
    ensures { EachIsCounted }
{}
