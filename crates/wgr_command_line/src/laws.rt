//! What follows from the definitions. The functions do nothing: their contracts are the laws.
ghost use Rattle.wgr_command_line.specs.Words.{PoolIsAsked};

/// The word after `plan` is the pool, unless it begins like a flag.
pub fn pool_is_asked()
    ensures { PoolIsAsked }
{}
