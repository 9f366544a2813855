//! What follows from the definitions. Each function does nothing: its contract is the law.
ghost use Rattle.wgr_reply.specs.StatusLine.{HaveOneStatus};

/// No bytes begin with the first line of two statuses.
pub fn replies_have_one_status()
    ensures { HaveOneStatus }
{}
