//! What follows from the definitions. Each function does nothing: its contract is the law.
ghost use Rattle.wgr_office.specs.Between.{StopsKeepAcknowledged};
ghost use Rattle.wgr_office.specs.Secrets.{SecretsAreUnanswered};
ghost use Rattle.wgr_office.specs.Worlds.{WorldsAreAlike};

use sqlite::Alter;

/// Two registers that may differ in other tenants' rows and requests, but agree on what one tenant has
/// and asks and on the accepted orders about it: it gets the same replies, byte for byte.
pub fn worlds_are_alike()
    ensures { WorldsAreAlike }
{}

/// Two messages with a dump for one network that differ only in private and preshared keys: on the
/// rows of a register the replies are equal, byte for byte, and each tenant then has the same view.
pub fn secrets_are_unanswered()
    ensures { SecretsAreUnanswered }
{}

/// A stop between any two events of a run, before the first or after the last, leaves a valid
/// register with all that was acknowledged so far, and at most one further event, which was answered
/// `Unavailable`.
pub fn a_stop_in_a_run_leaves_what_was_acknowledged<S: Alter>()
    ensures { StopsKeepAcknowledged S.Store }
{}
