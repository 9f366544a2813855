//! What a token allows.
ghost use Rattle.std.specs.Prelude.{◌≡◌};
ghost use Rattle.wgr_core.specs.Outcome.{is_reading};
ghost use Rattle.wgr_model.specs.Steps.{allows};

use wgr_core::Command;

/// What a token allows.
#[derive(Clone, Copy, Debug, PartialEq, Eq)]
pub enum Right {
    /// Every command.
    Full,
    /// The commands that change nothing.
    Read,
}

impl Right {
    /// Whether a token of this right may ask the command.
    pub fn allows(self, command: &Command) -> bool
        ensures { result ≡ allows self command.now }
    {
        match self {
            Right::Full => true,
            Right::Read => is_reading(command),
        }
    }
}

// Whether the command only reads.
fn is_reading(command: &Command) -> bool
    ensures { result ≡ is_reading command.now }
{
    match command {
        Command::Add { .. }
        | Command::Move { .. }
        | Command::Revoke { .. }
        | Command::Route { .. }
        | Command::Unroute { .. }
        | Command::Renew { .. }
        | Command::Adopt { .. } => false,
        Command::List
        | Command::Owner { .. }
        | Command::ServerFile { .. }
        | Command::PeerFile { .. } => true,
    }
}
