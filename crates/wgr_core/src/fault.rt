//! Why a command has no outcome.
use crate::refusal::{CommandRefusal, Refusal};
use std::alloc::AllocError;

/// Why a command failed.
#[derive(Clone, Copy, Debug, Drop, PartialEq, Eq)]
pub enum ActFault {
    /// The network refuses it.
    Refused(CommandRefusal),
    /// Memory ran out.
    NoMemory,
}

impl From<Refusal> for ActFault {
    ghost use Rattle.std.specs.Prelude.{◌≡◌};
    ghost use Rattle.wgr_core.specs.declared.fault.ActFault.TheVariants.{Refused};
    ghost use Rattle.wgr_core.specs.Refusals.{of_command};

    ghost from_gives = { λ why r. r ≡ Refused (of_command why) };

    fn from(why: Refusal) -> ActFault {
        ActFault::Refused(CommandRefusal::from(why))
    }
}

impl From<AllocError> for ActFault {
    ghost use Rattle.std.specs.Prelude.{◌≡◌};
    ghost use Rattle.wgr_core.specs.declared.fault.ActFault.TheVariants.{NoMemory};

    ghost from_gives = { λ _ r. r ≡ NoMemory };

    fn from(_: AllocError) -> ActFault {
        ActFault::NoMemory
    }
}

/// Why a line of a dump was not adopted.
#[derive(Drop)]
pub(crate) enum AdoptFault {
    /// The network refuses it.
    Refused(Refusal),
    /// Memory ran out.
    NoMemory,
}

impl From<AllocError> for AdoptFault {
    ghost use Rattle.std.specs.Prelude.{◌≡◌};
    ghost use Rattle.wgr_core.specs.declared.fault.AdoptFault.TheVariants.{NoMemory};

    ghost from_gives = { λ _ r. r ≡ NoMemory };

    fn from(_: AllocError) -> AdoptFault {
        AdoptFault::NoMemory
    }
}
