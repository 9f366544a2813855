//! Why a command on rows isn't done.
use std::alloc::AllocError;
use wgr_core::Refusal;
use wgr_sql::Fault;

/// Why a command on rows isn't done.
#[derive(Clone, Copy, Debug, Drop, PartialEq, Eq)]
pub enum RowFault {
    /// The network refuses it.
    Refused(Refusal),
    /// Memory was refused, or the store failed.
    Fault(Fault),
}

impl From<Fault> for RowFault {
    ghost use Rattle.std.specs.Prelude.{◌≡◌};
    ghost use Rattle.wgr_rows.specs.declared.fault.RowFault.TheVariants as fault;

    ghost from_gives = { λ why r. r ≡ fault.Fault why };

    fn from(why: Fault) -> RowFault {
        RowFault::Fault(why)
    }
}

impl From<AllocError> for RowFault {
    ghost use Rattle.std.specs.Prelude.{◌≡◌};
    ghost use Rattle.wgr_rows.specs.declared.fault.RowFault.TheVariants as fault;
    ghost use Rattle.wgr_sql.specs.declared.fault.Fault.TheVariants.{NoMemory};

    ghost from_gives = { λ _ r. r ≡ fault.Fault NoMemory };

    fn from(_: AllocError) -> RowFault {
        RowFault::Fault(Fault::NoMemory)
    }
}
