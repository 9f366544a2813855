//! Why a call on a register fails.
use sqlite::{Alter, Connection};
use std::alloc::AllocError;
use wgr_core::{ActFault, CommandRefusal};
use wgr_orders::OrderRefusal;
use wgr_rows::RowFault;
use wgr_schema::RegisterFault;
use wgr_tables::Fault;

/// Why no register was made or opened, and the connection, whose rows are as before.
pub struct OpenFault<S: Alter> {
    pub fault: RegisterFault,
    pub connection: Connection<S>,
}

/// An order is done.
#[derive(Clone, Copy, Debug, PartialEq, Eq)]
pub struct Done;

/// Why an order isn't done.
#[derive(Debug, Drop)]
pub enum OrderFault {
    /// The register refuses it.
    Refused(OrderRefusal),
    /// Memory was refused, or the store failed; the rows are as before.
    Fault(Fault),
}

impl From<Fault> for OrderFault {
    ghost use Rattle.std.specs.Prelude.{◌≡◌};
    ghost use Rattle.wgr_register.specs.declared.fault.OrderFault.TheVariants as fault;

    ghost from_gives = { λ why r. r ≡ fault.Fault why };

    fn from(why: Fault) -> OrderFault {
        OrderFault::Fault(why)
    }
}

/// Why a request gives no text.
#[derive(Clone, Copy, Debug, Drop, PartialEq, Eq)]
pub enum AskFault {
    /// The network refuses the command.
    Refused(CommandRefusal),
    /// No tenant has the token.
    UnknownToken,
    /// The token only reads, and the command changes.
    ReadOnly,
    /// The tenant has no network of the name.
    NoSuchNetwork,
    /// Memory was refused, or the store failed; the rows are as before.
    Fault(Fault),
}

impl From<Fault> for AskFault {
    ghost use Rattle.std.specs.Prelude.{◌≡◌};
    ghost use Rattle.wgr_register.specs.declared.fault.AskFault.TheVariants as fault;

    ghost from_gives = { λ why r. r ≡ fault.Fault why };

    fn from(why: Fault) -> AskFault {
        AskFault::Fault(why)
    }
}

impl From<AllocError> for AskFault {
    ghost use Rattle.std.specs.Prelude.{◌≡◌};
    ghost use Rattle.wgr_register.specs.declared.fault.AskFault.TheVariants as fault;
    ghost use Rattle.wgr_sql.specs.declared.fault.Fault.TheVariants.{NoMemory};

    ghost from_gives = { λ _ r. r ≡ fault.Fault NoMemory };

    fn from(_: AllocError) -> AskFault {
        AskFault::Fault(Fault::NoMemory)
    }
}

impl From<ActFault> for AskFault {
    ghost use Rattle.std.specs.Prelude.{◌≡◌};
    ghost use Rattle.wgr_register.specs.Ends.{ask_fault};

    ghost from_gives = { λ why r. r ≡ ask_fault why };

    fn from(why: ActFault) -> AskFault {
        match why {
            ActFault::Refused(why) => AskFault::Refused(why),
            ActFault::NoMemory => AskFault::Fault(Fault::NoMemory),
        }
    }
}

impl From<RowFault> for AskFault {
    ghost use Rattle.std.specs.Prelude.{◌≡◌};
    ghost use Rattle.wgr_register.specs.Ends.{row_fault};

    ghost from_gives = { λ why r. r ≡ row_fault why };

    fn from(why: RowFault) -> AskFault {
        match why {
            RowFault::Refused(why) => AskFault::Refused(CommandRefusal::from(why)),
            RowFault::Fault(why) => AskFault::Fault(why),
        }
    }
}
