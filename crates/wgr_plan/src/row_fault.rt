//! Why a line of the input gets no row.
ghost use Rattle.std.specs.Prelude.{◌≡◌};
ghost use Rattle.wgr_plan.specs.RowFaultNames.{row_fault_name};

use std::fmt;
use wgr_core::CommandRefusal;

/// Why a line of the input gets no row.
#[derive(Clone, Copy, Debug, Drop, PartialEq, Eq)]
pub enum RowFault {
    /// The line isn't the text of a key.
    NoKey,
    /// The network refuses the key.
    Refused(CommandRefusal),
}

impl RowFault {
    /// The fault's name, without its fact: letters and underscores.
    pub fn name(&self) -> &'static str
        ensures { result.now ≡ row_fault_name self.now }
    {
        match self {
            RowFault::NoKey => "bad_field",
            RowFault::Refused(why) => why.name(),
        }
    }
}

impl fmt::Display for RowFault {
    /// The refusal's text; for a line that is no key, `bad_field` and the field, `key`.
    fn fmt<W: fmt::Write>(&self, f: &mut fmt::Formatter<W>) -> fmt::Result {
        match self {
            RowFault::NoKey => write!(f, "{} key", self.name()),
            RowFault::Refused(why) => why.fmt(f),
        }
    }
}
