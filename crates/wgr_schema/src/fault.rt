//! Why no register was made or opened.
ghost use Rattle.std.specs.Prelude.{◌≡◌};
ghost use Rattle.wgr_schema.specs.Faults.{as_register_fault};
ghost use Rattle.wgr_schema.specs.declared.fault.RegisterFault.TheVariants.{EarlierVersion, NotARegister, NotEmpty, NotGood};

use wgr_sql::{Cause, Fault};

/// Why no register was made or opened.
#[derive(Clone, Copy, Debug, PartialEq, Eq)]
pub enum RegisterFault {
    /// An allocation failed.
    NoMemory,
    /// Any other error of the store, or invalid contents.
    Store(Cause),
    /// The database has no tables of a register, of any version.
    NotARegister,
    /// The tables are those of an earlier version: `upgrade` takes them to the present one.
    EarlierVersion,
    /// The rows break the register's rules.
    NotGood,
    /// A table or a view has the name of one of the register's tables.
    NotEmpty,
}

/// A fault of a statement as the reason why no register was made or opened; it says nothing about what the
/// database holds.
pub fn register_fault(fault: Fault) -> RegisterFault
    ensures value { result ≡ as_register_fault fault }
    ensures foreign { result ≡ NotARegister → ⊥ }
    ensures earlier { result ≡ EarlierVersion → ⊥ }
    ensures bad { result ≡ NotGood → ⊥ }
    ensures taken { result ≡ NotEmpty → ⊥ }
{
    match fault {
        Fault::NoMemory => RegisterFault::NoMemory,
        Fault::Store(cause) => RegisterFault::Store(cause),
    }
}
