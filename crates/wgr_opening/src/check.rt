//! Whether a database is a register whose rows are good. The tests are, in this order,
//!
//! 1. the layout and its version (`wgr_schema`),
//! 2. the rows of second pools and of tokens that only read (`wgr_checks`, called in `later.rt`),
//! 3. of tenants,
//! 4. of tokens,
//! 5. of networks,
//! 6. of peers,
//! 7. of allowed prefixes (`wgr_checks`, called in `read.rt`),
//! 8. and each network as a whole, with its peers and routes (`wgr_tables`, called in `stored.rt`).
ghost use Rattle.std.specs.Prelude.{◌≡◌, [], false, Err, IsTrue, IsSome, IfErr, IfOk, IfSome};
ghost use Rattle.sqlite.specs.State.{HasCleanDisk, Survives};
ghost use Rattle.sqlite.specs.Held.{state};
ghost use Rattle.wgr_sql.specs.Calls.{IsKept};
ghost use Rattle.wgr_sql.specs.Causes.{HasCause};
ghost use Rattle.wgr_schema.specs.Faults.{IfStatementFails};
ghost use Rattle.wgr_schema.specs.Versions.{IsOfEarlierVersion, IsOfVersion};
ghost use Rattle.wgr_schema.specs.declared.version.Version.{Version};
ghost use Rattle.wgr_schema.specs.declared.version.Version.TheVariants.{Three};
ghost use Rattle.wgr_schema.specs.declared.fault.RegisterFault.TheVariants.{EarlierVersion, NotARegister, NotEmpty, NotGood};
ghost use Rattle.wgr_columns.specs.Decode.{tables_of};
ghost use Rattle.wgr_tables.specs.Standing.{Stands};
ghost use Rattle.wgr_opening.specs.Good.{IsGood, IsReadyIn, HasSoundRows};
ghost use Rattle.wgr_opening.specs.Outlines.{AreOutlines, outline_in};

use crate::outlines::Outlines;
use crate::read::read_all;
use crate::stored::stored_outlines;
use sqlite::{Alter, Connection};
use std::alloc::Global;
use wgr_schema::{RegisterFault, Version, check_layout, register_fault};
use wgr_sql::Fault;

/// The outlines of the networks, if the rows of a database that has the register's tables of this version are
/// good. It changes nothing.
pub(crate) fn audit<S: Alter>(
    alloc: Global,
    conn: &mut Connection<S>,
    version: Version,
) -> Result<Option<Outlines>, Fault>
    requires idle { conn.old.in_transaction ≡ false }
    ensures idle { conn.new.in_transaction ≡ false }
    ensures good { HasCleanDisk (state S.Store conn.new) → IsReadyIn version (state S.Store conn.old)
        → IfOk result (λ found. IfSome found (λ outlines. IsTrue (state S.Store conn.old).is_open × HasSoundRows (state S.Store conn.old).now × Stands S.Store conn.new (state S.Store conn.old).now [] × AreOutlines (outline_in outlines) (tables_of (state S.Store conn.old).now))) }
    ensures only { HasCleanDisk (state S.Store conn.new) → IsReadyIn version (state S.Store conn.old)
        → IfOk result (λ found. IsTrue (state S.Store conn.old).is_open × (HasSoundRows (state S.Store conn.old).now → IsSome found)) }
    ensures kept { (HasCleanDisk (state S.Store conn.new) → IsReadyIn version (state S.Store conn.old)) → IsKept (state S.Store conn.old) (state S.Store conn.new) }
    ensures clean { HasCleanDisk (state S.Store conn.new) → HasCleanDisk (state S.Store conn.old) }
    ensures survives { Survives (state S.Store conn.old) (state S.Store conn.new) (λ _. ⊥) }
    ensures cause { (HasCleanDisk (state S.Store conn.new) → IsReadyIn version (state S.Store conn.old)) → IfErr result (HasCause (state S.Store conn.old) (state S.Store conn.new)) }
{
    let _live = conn.schema();
    let _settled = conn.is_autocommit();
    let Some(networks) = read_all(alloc, conn, version)? else {
        return Ok(None);
    };
    stored_outlines(alloc, conn, networks.as_slice())
}

/// The outline of each network, if the database is a register whose rows are good.
///
/// `NotARegister` means that the database lacks the register's tables or has those of no version that is
/// known, `EarlierVersion` that it has those of an earlier version, and `NotGood` that it is of the third
/// version, but its rows aren't those of a consistent register. A fault of the store has a cause. It
/// changes nothing.
pub fn check_register<S: Alter>(
    alloc: Global,
    conn: &mut Connection<S>,
) -> Result<Outlines, RegisterFault>
    requires idle { conn.old.in_transaction ≡ false }
    ensures idle { conn.new.in_transaction ≡ false }
    ensures right { HasCleanDisk (state S.Store conn.new) → IfOk result (λ _. IsGood (state S.Store conn.old).now × Stands S.Store conn.new (state S.Store conn.old).now []) }
    ensures outlines { HasCleanDisk (state S.Store conn.new) → IfOk result (λ outlines. AreOutlines (outline_in outlines) (tables_of (state S.Store conn.old).now)) }
    ensures wrong { HasCleanDisk (state S.Store conn.new) → result ≡ Err NotARegister → (version : Version) → IsOfVersion version (state S.Store conn.old).now → ⊥ }
    ensures earlier { HasCleanDisk (state S.Store conn.new) → result ≡ Err EarlierVersion → IsOfEarlierVersion (state S.Store conn.old).now }
    ensures bad { HasCleanDisk (state S.Store conn.new) → result ≡ Err NotGood → IsGood (state S.Store conn.old).now → ⊥ }
    ensures version { HasCleanDisk (state S.Store conn.new) → result ≡ Err NotGood → IsOfVersion Three (state S.Store conn.old).now }
    ensures full { result ≡ Err NotEmpty → ⊥ }
    ensures kept { IsKept (state S.Store conn.old) (state S.Store conn.new) }
    ensures clean { HasCleanDisk (state S.Store conn.new) → HasCleanDisk (state S.Store conn.old) }
    ensures survives { Survives (state S.Store conn.old) (state S.Store conn.new) (λ _. ⊥) }
    ensures cause { IfErr result (IfStatementFails (HasCause (state S.Store conn.old) (state S.Store conn.new))) }
{
    check_layout(conn)?;
    let found = match audit(alloc, conn, Version::Three) {
        Ok(found) => found,
        Err(fault) => return Err(register_fault(fault)),
    };
    match found {
        Some(outlines) => Ok(outlines),
        None => Err(RegisterFault::NotGood),
    }
}
