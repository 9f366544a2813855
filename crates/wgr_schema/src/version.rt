//! The versions of the register's tables, and of which one a database is.
ghost use Rattle.std.specs.Prelude.{◌≡◌, ◌↔◌, ◌≤◌, pos, false, IsTrue, IfErr, IfOk, OnOk, Err, Some};
ghost use Rattle.sqlite.specs.State.{HasCleanDisk, Survives};
ghost use Rattle.sqlite.specs.Held.{state};
ghost use Rattle.wgr_sql.specs.Calls.{IsKept};
ghost use Rattle.wgr_sql.specs.Causes.{HasCause};
ghost use Rattle.wgr_schema.specs.Faults.{IfStatementFails};
ghost use Rattle.wgr_schema.specs.Versions.{IsOfEarlierVersion, IsOfVersion, IsVersionOf, SaysVersion, version_number};
ghost use Rattle.wgr_schema.specs.declared.version.Version.{Version};
ghost use Rattle.wgr_schema.specs.declared.version.Version.TheVariants.{Three};
ghost use Rattle.wgr_schema.specs.declared.fault.RegisterFault.TheVariants.{EarlierVersion, NotARegister, NotGood, NotEmpty};

use crate::fault::{RegisterFault, register_fault};
use crate::later::last_served;
use crate::layout::holds_register;
use sqlite::types::ValueRef;
use sqlite::{Alter, Connection, Row};
use wgr_columns::meta;
use wgr_sql::{Fault, query};

/// A version of the register's tables.
#[derive(Clone, Copy, Debug, PartialEq, Eq)]
pub enum Version {
    /// The first, with six tables. Releases up to 0.7.1 wrote it.
    One,
    /// The second, with the table `second` too. No release wrote it.
    Two,
    /// The third, with the tables `second` and `reader` too, which this program makes and opens.
    Three,
}

impl Version {
    /// The number by which the table `meta` names it.
    pub fn number(self) -> u32
        ensures { result ≡ version_number self }
    {
        match self {
            Version::One => 1,
            Version::Two => 2,
            Version::Three => 3,
        }
    }
}

// The version of this number.
fn numbered(number: i64) -> Option<Version>
    ensures { (version : Version) → (result ≡ Some version) ↔ (number ≡ pos (version_number version)) }
{
    match number {
        1 => Some(Version::One),
        2 => Some(Version::Two),
        3 => Some(Version::Three),
        _ => None,
    }
}

// The version that the rows of `meta` name: there is one row, and its first value is the version's number.
fn said_version(rows: &[Row]) -> Option<Version>
    ensures { (version : Version) → (result ≡ Some version) ↔ SaysVersion version rows.now }
{
    match rows {
        [row] => match row.get_ref(meta::VERSION) {
            Ok(ValueRef::Int(number)) => numbered(number),
            _ => None,
        },
        _ => None,
    }
}

// The version, if it isn't later than the last one.
fn up_to(version: Version, last: Version) -> Option<Version>
    ensures { (v : Version) → (result ≡ Some v) ↔ ((version ≡ v) × (version_number v ≤ version_number last)) }
{
    if version.number() > last.number() {
        return None;
    }
    Some(version)
}

/// Of which version the database's tables are: the register's first six tables are there, the row of `meta` names
/// the version, and the version's other tables are there. `None` means that they are of no version. It reads no
/// row except that of the version, and changes nothing. A fault of the store has a cause.
pub fn version_of<S: Alter>(conn: &mut Connection<S>) -> Result<Option<Version>, Fault>
    requires idle { conn.old.in_transaction ≡ false }
    ensures idle { conn.new.in_transaction ≡ false }
    ensures answer { HasCleanDisk (state S.Store conn.new) → IfOk result (λ found. IsVersionOf found (state S.Store conn.old).now) }
    ensures kept { IsKept (state S.Store conn.old) (state S.Store conn.new) }
    ensures survives { Survives (state S.Store conn.old) (state S.Store conn.new) (λ _. ⊥) }
    ensures cause { IfErr result (HasCause (state S.Store conn.old) (state S.Store conn.new)) }
{
    if !holds_register(conn.schema()) {
        return Ok(None);
    }
    let last = last_served(conn.schema());
    let rows = query(conn, "SELECT version FROM meta", &[])?;
    match said_version(rows.as_slice()) {
        Some(version) => Ok(up_to(version, last)),
        None => Ok(None),
    }
}

/// Whether the tables are those of the present version, the third. `EarlierVersion` means that they are those of an
/// earlier one, `NotARegister` that they are of none. It reads no row except that of the version, and changes
/// nothing. A fault of the store has a cause.
pub fn check_layout<S: Alter>(conn: &mut Connection<S>) -> Result<(), RegisterFault>
    requires idle { conn.old.in_transaction ≡ false }
    ensures idle { conn.new.in_transaction ≡ false }
    ensures right { HasCleanDisk (state S.Store conn.new) → OnOk result (IsOfVersion Three (state S.Store conn.old).now) }
    ensures wrong { HasCleanDisk (state S.Store conn.new) → result ≡ Err NotARegister → (version : Version) → IsOfVersion version (state S.Store conn.old).now → ⊥ }
    ensures earlier { HasCleanDisk (state S.Store conn.new) → result ≡ Err EarlierVersion → IsOfEarlierVersion (state S.Store conn.old).now }
    ensures good { result ≡ Err NotGood → ⊥ }
    ensures full { result ≡ Err NotEmpty → ⊥ }
    ensures kept { IsKept (state S.Store conn.old) (state S.Store conn.new) }
    ensures survives { Survives (state S.Store conn.old) (state S.Store conn.new) (λ _. ⊥) }
    ensures cause { IfErr result (IfStatementFails (HasCause (state S.Store conn.old) (state S.Store conn.new))) }
{
    match version_of(conn) {
        Ok(Some(Version::Three)) => Ok(()),
        Ok(Some(Version::Two)) => Err(RegisterFault::EarlierVersion),
        Ok(Some(Version::One)) => Err(RegisterFault::EarlierVersion),
        Ok(None) => Err(RegisterFault::NotARegister),
        Err(fault) => Err(register_fault(fault)),
    }
}
