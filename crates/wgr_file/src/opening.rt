//! A register that is found, made or migrated in files, and closed.
ghost use Rattle.std.specs.Prelude.{◌≡◌, Err, IfErr, IfOk, None};
ghost use Rattle.sqlite.specs.WalFiles.{image_at};
ghost use Rattle.wgr_file.specs.OnFiles.{FilesStay, IsClosedTo, IsMadeInFiles, IsOpen, WasMigrated, WereEarlier, WereForeign, WereNotGood, WereTaken, WereUnmovable, WereUnsound};
ghost use Rattle.wgr_schema.specs.declared.fault.RegisterFault.TheVariants.{EarlierVersion, NotARegister, NotEmpty, NotGood};

use crate::database::{self, Closed};
use sqlite::{Connection, FileFrom, FileStore, Files, Start};
use sqlite_disk::Disk;
use wgr_register::{OpenFault, Register, RegisterFault, register_fault};

/// Why no register was opened or made, and the files as they were closed, if there were any.
#[derive(Drop)]
pub struct Unopened<S: Start> {
    pub fault: RegisterFault,
    pub files: Closed<S>,
}

/// The register in the file at this path. `NotARegister` where there is no file, or where its tables
/// aren't those of a register; `EarlierVersion` where they are those of an earlier version; `NotGood` where they
/// are those of the third, and the rows aren't good.
pub fn open_register<S: Start>(
    rt: &HostRuntime,
    path: &str,
    start: S,
) -> Result<Register<FileStore<FileFrom<S>>>, Unopened<S>>
    ensures open { IfOk result (IsOpen (image_at S.Start)) }
    ensures kept { IfErr result (λ e. FilesStay ⟦<FileFrom<S> as Disk>⟧ (image_at S.Start) e.files) }
    ensures foreign { IfErr result (λ e. e.fault ≡ NotARegister → WereForeign ⟦<FileFrom<S> as Disk>⟧ (image_at S.Start) e.files) }
    ensures earlier { IfErr result (λ e. e.fault ≡ EarlierVersion → WereEarlier ⟦<FileFrom<S> as Disk>⟧ (image_at S.Start) e.files) }
    ensures bad { IfErr result (λ e. e.fault ≡ NotGood → WereNotGood ⟦<FileFrom<S> as Disk>⟧ (image_at S.Start) e.files) }
    ensures taken { IfErr result (λ e. e.fault ≡ NotEmpty → ⊥) }
{
    let conn = match database::find(rt, path, start) {
        Ok(Some(conn)) => conn,
        Ok(None) => return nothing_opened(RegisterFault::NotARegister),
        Err(why) => return nothing_opened(register_fault(why)),
    };
    match Register::open(rt.alloc(), conn) {
        Ok(register) => Ok(register),
        Err(OpenFault { fault, connection }) => Err(Unopened {
            fault,
            files: database::close(connection),
        }),
    }
}

/// Makes a register without entries in the file at this path, and gives the files back as they were
/// closed. `NotEmpty` where a table of a register is there, `NotARegister` where anything else is.
pub fn make_register<S: Start>(
    rt: &HostRuntime,
    path: &str,
    start: S,
) -> Result<Closed<S>, Unopened<S>>
    ensures made { IfOk result (IsMadeInFiles ⟦<FileFrom<S> as Disk>⟧ (image_at S.Start)) }
    ensures kept { IfErr result (λ e. FilesStay ⟦<FileFrom<S> as Disk>⟧ (image_at S.Start) e.files) }
    ensures good { IfErr result (λ e. e.fault ≡ NotGood → ⊥) }
    ensures earlier { IfErr result (λ e. e.fault ≡ EarlierVersion → ⊥) }
{
    let conn = match database::make(rt, path, start) {
        Ok(conn) => conn,
        Err(why) => return nothing_opened(register_fault(why)),
    };
    match Register::create(conn) {
        Ok(register) => Ok(close(register)),
        Err(OpenFault { fault, connection }) => Err(Unopened {
            fault,
            files: database::close(connection),
        }),
    }
}

/// Takes the register in the file at this path to the third version of its tables, and gives the files back as
/// they were closed; one of the third version stays as it is. `NotARegister` where there is no file, or where
/// its tables aren't those of a register that can be migrated; `NotEmpty` where something has the name of a table
/// that is to come; `NotGood` where the rows aren't those of a consistent register.
pub fn migrate_register<S: Start>(
    rt: &HostRuntime,
    path: &str,
    start: S,
) -> Result<Closed<S>, Unopened<S>>
    ensures migrated { IfOk result (WasMigrated ⟦<FileFrom<S> as Disk>⟧ (image_at S.Start)) }
    ensures kept { IfErr result (λ e. FilesStay ⟦<FileFrom<S> as Disk>⟧ (image_at S.Start) e.files) }
    ensures foreign { IfErr result (λ e. e.fault ≡ NotARegister → WereUnmovable ⟦<FileFrom<S> as Disk>⟧ (image_at S.Start) e.files) }
    ensures taken { IfErr result (λ e. e.fault ≡ NotEmpty → WereTaken ⟦<FileFrom<S> as Disk>⟧ (image_at S.Start) e.files) }
    ensures bad { IfErr result (λ e. e.fault ≡ NotGood → WereUnsound ⟦<FileFrom<S> as Disk>⟧ (image_at S.Start) e.files) }
    ensures earlier { IfErr result (λ e. e.fault ≡ EarlierVersion → ⊥) }
{
    let conn = match database::find(rt, path, start) {
        Ok(Some(conn)) => conn,
        Ok(None) => return nothing_opened(RegisterFault::NotARegister),
        Err(why) => return nothing_opened(register_fault(why)),
    };
    match Register::migrate(rt.alloc(), conn) {
        Ok(migrated) => Ok(close(migrated)),
        Err(OpenFault { fault, connection }) => Err(Unopened {
            fault,
            files: database::close(connection),
        }),
    }
}

/// Puts all that was committed into the file of the database itself, and gives both files back; none
/// where that fails.
pub fn close<D: Disk + Drop>(register: Register<FileStore<D>>) -> Option<Files<D>>
    ensures { IsClosedTo D.Disk result register }
{
    register.rules_hold();
    database::close(register.into_connection())
}

// No file was opened, or what was is closed.
fn nothing_opened<T, S: Start>(fault: RegisterFault) -> Result<T, Unopened<S>>
    ensures { result ≡ Err (record { fault = fault; files = None }) }
{
    Err(Unopened { fault, files: None })
}
