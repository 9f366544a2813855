//! `show`: what the register in a file has.
ghost use Rattle.std.specs.Prelude.{◌≡◌, ℕ, Bool, IfErr, List, OnOk, Option, option_map, true};
ghost use Rattle.sqlite.specs.Effect.{Database};
ghost use Rattle.sqlite.specs.Held.{state};
ghost use Rattle.sqlite.specs.State.{HasCleanDisk};
ghost use Rattle.sqlite.specs.WalFiles.{image_at};
ghost use Rattle.wgr_columns.specs.Decode.{tables_of};
ghost use Rattle.wgr_file.specs.OnFiles.{FilesStay};
ghost use Rattle.wgr_model.specs.Steps.{Event};
ghost use Rattle.wgr_register.specs.Standing.{StandsAt};
ghost use Rattle.wgr_prog.specs.Showing.{IsNameFault, MayEndShow, SaysOfFiles, ShowsFiles, ShowsText, may_be_tenant};
ghost use Rattle.wgr_prog.specs.Status.{ReportsShown, RunsShow};

use crate::messages;
use crate::register_words::Failure;
use sqlite::{Alter, FileFrom, Start};
use sqlite_disk::Disk;
use std::alloc::Global;
use wgr_core::Name;
use wgr_file::{Closed, Unopened, close, open_register};
use wgr_io::Write;
use wgr_orders::OrderRefusal;
use wgr_register::{Register, RegisterFault, register_fault};
use wgr_show::show_text;
use wgr_words::{WordFault, WordField};

/// Prints what the register in the file at this path has, of all tenants or of one, and returns the exit status.
pub(crate) fn run_show<S: Start, W: Write, E: Write>(
    rt: &HostRuntime,
    path: &str,
    start: S,
    tenant: Option<&str>,
    is_json: bool,
    out: &mut W,
    err: &mut E,
) -> (u8, Closed<S>)
    ensures { (input : Option (List ℕ)) (failed : Bool) → RunsShow ⟦<FileFrom<S> as Disk>⟧ (image_at S.Start) result.1 (option_map (λ name. name.now) tenant.entry) is_json
        (record { input = input; read_failed = failed; written = W.contents out.old; write_failed = W.failed out.old })
        (record { input = input; read_failed = failed; written = W.contents out.new; write_failed = W.failed out.new })
        result.0 }
{
    let (shown, closed) = show(rt, path, start, tenant, is_json);
    (report(&shown, out, err), closed)
}

// Prints the text, or reports why there is none.
fn report<W: Write, E: Write>(shown: &Result<Vec<u8>, Failure>, out: &mut W, err: &mut E) -> u8
    ensures { ReportsShown (W.contents out.old) (W.contents out.new) (W.failed out.old) (W.failed out.new) shown.now result }
{
    match shown {
        Ok(text) => messages::print(text, out, err),
        Err(why) => messages::failure(why, err),
    }
}

// Tests the name, and only then opens the register.
fn show<S: Start>(
    rt: &HostRuntime,
    path: &str,
    start: S,
    tenant: Option<&str>,
    is_json: bool,
) -> (Result<Vec<u8>, Failure>, Closed<S>)
    ensures kept { FilesStay ⟦<FileFrom<S> as Disk>⟧ (image_at S.Start) result.1 }
    ensures shown { ShowsFiles ⟦<FileFrom<S> as Disk>⟧ (image_at S.Start) result.1 (option_map (λ name. name.now) tenant.entry) is_json result.0 }
{
    match test_name(rt.alloc(), tenant) {
        Ok(()) => show_register(rt, path, start, tenant, is_json),
        Err(why) => (Err(Failure::from(why)), None),
    }
}

// Tests whether a tenant may have this name, if one is given.
fn test_name(alloc: Global, tenant: Option<&str>) -> Result<(), WordFault>
    ensures ok { OnOk result (may_be_tenant (option_map (λ name. name.now) tenant.entry) ≡ true) }
    ensures err { IfErr result (IsNameFault (option_map (λ name. name.now) tenant.entry)) }
{
    let Some(name) = tenant else {
        return Ok(());
    };
    match Name::read(alloc, name.as_bytes()) {
        Ok(Some(_)) => Ok(()),
        Ok(None) => Err(WordFault::Field(WordField::Tenant)),
        Err(_) => Err(WordFault::NoMemory),
    }
}

// The text of the entries of the register in the file at this path.
fn show_register<S: Start>(
    rt: &HostRuntime,
    path: &str,
    start: S,
    tenant: Option<&str>,
    is_json: bool,
) -> (Result<Vec<u8>, Failure>, Closed<S>)
    ensures kept { FilesStay ⟦<FileFrom<S> as Disk>⟧ (image_at S.Start) result.1 }
    ensures shown { ShowsText ⟦<FileFrom<S> as Disk>⟧ (image_at S.Start) result.1 (option_map (λ name. name.now) tenant.entry) is_json result.0 }
{
    let mut register = match open_register(rt, path, start) {
        Ok(register) => register,
        Err(Unopened { fault, files }) => return (Err(Failure::Register(fault)), files),
    };
    let shown = text_of(rt.alloc(), &mut register, tenant, is_json);
    (shown, close(register))
}

// The text of a register's entries.
fn text_of<S: Alter>(
    alloc: Global,
    register: &mut Register<S>,
    tenant: Option<&str>,
    is_json: bool,
) -> Result<Vec<u8>, Failure>
    ensures clean { HasCleanDisk (state S.Store register.new) → HasCleanDisk (state S.Store register.old) }
    ensures stands { (db : Database) (late : List Event) → StandsAt S.Store register.old db late → StandsAt S.Store register.new db late }
    ensures says { (db : Database) (late : List Event) → StandsAt S.Store register.old db late → HasCleanDisk (state S.Store register.new) → SaysOfFiles (option_map (λ name. name.now) tenant.entry) is_json result (tables_of db) }
    ensures ends { MayEndShow result }
{
    let census = match register.census(alloc) {
        Ok(census) => census,
        Err(why) => return Err(Failure::Register(register_fault(why))),
    };
    match show_text(alloc, &census, tenant, is_json) {
        Ok(Some(text)) => Ok(text),
        Ok(None) => Err(Failure::Refused(OrderRefusal::NoSuchTenant)),
        Err(_) => Err(Failure::Register(RegisterFault::NoMemory)),
    }
}
