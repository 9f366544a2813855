//! Readings of the operator: what a running service shows of itself and of its register, and copies of it. None
//! changes the register.
ghost use Rattle.std.specs.Prelude.{◌≡◌, IfOk, OnErr, OnOk, flat_map, option_map, true};
ghost use Rattle.std.specs.Io.KnownBytes.{Appends};
ghost use Rattle.wgr_io.specs.Device.{IsCut};
ghost use Rattle.wgr_service.specs.Counts.{replies_of};
ghost use Rattle.wgr_service.specs.Readings.{MayEnd, HasReadRows, has_form, is_absolute, is_reading_available, reading_text, shown};
ghost use Rattle.wgr_words.specs.Reading.{Backup, Show, Status, reading_asked};

use crate::copies::{Archive, CopyFault};
use crate::desk::{Desk, status_text};
use crate::parts::write_parts;
use itoa::Buffer;
use sqlite::Alter;
use std::alloc::{AllocError, Global};
use wgr_core::Name;
use wgr_io::{Write, WriteFault};
use wgr_office::Office;
use wgr_register::Fault;
use wgr_show::{figures_of, show_text};
use wgr_words::Reading;

/// How a reading ended.
#[derive(Drop)]
pub enum ReadingEnd {
    /// The text that is shown.
    Shown(Vec<u8>),
    /// The copy is made.
    Copied,
    /// The tenant's name is malformed.
    BadTenant,
    /// No tenant has the name.
    NoSuchTenant,
    /// The file's name is no absolute path.
    BadFile,
    /// There is a file of this name.
    FileExists,
    /// The copy can't be made.
    Device,
    /// Memory or the store failed.
    Fault(Fault),
}

impl ReadingEnd {
    /// Whether neither memory nor the store failed.
    pub(crate) fn is_available(&self) -> bool
        ensures { result ≡ is_reading_available self.now }
    {
        !matches!(self, ReadingEnd::Fault(_))
    }
}

/// Does what a reading asks.
pub(crate) fn read<S: Alter, A: Archive>(
    alloc: Global,
    office: &mut Office<S>,
    desk: &mut Desk<A>,
    reading: Reading<'_>,
) -> ReadingEnd
    ensures reads { HasReadRows S.Store office.old office.new (reading_asked reading.entry) result }
    ensures counts { replies_of desk.new ≡ replies_of desk.old }
{
    match reading {
        Reading::Status => read_status(alloc, office, desk),
        Reading::Show { tenant, is_json } => read_entries(alloc, office, tenant, is_json),
        Reading::Backup { file } => make_copy(desk, file),
    }
}

// What the service served so far, and how much the register holds.
fn read_status<S: Alter, A: Archive>(
    alloc: Global,
    office: &mut Office<S>,
    desk: &Desk<A>,
) -> ReadingEnd
    ensures { HasReadRows S.Store office.old office.new Status result }
{
    let loaded = office.loaded();
    let cached = office.cached();
    match office.census(alloc) {
        Ok(census) => {
            let figures = figures_of(&census);
            shown(status_text(alloc, desk.started, desk.tally, figures, loaded, cached))
        }
        Err(why) => ReadingEnd::Fault(why),
    }
}

// A text that was made, or not.
fn shown(text: Result<Vec<u8>, AllocError>) -> ReadingEnd
    ensures { result ≡ shown text }
{
    match text {
        Ok(text) => ReadingEnd::Shown(text),
        Err(_) => ReadingEnd::Fault(Fault::NoMemory),
    }
}

// The entries of all tenants, or of one.
fn read_entries<S: Alter>(
    alloc: Global,
    office: &mut Office<S>,
    tenant: Option<&str>,
    is_json: bool,
) -> ReadingEnd
    ensures { HasReadRows S.Store office.old office.new (Show (option_map (λ name. name.now) tenant.entry) is_json) result }
{
    match has_form(alloc, tenant) {
        Ok(true) => {}
        Ok(false) => return ReadingEnd::BadTenant,
        Err(_) => return ReadingEnd::Fault(Fault::NoMemory),
    }
    let census = match office.census(alloc) {
        Ok(census) => census,
        Err(why) => return ReadingEnd::Fault(why),
    };
    match show_text(alloc, &census, tenant, is_json) {
        Ok(Some(text)) => ReadingEnd::Shown(text),
        Ok(None) => ReadingEnd::NoSuchTenant,
        Err(_) => ReadingEnd::Fault(Fault::NoMemory),
    }
}

// Whether this may be the name of a tenant.
fn has_form(alloc: Global, tenant: Option<&str>) -> Result<bool, AllocError>
    ensures { IfOk result (λ has. has ≡ has_form (option_map (λ name. name.now) tenant.entry)) }
{
    match tenant {
        Some(name) => Ok(Name::read(alloc, name.as_bytes())?.is_some()),
        None => Ok(true),
    }
}

// Whether the path begins at the root.
fn is_absolute(file: &str) -> bool
    ensures { result ≡ is_absolute file.now }
{
    match file.as_bytes() {
        [first, ..] => *first == b'/',
        [] => false,
    }
}

// Copies the register's files. A service and its client may be in different folders, so the path is absolute.
fn make_copy<A: Archive>(desk: &mut Desk<A>, file: &str) -> ReadingEnd
    ensures ends { MayEnd (Backup file.now) result }
    ensures counts { replies_of desk.new ≡ replies_of desk.old }
{
    if !is_absolute(file) {
        return ReadingEnd::BadFile;
    }
    match desk.archive.copy(file) {
        Ok(()) => ReadingEnd::Copied,
        Err(CopyFault::Exists) => ReadingEnd::FileExists,
        Err(CopyFault::Device) => ReadingEnd::Device,
        Err(CopyFault::NoMemory) => ReadingEnd::Fault(Fault::NoMemory),
    }
}

/// Writes how a reading ended: a line with the exit status of the same reading given as a command, and what
/// that prints; or with 0 and the length of the text that is shown, and then the text.
pub(crate) fn write_reading_end<W: Write>(end: &ReadingEnd, out: &mut W) -> Result<(), WriteFault>
    ensures ok { OnOk result (Appends (W.contents out.old) (W.contents out.new) (reading_text end.now)) }
    ensures sound { OnOk result (W.failed out.new ≡ W.failed out.old) }
    ensures cut { OnErr result (IsCut (W.contents out.old) (W.contents out.new) (reading_text end.now)) }
    ensures failed { OnErr result (W.failed out.new ≡ true) }
{
    let mut length = Buffer::new();
    write_parts(&reading_parts(end, &mut length), out)
}

// The parts of that, one after the other.
fn reading_parts<'a>(end: &'a ReadingEnd, length: &'a mut Buffer) -> [&'a [u8]; 4]
    ensures { flat_map (λ part. part.now) result ≡ reading_text end.now }
{
    let line: &'a [u8] = match end {
        ReadingEnd::Shown(text) => {
            return [
                b"0 ",
                length.format(text.len()).as_bytes(),
                b"\n",
                text.as_slice(),
            ];
        }
        ReadingEnd::Copied => b"0 done\n",
        ReadingEnd::BadTenant => b"2 bad_field tenant\n",
        ReadingEnd::NoSuchTenant => b"2 no_such_tenant\n",
        ReadingEnd::BadFile => b"2 bad_field file\n",
        ReadingEnd::FileExists => b"2 file_exists\n",
        ReadingEnd::Device => b"1 device\n",
        ReadingEnd::Fault(Fault::Store(_)) => b"1 store\n",
        ReadingEnd::Fault(Fault::NoMemory) => b"1 no_memory\n",
    };
    [line, b"", b"", b""]
}
