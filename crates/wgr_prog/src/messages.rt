//! Messages on standard error, and exit statuses.
//!
//! If standard error fails, nothing can be reported, and the status is unchanged.
ghost use Rattle.std.specs.Prelude.{◌≡◌};
ghost use Rattle.wgr_prog.specs.Messages.{ReportsDone, ReportsText};
ghost use Rattle.wgr_prog.specs.Failures.{failure_status};
ghost use Rattle.wgr_prog.specs.Status.{ReportsEnd};

use crate::register_words::Failure;
use std::fmt;
use std::fmt::Write as _;
use wgr_io::{Write, write_all};
use wgr_register::{Done, RegisterFault};
use wgr_sql::Cause;

/// All is done.
pub(crate) const DONE: u8 = 0;
/// Memory, a file or a stream failed.
pub(crate) const FAULT: u8 = 1;
/// A refusal, or a command line with an error.
pub(crate) const REFUSED: u8 = 2;

// Such a register is refused as none, and how to go on is said in a line of its own.
const EARLIER_VERSION: &[u8] =
    b"wgr: not_a_register\nwgr: the tables are of an earlier version: 'wgr migrate' takes them to this one\n";

pub(crate) fn fault<E: Write>(err: &mut E, text: &[u8]) -> u8
    ensures status { result ≡ FAULT }
{
    let _ = write_all(err, text);
    FAULT
}

pub(crate) fn refusal<E: Write>(err: &mut E, text: &[u8]) -> u8
    ensures status { result ≡ REFUSED }
{
    let _ = write_all(err, text);
    REFUSED
}

pub(crate) fn no_memory<E: Write>(err: &mut E) -> u8
    ensures status { result ≡ FAULT }
{
    fault(err, b"wgr: no_memory\n")
}

pub(crate) fn device<E: Write>(err: &mut E) -> u8
    ensures status { result ≡ FAULT }
{
    fault(err, b"wgr: device\n")
}

/// Prints that what was asked for is done.
pub(crate) fn done<W: Write, E: Write>(out: &mut W, err: &mut E) -> u8
    ensures { ReportsDone (W.contents out.old) (W.contents out.new) (W.failed out.old) (W.failed out.new) result }
{
    print(b"done\n", out, err)
}

/// Prints a text.
pub(crate) fn print<W: Write, E: Write>(text: &[u8], out: &mut W, err: &mut E) -> u8
    ensures { ReportsText (W.contents out.old) (W.contents out.new) (W.failed out.old) (W.failed out.new) text.now result }
{
    match write_all(out, text) {
        Ok(()) => DONE,
        Err(_) => device(err),
    }
}

/// Prints that an order is done, or reports why it isn't.
pub(crate) fn ended<W: Write, E: Write>(
    ended: &Result<Done, Failure>,
    out: &mut W,
    err: &mut E,
) -> u8
    ensures { ReportsEnd (W.contents out.old) (W.contents out.new) (W.failed out.old) (W.failed out.new) ended.now result }
{
    match ended {
        Ok(_) => done(out, err),
        Err(why) => failure(why, err),
    }
}

/// Reports why what was asked for is not done.
pub(crate) fn failure<E: Write>(why: &Failure, err: &mut E) -> u8
    ensures status { result ≡ failure_status why.now }
{
    match why {
        Failure::Field(field) => {
            let _ = write!(Text { err }, "wgr: bad_field {field}\n");
            REFUSED
        }
        Failure::Refused(why) => {
            let _ = write!(Text { err }, "wgr: {why}\n");
            REFUSED
        }
        Failure::Register(why) => register_fault(*why, err),
        Failure::Device => device(err),
        Failure::Shut => register_fault(RegisterFault::Store(Cause::Other), err),
    }
}

fn register_fault<E: Write>(why: RegisterFault, err: &mut E) -> u8
    ensures status { result ≡ FAULT }
{
    match why {
        RegisterFault::NoMemory => no_memory(err),
        RegisterFault::Store(cause) => fault(err, store_text(cause)),
        RegisterFault::NotARegister => fault(err, b"wgr: not_a_register\n"),
        RegisterFault::EarlierVersion => fault(err, EARLIER_VERSION),
        RegisterFault::NotGood => fault(err, b"wgr: not_good\n"),
        RegisterFault::NotEmpty => fault(err, b"wgr: not_empty\n"),
    }
}

// What is printed where the store fails: what was wrong, if it is known, is said in a line of its own.
fn store_text(cause: Cause) -> &'static [u8] {
    match cause {
        Cause::Busy => b"wgr: store\nwgr: another process has the file open\n",
        Cause::Denied => {
            b"wgr: store\nwgr: the file can't be opened: see its permissions, those of its directory, and whether the disk is full\n"
        }
        Cause::Damaged => b"wgr: store\nwgr: the file isn't a database, or is damaged\n",
        Cause::Full => b"wgr: store\nwgr: the disk is full\n",
        Cause::Other => b"wgr: store\n",
    }
}

/// Standard error as a writer of text: printing a message needs no memory.
#[derive(Drop)]
pub(crate) struct Text<'a, E> {
    pub(crate) err: &'a mut E,
}

impl<E: Write> fmt::Write for Text<'_, E> {
    fn write_str(&mut self, text: &str) -> fmt::Result {
        match write_all(self.err, text.as_bytes()) {
            Ok(()) => Ok(()),
            Err(_) => Err(fmt::Error),
        }
    }
}
