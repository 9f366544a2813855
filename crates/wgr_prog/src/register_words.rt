//! The commands on a register in a file.
ghost use Rattle.std.specs.Prelude.{◌≡◌, ℕ, Bool, List, Option, false};
ghost use Rattle.sqlite.specs.WalFiles.{image_at};
ghost use Rattle.wgr_words.specs.Asked.{order_asked};
ghost use Rattle.wgr_words.specs.Order.{input_of, wants_token};
ghost use Rattle.wgr_prog.specs.OnRegister.{CarriesOut, EndsAs, as_ended};
ghost use Rattle.wgr_prog.specs.Status.{RunsInit, RunsMigrate, RunsOrder, streams};

use crate::messages;
use sqlite::{FileFrom, Start};
use sqlite_disk::Disk;
use wgr_file::{Closed, Unopened, make_register, migrate_register, operate};
use wgr_io::{Read, Write};
use wgr_orders::{Order, OrderRefusal};
use wgr_register::{Done, OrderFault, RegisterFault, register_fault};
use wgr_words::{OrderWords, WordFault, WordField, order_of};

/// Why a command on a register is not done.
#[derive(Drop)]
pub(crate) enum Failure {
    /// The first malformed field.
    Field(WordField),
    /// The register refuses the order.
    Refused(OrderRefusal),
    /// Memory, the store, or what the database holds.
    Register(RegisterFault),
    /// Standard input failed.
    Device,
    /// The store failed for good while connections were served.
    Shut,
}

impl From<WordFault> for Failure {
    ghost use Rattle.std.specs.Prelude.{◌≡◌};
    ghost use Rattle.wgr_prog.specs.OnRegister.{of_words};

    ghost from_gives = { λ why r. r ≡ of_words why };

    fn from(why: WordFault) -> Failure {
        match why {
            WordFault::Field(field) => Failure::Field(field),
            WordFault::NoMemory => Failure::Register(RegisterFault::NoMemory),
            WordFault::Device => Failure::Device,
        }
    }
}

impl From<RegisterFault> for Failure {
    ghost use Rattle.std.specs.Prelude.{◌≡◌};
    ghost use Rattle.wgr_prog.specs.declared.register_words.Failure.TheVariants as failure;

    ghost from_gives = { λ why r. r ≡ failure.Register why };

    fn from(why: RegisterFault) -> Failure {
        Failure::Register(why)
    }
}

impl From<OrderFault> for Failure {
    ghost use Rattle.std.specs.Prelude.{◌≡◌};
    ghost use Rattle.wgr_prog.specs.OnRegister.{of_order};

    ghost from_gives = { λ why r. r ≡ of_order why };

    fn from(why: OrderFault) -> Failure {
        match why {
            OrderFault::Refused(why) => Failure::Refused(why),
            OrderFault::Fault(why) => Failure::Register(register_fault(why)),
        }
    }
}

/// Makes a register in the file at this path, and returns the exit status.
pub(crate) fn run_init<S: Start, W: Write, E: Write>(
    rt: &HostRuntime,
    path: &str,
    start: S,
    out: &mut W,
    err: &mut E,
) -> (u8, Closed<S>)
    ensures { (input : Option (List ℕ)) (failed : Bool) → RunsInit ⟦<FileFrom<S> as Disk>⟧ (image_at S.Start) result.1
        (record { input = input; read_failed = failed; written = W.contents out.old; write_failed = W.failed out.old })
        (record { input = input; read_failed = failed; written = W.contents out.new; write_failed = W.failed out.new })
        result.0 }
{
    match make_register(rt, path, start) {
        Ok(files) => (messages::done(out, err), files),
        Err(Unopened { fault, files }) => (
            messages::failure(&Failure::Register(fault), err),
            files,
        ),
    }
}

/// Takes the register in the file at this path to the third version of its tables, and returns the exit
/// status.
pub(crate) fn run_migrate<S: Start, W: Write, E: Write>(
    rt: &HostRuntime,
    path: &str,
    start: S,
    out: &mut W,
    err: &mut E,
) -> (u8, Closed<S>)
    ensures { (input : Option (List ℕ)) (failed : Bool) → RunsMigrate ⟦<FileFrom<S> as Disk>⟧ (image_at S.Start) result.1
        (record { input = input; read_failed = failed; written = W.contents out.old; write_failed = W.failed out.old })
        (record { input = input; read_failed = failed; written = W.contents out.new; write_failed = W.failed out.new })
        result.0 }
{
    match migrate_register(rt, path, start) {
        Ok(files) => (messages::done(out, err), files),
        Err(Unopened { fault, files }) => (
            messages::failure(&Failure::Register(fault), err),
            files,
        ),
    }
}

/// Carries out an order on the register in the file at this path, and returns the exit status.
pub(crate) fn run_order<S: Start, R: Read, W: Write, E: Write>(
    rt: &HostRuntime,
    path: &str,
    start: S,
    words: &OrderWords<'_>,
    input: &mut R,
    out: &mut W,
    err: &mut E,
) -> (u8, Closed<S>)
    ensures runs { RunsOrder ⟦<FileFrom<S> as Disk>⟧ (image_at S.Start) result.1 (order_asked words.now) (streams R.remaining R.failed W.contents W.failed input.old out.old) (streams R.remaining R.failed W.contents W.failed input.new out.new) result.0 }
    ensures unread { wants_token (order_asked words.now) ≡ false → input.new ≡ input.old }
{
    let (ended, files) = carry_out(rt, path, start, words, input);
    (messages::ended(&ended, out, err), files)
}

// Makes the order, and only then opens the database.
fn carry_out<S: Start, R: Read>(
    rt: &HostRuntime,
    path: &str,
    start: S,
    words: &OrderWords<'_>,
    input: &mut R,
) -> (Result<Done, Failure>, Closed<S>)
    ensures carried { CarriesOut ⟦<FileFrom<S> as Disk>⟧ (image_at S.Start) result.1 (order_asked words.now) (input_of R.remaining R.failed input.old) (input_of R.remaining R.failed input.new) result.0 }
    ensures unread { wants_token (order_asked words.now) ≡ false → input.new ≡ input.old }
{
    match order_of(rt.alloc(), words, input) {
        Ok(order) => done_or_failed(rt, path, start, &order),
        Err(why) => (Err(Failure::from(why)), None),
    }
}

// Carries out an order on the register in the file at this path.
fn done_or_failed<S: Start>(
    rt: &HostRuntime,
    path: &str,
    start: S,
    order: &Order,
) -> (Result<Done, Failure>, Closed<S>)
    ensures { EndsAs ⟦<FileFrom<S> as Disk>⟧ (image_at S.Start) result.1 order.now result.0 }
{
    match operate(rt, path, start, order) {
        Ok((ended, files)) => (as_failure(ended), files),
        Err(Unopened { fault, files }) => (Err(Failure::Register(fault)), files),
    }
}

fn as_failure(ended: Result<Done, OrderFault>) -> Result<Done, Failure>
    ensures { result ≡ as_ended ended }
{
    match ended {
        Ok(done) => Ok(done),
        Err(why) => Err(Failure::from(why)),
    }
}
