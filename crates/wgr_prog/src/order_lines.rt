//! `orders`: orders in the lines of a file, or of standard input, on the register in a file.
ghost use Rattle.std.specs.Prelude.{◌≡◌, IfErr, IfOk, None, option_map};
ghost use Rattle.sqlite.specs.WalFiles.{image_at};
ghost use Rattle.wgr_prog.specs.Answering.{output_of};
ghost use Rattle.wgr_prog.specs.Ordering.{CarriesOutText, EndsOrders, IsOrderText, IsTextFault, orders_status};
ghost use Rattle.wgr_prog.specs.Status.{RunsOrders, streams};
ghost use Rattle.wgr_words.specs.Order.{TakesInput, input_of};

use crate::messages;
use crate::register_words::Failure;
use crate::request_words::{close_office, open_office};
use crate::requests::read_file;
use sqlite::{FileFrom, Start};
use sqlite_disk::Disk;
use std::alloc::Global;
use wgr_file::{Closed, Unopened};
use wgr_io::{Read, ReadFault, Write, read_to_end};
use wgr_service::carry_out_text;
use wgr_words::WordFault;

/// Carries out the orders in the lines of a file, or of standard input, and returns the exit status.
pub(crate) fn run_orders<S: Start, R: Read, W: Write, E: Write>(
    rt: &HostRuntime,
    path: &str,
    start: S,
    file: Option<&str>,
    input: &mut R,
    out: &mut W,
    err: &mut E,
) -> (u8, Closed<S>)
    ensures { RunsOrders ⟦<FileFrom<S> as Disk>⟧ (image_at S.Start) result.1 (option_map (λ file. file.now) file.entry) (streams R.remaining R.failed W.contents W.failed input.old out.old) (streams R.remaining R.failed W.contents W.failed input.new out.new) result.0 }
{
    let (carried, closed) = carry_out_orders(rt, path, start, file, input, out);
    (orders_status(&carried, err), closed)
}

fn orders_status<E: Write>(carried: &Result<u8, Failure>, err: &mut E) -> u8
    ensures { result ≡ orders_status carried.now }
{
    match carried {
        Ok(status) => *status,
        Err(why) => messages::failure(why, err),
    }
}

// Reads the whole text, and only then opens the register.
fn carry_out_orders<S: Start, R: Read, W: Write>(
    rt: &HostRuntime,
    path: &str,
    start: S,
    file: Option<&str>,
    input: &mut R,
    out: &mut W,
) -> (Result<u8, Failure>, Closed<S>)
    ensures { EndsOrders ⟦<FileFrom<S> as Disk>⟧ (image_at S.Start) result.1 (option_map (λ file. file.now) file.entry) (input_of R.remaining R.failed input.old) (input_of R.remaining R.failed input.new) (output_of W.contents W.failed out.old) (output_of W.contents W.failed out.new) result.0 }
{
    match read_text(rt, file, input) {
        Ok(text) => carry_out(rt, path, start, &text, out),
        Err(why) => (Err(Failure::from(why)), None),
    }
}

// The text of the file, or all of standard input.
fn read_text<R: Read>(
    rt: &HostRuntime,
    file: Option<&str>,
    input: &mut R,
) -> Result<Vec<u8>, WordFault>
    ensures ok { IfOk result (λ text. IsOrderText (option_map (λ file. file.now) file.entry) (input_of R.remaining R.failed input.old) (input_of R.remaining R.failed input.new) text.items) }
    ensures err { IfErr result (IsTextFault (option_map (λ file. file.now) file.entry) (input_of R.remaining R.failed input.old) (input_of R.remaining R.failed input.new)) }
{
    match file {
        Some(file) => read_file(rt, file),
        None => read_input(rt.alloc(), input),
    }
}

fn read_input<R: Read>(alloc: Global, input: &mut R) -> Result<Vec<u8>, WordFault>
    ensures ok { IfOk result (λ text. TakesInput (input_of R.remaining R.failed input.old) (input_of R.remaining R.failed input.new) text.items) }
    ensures err { IfErr result (IsTextFault None (input_of R.remaining R.failed input.old) (input_of R.remaining R.failed input.new)) }
{
    match read_to_end(alloc, input) {
        Ok(text) => Ok(text),
        Err(ReadFault::NoMemory) => Err(WordFault::NoMemory),
        Err(ReadFault::Device) => Err(WordFault::Device),
    }
}

// Carries out the orders in the lines of a text on the register in the file at this path.
fn carry_out<S: Start, W: Write>(
    rt: &HostRuntime,
    path: &str,
    start: S,
    text: &[u8],
    out: &mut W,
) -> (Result<u8, Failure>, Closed<S>)
    ensures { CarriesOutText ⟦<FileFrom<S> as Disk>⟧ (image_at S.Start) result.1 text.now (output_of W.contents W.failed out.old) (output_of W.contents W.failed out.new) result.0 }
{
    let mut office = match open_office(rt, path, start) {
        Ok(office) => office,
        Err(Unopened { fault, files }) => return (Err(Failure::Register(fault)), files),
    };
    let carried = carry_out_text(rt.alloc(), &mut office, text, out);
    let closed = close_office(office);
    match carried {
        Ok(status) => (Ok(status), closed),
        Err(_) => (Err(Failure::Device), closed),
    }
}
