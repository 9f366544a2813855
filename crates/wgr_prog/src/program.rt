//! The program over any streams.
ghost use Rattle.std.specs.Prelude.{◌≡◌, ◌≢◌, ◌⊎◌, true, IfOk, IfErr, drop, map, string_bytes};
ghost use Rattle.std.specs.IoError.{error_kind};
ghost use Rattle.std.specs.declared.io.ErrorKind.TheVariants.{InvalidData};
ghost use Rattle.sqlite.specs.WalFiles.{image_at};
ghost use Rattle.clap.specs.Words.{kind_of};
ghost use Rattle.wgr_file.specs.OnFiles.{FilesStay};
ghost use Rattle.wgr_prog.specs.Answering.{output_of};
ghost use Rattle.wgr_prog.specs.Status.{LacksWords, RunsPlan, ServesWords, plan_fault_status, kind_status, streams};
ghost use Rattle.wgr_prog.specs.declared.messages.TheConstants.{DONE, FAULT, REFUSED};

use crate::messages::{DONE, REFUSED, Text, device, no_memory, refusal};
use crate::order_lines::run_orders;
use crate::register_words::{run_init, run_migrate, run_order};
use crate::request_words::{run_batch, run_serve};
use crate::send::run_send;
use crate::showing::run_show;
use clap::error::ErrorKind;
use sqlite::{FileFrom, Start};
use sqlite_disk::Disk;
use std::alloc::Global;
use std::convert::AsStr;
use std::fmt::Write as _;
use std::io;
use wgr_command_line::{Invocation, read_words};
use wgr_core::Pool;
use wgr_file::Closed;
use wgr_io::{Read, Write, write_all};
use wgr_plan::{PlanFault, plan};
use wgr_service::Network;
use wgr_text::read_loose;

/// Does what the program's arguments ask for, of which the first is its own name, and returns the
/// exit status; or reports why there are none. A register's files are returned as they were closed.
///
/// `start` is what the files held when they were opened, which no system reports: `main` passes `Unknown`,
/// and the contract says for each initial content what is in them afterwards. Only `serve` and
/// `send` use the network.
///
/// If standard error fails, nothing can be reported, and the status is unchanged.
pub fn run<S: Start, N: Network, R: Read, W: Write, E: Write>(
    rt: &HostRuntime,
    start: S,
    arguments: &io::Result<Vec<String>>,
    network: &mut N,
    input: &mut R,
    out: &mut W,
    err: &mut E,
) -> (u8, Closed<S>)
    ensures serves { IfOk arguments.now (λ all. ServesWords ⟦<FileFrom<S> as Disk>⟧ (image_at S.Start) result.1 (map string_bytes (drop 1 all.items)) (N.log network.old) (N.log network.new) (streams R.remaining R.failed W.contents W.failed input.old out.old) (streams R.remaining R.failed W.contents W.failed input.new out.new) (output_of E.contents E.failed err.old) (output_of E.contents E.failed err.new) result.0) }
    ensures lacks { IfErr arguments.now (λ error. (N.log network.new ≡ N.log network.old) × FilesStay ⟦<FileFrom<S> as Disk>⟧ (image_at S.Start) result.1 × LacksWords (error_kind error) (streams R.remaining R.failed W.contents W.failed input.old out.old) (streams R.remaining R.failed W.contents W.failed input.new out.new) result.0) }
{
    match arguments {
        Ok(all) => program(rt, start, words_of(all), network, input, out, err),
        Err(error) => (no_words(error, err), None),
    }
}

// All but the first of the arguments.
fn words_of(arguments: &[String]) -> &[String]
    ensures { result.now ≡ drop 1 arguments.now }
{
    match arguments.split_first() {
        Some((_, words)) => words,
        None => arguments,
    }
}

// Does what the words ask for, and returns the exit status.
fn program<S: Start, T: AsStr, N: Network, R: Read, W: Write, E: Write>(
    rt: &HostRuntime,
    start: S,
    words: &[T],
    network: &mut N,
    input: &mut R,
    out: &mut W,
    err: &mut E,
) -> (u8, Closed<S>)
    ensures { ServesWords ⟦<FileFrom<S> as Disk>⟧ (image_at S.Start) result.1 (map T.text words.now) (N.log network.old) (N.log network.new) (streams R.remaining R.failed W.contents W.failed input.old out.old) (streams R.remaining R.failed W.contents W.failed input.new out.new) (output_of E.contents E.failed err.old) (output_of E.contents E.failed err.new) result.0 }
{
    let alloc = rt.alloc();
    match read_words(alloc, words) {
        Ok(Invocation::Plan { pool }) => (run_plan(alloc, pool, input, out, err), None),
        Ok(Invocation::Init { db }) => run_init(rt, db, start, out, err),
        Ok(Invocation::Migrate { db }) => run_migrate(rt, db, start, out, err),
        Ok(Invocation::Operate { db, order }) => {
            run_order(rt, db, start, &order, input, out, err)
        }
        Ok(Invocation::Batch { db, now, files }) => run_batch(rt, db, start, now, &files, out, err),
        Ok(
            Invocation::Serve {
                db,
                place,
                count,
                now,
                orders,
            },
        ) => run_serve(rt, db, start, place, count, now, orders, network, out, err),
        Ok(Invocation::Orders { db, file }) => run_orders(rt, db, start, file, input, out, err),
        Ok(
            Invocation::Show {
                db,
                tenant,
                is_json,
            },
        ) => run_show(rt, db, start, tenant, is_json, out, err),
        Ok(
            Invocation::Send {
                path,
                words,
                digest,
                is_json,
            },
        ) => (
            run_send(
                alloc, path, &words, digest, is_json, network, input, out, err,
            ),
            None,
        ),
        Err(answer) => (no_invocation(alloc, &answer, out, err), None),
    }
}

// Reports why the command-line arguments are not available.
fn no_words<E: Write>(error: &io::Error, err: &mut E) -> u8
    ensures not_utf8 { error_kind error.now ≡ InvalidData → result ≡ REFUSED }
    ensures fault { error_kind error.now ≢ InvalidData → result ≡ FAULT }
{
    // Std returns arguments as strings. Every valid argument of the program is UTF-8, so any other is refused.
    if error.kind() == io::ErrorKind::InvalidData {
        refusal(err, b"wgr: the command line is not UTF-8\n")
    } else {
        no_memory(err)
    }
}

// Prints the help or the version, or reports what is wrong with the command line.
fn no_invocation<W: Write, E: Write>(
    alloc: Global,
    answer: &clap::Error,
    out: &mut W,
    err: &mut E,
) -> u8
    ensures status { (result ≡ FAULT) ⊎ (result ≡ kind_status (kind_of answer.now)) }
    ensures mistake { kind_status (kind_of answer.now) ≡ REFUSED → result ≡ REFUSED }
    ensures kept { kind_status (kind_of answer.now) ≢ DONE → out.new ≡ out.old }
    ensures sound { result ≢ FAULT → W.failed out.new ≡ W.failed out.old }
    ensures fault { result ≡ FAULT → (out.new ≡ out.old) ⊎ (W.failed out.new ≡ true) }
{
    if answer.kind() == ErrorKind::OutOfMemory {
        return no_memory(err);
    }
    if answer.use_stderr() {
        let _ = write!(Text { err }, "{answer}");
        return REFUSED;
    }
    let Ok(text) = format!(in alloc; "{answer}") else {
        return no_memory(err);
    };
    match write_all(out, text.as_bytes()) {
        Ok(()) => DONE,
        Err(_) => device(err),
    }
}

fn run_plan<R: Read, W: Write, E: Write>(
    alloc: Global,
    pool: &str,
    input: &mut R,
    out: &mut W,
    err: &mut E,
) -> u8
    ensures { RunsPlan pool.now (streams R.remaining R.failed W.contents W.failed input.old out.old) (streams R.remaining R.failed W.contents W.failed input.new out.new) result }
{
    let Some((address, length)) = read_loose(pool.as_bytes()) else {
        return refusal(err, b"wgr: bad_field pool\n");
    };
    let Ok(pool) = Pool::new(address, length) else {
        return refusal(err, b"wgr: bad_pool\n");
    };
    match plan(alloc, &pool, input, out) {
        Ok(()) => DONE,
        Err(why) => plan_fault(&why, err),
    }
}

fn plan_fault<E: Write>(why: &PlanFault, err: &mut E) -> u8
    ensures status { result ≡ plan_fault_status why.now }
{
    match why {
        PlanFault::NoMemory => no_memory(err),
        PlanFault::Read | PlanFault::Write { .. } => device(err),
        PlanFault::Refused { line, why: reason } => {
            let _ = write!(Text { err }, "wgr: line {line}: {reason}\n");
            REFUSED
        }
    }
}
